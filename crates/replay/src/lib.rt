//! Replays a recording of a relay on the machine ([`OnMachine`]).
//!
//! `record_reader` reads it, puts it in order, and refuses what no thread does. `slot_replay` replays a slot, with
//! `opening`, `turns`, `calls` and `posts`; `replaying` replays what a poller did at its listener. Both use the world
//! of `machine`, and keep its `history`. `trace` compares the records of a connection with its run, by their actions
//! (`action`). `results` has what came of it, which `writing` writes.
//!
//! `ends` and `timeline` play nothing: they follow each connection, or one, by its records alone (`entry`), up to its
//! line (`live`), each act with its time (`moments`).
#![tactic(auto)]

mod action;
mod calls;
mod ends;
mod entry;
mod history;
mod live;
mod machine;
mod moments;
mod opening;
mod posts;
mod replaying;
mod results;
mod slot_replay;
mod timeline;
mod trace;
mod turns;
mod writing;

pub use replaying::OnMachine;
