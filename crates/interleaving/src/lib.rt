//! Every interleaving of the threads is a run of the machine, for one slot.
//!
//! `specs/Threads.antt` has what a thread does at a slot, act by act, in a turn and in an opening; what the threads
//! share; and what each act does to that. An act is atomic. Acts of different threads come in any order, with acts of
//! the network and of the kernel between them. `specs/Likeness.antt` says when a state of the threads and a state of
//! the machine (`world`) are alike. `specs/Rest.antt` has what a state of the threads weighs, and what rest is.
//! `specs/Slots.antt` has a server of many slots, and `specs/Whole.antt` what it weighs.
//!
//! [`laws`] says that each run of the threads is a run of the machine, that each slot of a server can be looked at
//! alone, and that the threads, left alone, come to rest.
#![tactic(auto)]

pub mod laws;
