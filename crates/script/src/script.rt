ghost use Rattle.std.specs.Prelude.{◌≡◌, string_bytes, IfOk};
ghost use Rattle.script.specs.{Faults.GivesDefined, Runs.{reached_by, flow_report, reached_report}};

use crate::{Fault, FlowScript, Transfer, WorldScript};
use std::alloc::{AllocError, Global};
use world::World;
use world_text::{Page, Piece, print, put_stream};

/// A script, by what it covers.
#[derive(Drop)]
pub enum Script {
    /// One direction of a connection.
    Flow(FlowScript),
    /// The whole relay.
    World(WorldScript),
}

/// The state that a script leads to.
#[derive(Drop)]
pub enum Reached {
    /// One direction of a connection.
    Flow(Transfer),
    /// The whole relay.
    World(World),
}

impl Script {
    /// The state after the whole script; or the fault of the first line that is not allowed; or `NoMemory`.
    pub fn carry_out(&self, alloc: Global) -> Result<Reached, Fault>
        ensures { GivesDefined (reached_by self.now) result }
    {
        match self {
            Script::Flow(script) => script.carry_out(alloc).map(Reached::Flow),
            Script::World(script) => script.carry_out(alloc).map(Reached::World),
        }
    }
}

impl Reached {
    /// The report of the state. Fails only if memory for it ran out.
    pub fn report(&self, alloc: Global) -> Result<String, AllocError>
        ensures { IfOk result (λ text. string_bytes text ≡ reached_report self.now) }
    {
        match self {
            Reached::Flow(transfer) => print_transfer(alloc, transfer),
            Reached::World(world) => print(alloc, world),
        }
    }
}

/// The report of one direction, on one line: `up sent=H ring=H unread=H end=yes|no shut=yes|no`. H are bytes in
/// lower-case hexadecimal, `-` for none; `sent` is what the destination took. Fails only if memory for it ran out.
pub fn print_transfer(alloc: Global, transfer: &Transfer) -> Result<String, AllocError>
    ensures { IfOk result (λ text. string_bytes text ≡ flow_report transfer.now) }
{
    let ring = transfer.flow.to_vec(alloc)?;
    let mut page = Page::new(alloc);
    page.put(&[
        Piece::Text("up sent="),
        Piece::Bytes(transfer.destination.taken()),
    ]);
    put_stream(
        &mut page,
        ring.as_slice(),
        transfer.source.unread(),
        transfer.flow.end_seen(),
        transfer.flow.is_shut(),
    );
    page.finish()
}
