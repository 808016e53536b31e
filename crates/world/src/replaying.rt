// Makes a list of events happen, from the opening world on.
#![tactic(auto, using(std::proofs::lemmas::Option::gets, std::proofs::lemmas::Grind::common_steps))]

ghost use Rattle.std.specs.Prelude.{◌≡◌, IfOk, IfErr, Some};
ghost use Rattle.world.specs.{States.{IsWithinLimits, opening}, Runs.{run, ReplayFails}, Headline.{BytesAndEndsHold, ClosedHold, DueHolds, FailuresHold, ListenerHolds, Throughout, TriedOnOwn}, Support.SupportHolds};

use crate::event::Event;
use crate::laws::rests_on_core;
use crate::limits::Limits;
use crate::world::World;
use kernel_model::Refusal;
use std::alloc::Global;

/// The world to which these events lead from the opening world.
///
/// If an event fails, returns its index and why: `NotAllowed` if it cannot happen after those before it; `NoMemory` if
/// it can, and needs memory. At index 0, `NoMemory` may also mean that there was none for the opening world.
///
/// After every list of events this holds of the world:
///
/// - In each direction of a connection in a slot, the preamble and then the bytes that arrived are, in this order: the
///   sent bytes, the rest of the preamble, the bytes in the ring, the unread bytes. If the end of input was passed on,
///   that was after every byte (`bytes`). The preamble is the connection's lead on the way to the target, and empty
///   on the way back. In each direction of a closed connection, the sent bytes are a prefix of the preamble and the
///   bytes that arrived, and all of these if the connection was done (`closed`).
/// - No connection was tried on a note or a ticket of another generation (`own`).
/// - A connection failed only after a failed call, or after moving nothing for the idle limit (`failures`).
/// - A connection that could move is due to be tried (`due`). While the accept flag is down, nobody waits at the
///   listener, or its name is queued or in the batch (`listener`).
/// - What `due` depends on (`support`): a slot with notes that is neither held nor free has one ticket, and every
///   other slot none; a connection that nobody holds and that has no notes has no call to make; the poller's table has
///   each slot's generation; and if a flag of a pair is down, its end is armed for it and not ready, or ready and a
///   report of it is queued, in the batch or noted.
pub fn replay(alloc: Global, limits: Limits, events: &[Event]) -> Result<World, (usize, Refusal)>
    requires { IsWithinLimits limits }
    ensures world { IfOk result (λ world. run (opening limits) events.now ≡ Some world) }
    ensures bytes { IfOk result (λ world. BytesAndEndsHold (opening limits) world events.now) }
    ensures closed { IfOk result (λ world. ClosedHold (opening limits) world events.now) }
    ensures own { IfOk result (λ _. Throughout TriedOnOwn (opening limits) events.now) }
    ensures failures { IfOk result (λ world. FailuresHold (opening limits) world events.now) }
    ensures due { IfOk result (λ world. DueHolds world) }
    ensures listener { IfOk result (λ world. ListenerHolds world) }
    ensures support { IfOk result (λ world. SupportHolds world) }
    ensures fails { IfErr result (λ e. ReplayFails limits events.now e.0 e.1) }
{
    rests_on_core();
    let mut world = match World::new(alloc, limits) {
        Ok(world) => world,
        Err(error) => return Err((0, Refusal::from(error))),
    };
    world.play(events)?;
    Ok(world)
}
