//! What holds for every interleaving. The functions do nothing: the contract of each is the law that it is named after.
ghost use Rattle.world.specs.CoreLaws.{CoreLaws};
ghost use Rattle.interleaving.specs.{Likeness.{EveryInterleavingIsARun, EveryStepIsFollowed}, Rest.{LeftAloneItEnds, LeftAloneItRests}, Slots.SlotsStandApart, Threads.ProgramsAreThese, Whole.LeftAloneServersEnd, Late.WiresComeLate};

use relay_core::laws;

/// For each list of steps that threads make by their programs, in any order, there is a list of events, allowed one
/// after the other from the machine's opening, that leads to a like state. Calls with replies, and what clock, network,
/// kernel, listener and polls do, are the same, in one order. So are the exchanges of the slot's word with their
/// answers, but that the machine may be ahead in an opening. And no act of a thread is in vain.
#[tactic(auto, using(crate::proofs::Runs::every_interleaving))]
pub fn every_interleaving_is_a_run()
    ensures { EveryInterleavingIsARun }
{
    rests_on_core();
    world::laws::every_run_holds();
}

/// Step by step: threads and machine begin alike, and from like states each step of the threads is followed by events
/// of the machine that lead to like states. So the events for a longer list of steps continue those for a shorter one,
/// and exchanges, but within an opening, keep their order among calls and all that is outside.
#[tactic(auto, using(crate::proofs::Runs::every_step))]
pub fn every_step_is_followed()
    ensures { EveryStepIsFollowed }
{
    rests_on_core();
}

/// The acts of a turn of the server, by the contract of `turns`, are the program of that turn here, but for its calls
/// and for acts that change nothing here. The acts of an opening, by the contract of `rounds`, are its program.
#[tactic(auto, using(crate::proofs::Runs::programs_are_these))]
pub fn programs_are_these()
    ensures { ProgramsAreThese }
{}

/// Left alone, the threads come to rest. From any state to which steps lead, each step of the relay's own makes the
/// state's weight smaller, whoever makes it: so no more of them can follow, in any order, than the state weighs. A turn
/// must begin with at least four calls.
#[tactic(auto, using(crate::proofs::Rest::comes_to_rest))]
pub fn left_alone_it_ends()
    ensures { LeftAloneItEnds }
{
    rests_on_core();
    every_interleaving_is_a_run();
}

/// Wherever the relay has made all of its own steps, by whichever threads in whichever order, it is at rest: no program
/// is half way, nothing is due, and nothing could move. The limits must allow a turn four calls.
pub fn left_alone_it_rests()
    ensures { LeftAloneItRests }
{
    rests_on_core();
    every_interleaving_is_a_run();
}

/// Each slot of a server can be looked at alone. For each list of steps of a server, of any number of slots and with
/// any split of them among its pollers, and for each slot: what it has seen of these steps is a run of the threads at
/// one slot, which leads to that slot as it is. So it is a run of the machine, where each connection has its own lead.
/// And while a client waits, each poller that listens has its accept flag up, or a report of the listener coming.
#[tactic(auto, using(crate::proofs::Slots::every_slot))]
pub fn slots_stand_apart()
    ensures { SlotsStandApart }
{
    every_interleaving_is_a_run();
}

/// The same of a whole server, whose weight is a sum over its slots and pollers: from any state to which steps lead, no
/// more of its own steps can follow, in any order and by any of its threads, than it weighs, but for two for each
/// report of the waker that a poll gives.
#[tactic(auto, using(crate::proofs::Whole::every_server))]
pub fn left_alone_servers_end()
    ensures { LeftAloneServersEnd }
{
    every_interleaving_is_a_run();
    left_alone_it_ends();
}

/// What the threads at a slot do over wires that rest is a run of the threads without such wires, and so of the
/// machine. Such a wire answers reads by itself after one that would block, until a report that names reading is passed
/// on to it. What comes meanwhile is late in the other run: it comes just before the wire hears of it or is given an
/// error, or before the sockets are closed. So acts, calls with their replies, and the exchanges of the slot's word are
/// the same, in order (`happened`). And no wire misses anything: what is late, or will come, is reported to it.
#[tactic(auto, using(crate::proofs::Late::wires_come_late))]
pub fn wires_come_late()
    ensures { WiresComeLate }
{
    rests_on_core();
    every_interleaving_is_a_run();
}

/// The core's laws for every pair, on which the laws above depend.
fn rests_on_core()
    ensures { CoreLaws }
{
    laws::answers_keep_place();
    laws::failures_are_told();
    laws::live_pairs_rest();
    laws::only_overdue_pairs_expire();
}
