//! What holds however the ends sleep and wake. The function does nothing: its contract is the law of its name.
ghost use Rattle.queues.specs.Sleep.{NobodySleeps};

/// While an end sleeps and an item waits, somebody is awake, and on the way to take an item or to wake an end: a thread
/// that has a wake in hand, that is about to unpark an end, that has yet to find that its bit was cleared, or that,
/// after that or after a put that woke nobody, has yet to look. While the bit of a sleeping end is set, each item that
/// waits has a duty of its own. An end that sleeps though its bit was cleared, or the queue closed, is about to be
/// unparked. So it is for any number of ends, after any list of their steps.
#[tactic(auto, using(crate::proofs::Sleep::nobody_sleeps))]
pub fn nobody_sleeps_beside_work()
    ensures { NobodySleeps }
{}
