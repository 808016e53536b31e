//! What holds for every run. The functions do nothing: the contract of each is the law that it is named after, so
//! that the layers above can use it.

ghost use Rattle.world.specs.{CoreLaws.CoreLaws, Headline.EveryRunHolds};

use relay_core::laws;

/// What [`crate::replay`] promises of its world, but for `support`, holds after every list of events that can happen,
/// from the opening world with any limits, also if each connection has a lead of its own.
pub fn every_run_holds()
    ensures { EveryRunHolds }
{
    rests_on_core();
}

/// The core's laws for every pair, on which the law above depends.
pub(crate) fn rests_on_core()
    ensures { CoreLaws }
{
    laws::answers_keep_place();
    laws::failures_are_told();
    laws::live_pairs_rest();
    laws::only_overdue_pairs_expire();
}
