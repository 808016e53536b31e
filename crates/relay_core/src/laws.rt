//! What holds for every pair, whatever answers and reports arrive and whenever the idle limit passes. The functions
//! do nothing: the contract of each is the law of its name, so a layer above gets the law by a call. The last laws
//! are about whole runs: any list of answers, reports and expiries.

ghost use Rattle.relay_core.specs.Laws.{AnswersAreEvents, AnswersAreToNextCalls, AnswersKeepOrder, AnswersKeepPlace, AnswersPassEndLast, CallsComeWhileLive, ExpiriesChangeVerdictAlone, FailuresAreTold, FreshPairsKeepEndLast, LivePairsRest, OnlyEndsAreSeen, OnlyOverduePairsExpire, ReportsKeepStreams, ReportsSetFlags, RunsKeepOrder, RunsKeepPlace, RunsPassEndLast};

/// No answer loses, doubles or reorders a byte.
#[tactic(auto, using(crate::proofs::Pairs::answers_keep_order))]
pub fn answers_keep_order()
    ensures { AnswersKeepOrder }
{}

/// An answer passes an end of input on only after every byte, and for good.
#[tactic(auto, using(crate::proofs::Pairs::answers_pass_end_last))]
pub fn answers_pass_end_last()
    ensures { AnswersPassEndLast }
{}

/// A direction's end is seen only by the answer End to a call of that direction, and for good.
pub fn only_ends_are_seen()
    ensures { OnlyEndsAreSeen }
{}

/// No answer changes the slot, the generation or the capacity of a ring.
pub fn answers_keep_place()
    ensures { AnswersKeepPlace }
{}

/// An answer fails a pair only if the call failed, and the fault describes that call.
#[tactic(auto, using(crate::proofs::Pairs::failures_are_told))]
pub fn failures_are_told()
    ensures { FailuresAreTold }
{}

/// An answer in a run fits the next call of the pair, and does what the answer to that call does.
#[tactic(auto, using(crate::proofs::Pairs::answers_are_to_next_calls))]
pub fn answers_are_to_next_calls()
    ensures { AnswersAreToNextCalls }
{}

/// There is a next call only while the pair is live.
pub fn calls_come_while_live()
    ensures { CallsComeWhileLive }
{}

/// If a live pair has no next call, nothing is worth trying before a report.
#[tactic(auto, using(crate::proofs::Pairs::live_pairs_rest))]
pub fn live_pairs_rest()
    ensures { LivePairsRest }
{}

/// A report sets all four flags, and changes nothing else.
pub fn reports_change_flags_alone()
    ensures flags { ReportsSetFlags }
    ensures streams { ReportsKeepStreams }
{}

/// The idle limit fails a pair only if the pair is live, has no next call, and has moved nothing for that long.
pub fn only_overdue_pairs_expire()
    ensures { OnlyOverduePairsExpire }
{}

/// The idle limit changes nothing but the verdict.
#[tactic(auto, using(crate::proofs::Pairs::expiries_change_verdict_alone))]
pub fn expiries_change_verdict_alone()
    ensures { ExpiriesChangeVerdictAlone }
{}

/// No run loses, doubles or reorders a byte.
#[tactic(auto, using(crate::proofs::Pairs::runs_keep_order))]
pub fn runs_keep_order()
    ensures { RunsKeepOrder }
{}

/// If each end that a pair passed on came after every byte, this still holds after any run; and if an end is passed on
/// by then, every byte that waited or was read has gone out.
#[tactic(auto, using(crate::proofs::Pairs::runs_pass_end_last))]
pub fn runs_pass_end_last()
    ensures { RunsPassEndLast }
{}

/// A new pair meets the condition of [`runs_pass_end_last`].
pub fn fresh_pairs_keep_end_last()
    ensures { FreshPairsKeepEndLast }
{}

/// No run changes the slot, the generation or the capacity of a ring.
#[tactic(auto, using(crate::proofs::Pairs::runs_keep_place))]
pub fn runs_keep_place()
    ensures { RunsKeepPlace }
{}

/// A list of answers at one second does the same, and moves the same bytes, as the run of these answers alone.
pub fn answers_are_events()
    ensures { AnswersAreEvents }
{}
