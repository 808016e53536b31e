//! What holds for every run of one socket, its reports and its wire.

ghost use Rattle.readiness.specs.Machine.{WiresMissNothing};

/// A wire that does not read, and to which no report was passed on, misses nothing. If there is nothing to read, the
/// system will report what comes next. If there is, a report that names reading is queued, or was taken by a poll and
/// will be passed on. The function does nothing: its contract is the law.
#[tactic(auto, using(crate::proofs::Runs::wires_miss_nothing))]
pub fn wires_miss_nothing()
    ensures { WiresMissNothing }
{}
