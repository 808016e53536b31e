/// The outcome of a turn.
#[derive(Clone, Copy, PartialEq, Eq)]
pub enum Turn {
    /// The budget is spent, and there is a next call.
    Again,
    /// The connection is live, and no call is worth trying before the next report.
    Quiet,
    /// Both ends of input were passed on.
    Done,
    /// A call failed, or the idle limit has passed.
    Failed,
}
