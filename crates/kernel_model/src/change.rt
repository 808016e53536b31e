/// A change that the network makes at an end.
#[derive(Clone, Copy)]
pub enum Change<'b> {
    /// These bytes arrive.
    Arrive(&'b [u8]),
    /// The end of input arrives.
    Fin,
    /// An error arrives.
    Reset,
    /// The end gets room for writes.
    Room,
}
