/// The most characters of an outside text that are shown on a line.
pub(crate) const MAX_SHOWN: usize = 64;

/// The most times that a text is parsed to find the line of a key.
pub(crate) const MAX_LOOKS: usize = 64;
