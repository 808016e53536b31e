/// Milliseconds by which the longest wait for reports grows with each poller; a single one waits as two do. So all
/// together wake ten times a second at most.
pub(crate) const WAIT_MILLIS: u64 = 100;

/// The most pollers that the settings can ask for.
pub(crate) const MAX_POLLERS: usize = 16;

/// After this many full offers in a row, the bytes count as bulk.
pub(crate) const BULK: u8 = 4;

/// This many probes without an answer end a connection.
pub(crate) const PROBES: u32 = 5;

/// A poller leaves a client to another only if that other has fewer clients by more than this.
pub(crate) const LEAST_MARGIN: usize = 2;

/// And only if that other has fewer by more than its own number, divided by this.
pub(crate) const MARGIN_PART: usize = 8;

/// A poller that has left a client this many times in a row takes the next one.
pub(crate) const MOST_LEFT: u8 = 16;

/// After an opening that lacked memory a poller answers this many times at most as if accept(2) lacked it.
pub(crate) const MOST_LACKING: u8 = 16;

/// A poller lets other threads run after this many more polls with several reports than polls with few.
pub(crate) const MOST_BUSY: u8 = 14;

/// This many reports are several: a few connections with much to move give fewer.
pub(crate) const SEVERAL: usize = 4;

/// The error of a system that has no descriptor left (errno(3)).
pub(crate) const ENFILE: i32 = 23;

/// The error of a system that has no memory left for a socket (errno(3)).
pub(crate) const ENOBUFS: i32 = 105;
