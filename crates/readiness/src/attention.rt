//! Whether a wire reads its socket, or knows that a read would block.
ghost use Rattle.std.specs.Prelude.{◌≡◌, ◌||◌, true, false};

use std::marker::Model;

/// Whether a wire reads its socket, or answers "would block" to reads by itself.
///
/// In a clause it is whether the wire reads.
#[derive(Drop)]
pub struct Attention {
    reads: bool,
}

impl Model for Attention {
    ghost use Rattle.std.specs.Prelude.{Bool};

    ghost Value = { Bool };

    ghost view = { λ a. a.reads };
}

impl Attention {
    /// A new socket is read: nothing is known of it.
    pub fn new() -> Attention
        ensures { result ≡ true }
    {
        Attention { reads: true }
    }

    /// Whether the wire reads its socket.
    pub fn reads(&self) -> bool
        ensures { result ≡ self.now }
    {
        self.reads
    }

    /// The wire looked whether a report of something to read was passed on to it. If so, it reads from now on.
    pub fn look(&mut self, told: bool)
        ensures { self.new ≡ (self.old || told) }
    {
        self.reads = self.reads || told;
    }

    /// A read of the socket would block: nothing is there until the next report that names reading.
    pub fn rest(&mut self)
        ensures { self.new ≡ false }
    {
        self.reads = false;
    }

    /// A call failed. The wire reads its socket from now on.
    pub fn wake(&mut self)
        ensures { self.new ≡ true }
    {
        self.reads = true;
    }
}
