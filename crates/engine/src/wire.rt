//! What a turn needs of a socket.
ghost use Rattle.std.specs.{Prelude.{◌≡◌, length}, Io.{WritesAtMost, KnownBytes.{Keeps, WriteAppends}}};
ghost use Rattle.engine.specs.Wires.{Asked, Given, WireView, ReadTakes, CountsAnswer, CountsWrite, CountsShut, read_gave, write_gave, call_gave};
ghost use Rattle.engine.specs.Wires as ask;

use std::io;

/// A connection's socket, or something that stands for one. None of its calls waits.
///
/// A wire counts its faults and its answers "would block", by [`class_of`](crate::class_of). An error raises one of
/// the counts by one, or neither if it is an interruption. By that [`turn`](crate::turn) knows the error's class. A
/// write that takes no byte of an offer that is not empty is a fault, too. Both counts wrap around at 2^64.
pub trait Wire {
    // The bytes left to read and written, if the wire specifies them (a socket does not), and both counts.
    ghost told: { Self → WireView };

    // Relates what a call asked, what it gave, and the wire before and after, if the wire specifies that.
    ghost does: { Asked → Given → Self → Self → Type 0 } = { λ _ _ _ _. Unit {0} };

    /// read(2): fills at most the whole buffer, and returns how many bytes; 0 at the end of input.
    fn read(&mut self, buffer: &mut [u8]) -> io::Result<usize>
        ensures most { WritesAtMost result buffer.new }
        ensures bytes { ReadTakes result buffer.new (told self.old) (told self.new) }
        ensures kept { Keeps (told self.old).written (told self.new).written }
        ensures counts { CountsAnswer result (told self.old) (told self.new) }
        ensures did { does (ask.Read (length buffer.old)) (read_gave result buffer.new) self.old self.new };

    /// write(2): takes the first bytes of an offer, at most all of them, and returns how many.
    fn write(&mut self, offer: &[u8]) -> io::Result<usize>
        ensures most { WritesAtMost result offer.now }
        ensures bytes { WriteAppends (told self.old).written (told self.new).written result offer.now }
        ensures kept { Keeps (told self.old).remaining (told self.new).remaining }
        ensures counts { CountsWrite result offer.now (told self.old) (told self.new) }
        ensures did { does (ask.Write offer.now) (write_gave result) self.old self.new };

    /// shutdown(2) with `SHUT_WR`: passes the end of input on.
    fn shut_write(&mut self) -> io::Result<()>
        ensures left { Keeps (told self.old).remaining (told self.new).remaining }
        ensures kept { Keeps (told self.old).written (told self.new).written }
        ensures counts { CountsShut result (told self.old) (told self.new) }
        ensures blocks { (told self.new).blocks ≡ (told self.old).blocks }
        ensures did { does ask.Shut (call_gave result) self.old self.new };

    /// Asks whether connect(2) has completed: an error if it is in progress, or failed.
    fn joined(&mut self) -> io::Result<()>
        ensures left { Keeps (told self.old).remaining (told self.new).remaining }
        ensures kept { Keeps (told self.old).written (told self.new).written }
        ensures counts { CountsAnswer result (told self.old) (told self.new) }
        ensures did { does ask.Join (call_gave result) self.old self.new };

    /// How many answers were faults.
    fn faults(&self) -> u64
        ensures { result ≡ (told self.now).faults };

    /// How many answers were "would block".
    fn blocks(&self) -> u64
        ensures { result ≡ (told self.now).blocks };
}
