//! A wire that gives written answers, for tests.
ghost use Rattle.std.specs.{Prelude.{◌≡◌, ◌≤◌, Some, [], ◌++◌, take, drop, length, vec_len, IfOk, IfErr}, IoError.error_kind};
ghost use Rattle.engine.specs.{Classes.{class_by, counted}, Wires.bytes_of};

use crate::class::error_of;
use crate::tally::Tally;
use crate::wire::Wire;
use relay_core::{CallKind, Kind};
use std::alloc::{AllocError, Global};
use std::collections::VecDeque;
use std::io;
use std::io::ErrorKind;
use std::marker::Model;

/// One answer that a [`ScriptWire`] gives.
#[derive(Drop)]
pub enum Play {
    /// A read gives these bytes, or as many as fit into its buffer; the next read gives the rest.
    Bytes(Vec<u8>),
    /// A read meets the end of input.
    End,
    /// A write takes this many bytes, or its whole offer if that is shorter.
    Take(usize),
    /// A write takes none.
    Zero,
    /// The socket is connected.
    Joined,
    /// The end of input is passed on.
    Shut,
    /// A signal interrupts the call.
    Interrupted,
    /// The call would have had to wait.
    Blocked,
    /// The call gives the error that means this kind (`error_of`).
    Fault(Kind),
}

/// One of the lists of answers that a [`ScriptWire`] plays.
#[derive(Clone, Copy)]
pub enum PlayList {
    /// The answers to reads.
    Reads,
    /// The answers to writes.
    Writes,
    /// The answers to the question whether the socket is connected, and to shutdowns.
    Closings,
}

/// An in-memory wire that plays lists of answers, for tests. Only tests show which answers it plays.
///
/// A play that does not fit its call is a fault of kind `other`, and is used up. If the list is empty, the answer is
/// "would block", but a shutdown succeeds. The wire is joined from its first Bytes, End, Take or Joined on.
#[derive(Drop)]
pub struct ScriptWire {
    reads: VecDeque<Play>,
    writes: VecDeque<Play>,
    closings: VecDeque<Play>,
    taken: Vec<u8>,
    tally: Tally,
}

impl Model for ScriptWire {
    ghost use Rattle.std.specs.Prelude.{Some};
    ghost use Rattle.engine.specs.Wires.{bytes_of, WireView};

    ghost Value = { WireView };

    ghost view = { λ w. record {
      remaining = Some (bytes_of w.reads.items);
      written = Some w.taken.items;
      faults = w.tally.faults;
      blocks = w.tally.blocks;
    } };
}

impl ScriptWire {
    /// A wire with these answers. `joined`: the socket is known to be connected. This allocates the memory for the
    /// bytes of every Take. Fails with [`AllocError`] if there is not enough; then the plays are dropped.
    pub fn new(
        alloc: Global,
        joined: bool,
        reads: Vec<Play>,
        writes: Vec<Play>,
        closings: Vec<Play>,
    ) -> Result<ScriptWire, AllocError>
        ensures { IfOk result (λ wire. wire ≡ record {
          remaining = Some (bytes_of reads.items);
          written = Some [];
          faults = 0;
          blocks = 0;
        }) }
    {
        let writes = VecDeque::from(writes);
        let room = room_for(&writes, 0);
        Ok(ScriptWire {
            reads: VecDeque::from(reads),
            taken: Vec::with_capacity(alloc, room)?,
            writes,
            closings: VecDeque::from(closings),
            tally: Tally::new(joined),
        })
    }

    /// Inserts a play before the play at `index` of a list, or after the last. The rest of a Bytes counts as a play.
    ///
    /// This allocates the memory for the play and for a Take's bytes. Fails with [`AllocError`] if there is not enough:
    /// then the play is dropped, and the wire is as it was.
    pub fn disturb(&mut self, list: PlayList, index: usize, play: Play) -> Result<(), AllocError>
        ensures written { self.new.written ≡ self.old.written }
        ensures faults { self.new.faults ≡ self.old.faults }
        ensures blocks { self.new.blocks ≡ self.old.blocks }
        ensures refused { IfErr result (λ x. self.new ≡ self.old) }
    {
        match list {
            PlayList::Reads => insert(&mut self.reads, index, play),
            PlayList::Closings => insert(&mut self.closings, index, play),
            PlayList::Writes => {
                let room = room_for(&self.writes, most_taken(&play));
                self.taken.reserve(room)?;
                insert(&mut self.writes, index, play)
            }
        }
    }

    /// The bytes that writes took.
    pub fn written(&self) -> &[u8]
        ensures { self.now.written ≡ Some result.now }
    {
        self.taken.as_slice()
    }

    /// How many plays are left, up to the largest `usize`.
    pub fn left(&self) -> usize {
        let (reads, writes) = (self.reads.len(), self.writes.len());
        reads
            .saturating_add(writes)
            .saturating_add(self.closings.len())
    }
}

/// The bytes of all Takes of a list together, and `more`, up to the largest `usize`, for which there is no memory.
fn room_for(plays: &VecDeque<Play>, more: usize) -> usize {
    let mut room = more;
    for play in plays {
        room = room.saturating_add(most_taken(play));
    }
    room
}

fn most_taken(play: &Play) -> usize {
    match play {
        Play::Take(most) => *most,
        _ => 0,
    }
}

fn insert(plays: &mut VecDeque<Play>, index: usize, play: Play) -> Result<(), AllocError>
    ensures { IfErr result (λ x. plays.new.items ≡ plays.old.items) }
{
    let index = index.min(plays.len());
    match plays.insert(index, play) {
        Ok(()) => Ok(()),
        Err(_) => Err(AllocError),
    }
}

fn error_kind_of(play: Option<Play>) -> ErrorKind {
    match play {
        None | Some(Play::Blocked) => ErrorKind::WouldBlock,
        Some(Play::Interrupted) => ErrorKind::Interrupted,
        Some(Play::Fault(kind)) => error_of(kind),
        Some(_) => ErrorKind::Other,
    }
}

fn refuse(tally: &mut Tally, call: CallKind, play: Option<Play>) -> io::Error
    ensures { tally.new ≡ counted (class_by call tally.old.joined (error_kind result)) tally.old }
{
    let kind = error_kind_of(play);
    tally.refuse(call, kind);
    io::Error::from(kind)
}

/// If the next play is Bytes, copies what fits into the buffer. Otherwise the error is that play, or None.
fn read_next(reads: &mut VecDeque<Play>, buffer: &mut [u8]) -> Result<usize, Option<Play>>
    ensures most { IfOk result (λ count. count ≤ length buffer.new) }
    ensures given { IfOk result (λ count. bytes_of reads.old.items ≡ take count buffer.new ++ bytes_of reads.new.items) }
    ensures none { IfErr result (λ play. bytes_of reads.new.items ≡ bytes_of reads.old.items) }
{
    let mut bytes = match reads.pop_front() {
        Some(Play::Bytes(bytes)) => bytes,
        play => return Err(play),
    };
    let count = copy_front(bytes.as_slice(), buffer);
    if count < bytes.len() {
        drop_front(&mut bytes, count);
        reads.push_front_reserved(Play::Bytes(bytes));
        return Ok(count);
    }
    Ok(count)
}

/// Copies what fits, and returns how many bytes.
fn copy_front(from: &[u8], to: &mut [u8]) -> usize
    ensures count { (result ≤ length from.now) × (result ≤ length to.new) }
    ensures bytes { take result to.new ≡ take result from.now }
{
    let count = from.len().min(to.len());
    to[..count].copy_from_slice(&from[..count]);
    count
}

fn drop_front(bytes: &mut Vec<u8>, n: usize)
    requires { n ≤ vec_len bytes.old }
    ensures { bytes.new.items ≡ drop n bytes.old.items }
{
    bytes.copy_within(n.., 0);
    bytes.truncate(bytes.len() - n);
}

impl Wire for ScriptWire {
    ghost told = { λ w. w };

    fn read(&mut self, buffer: &mut [u8]) -> io::Result<usize> {
        let count = match read_next(&mut self.reads, buffer) {
            Ok(count) => count,
            Err(Some(Play::End)) => 0,
            Err(play) => return Err(refuse(&mut self.tally, CallKind::Read, play)),
        };
        self.tally.connect();
        Ok(count)
    }

    fn write(&mut self, offer: &[u8]) -> io::Result<usize> {
        let most = match self.writes.pop_front() {
            Some(Play::Take(most)) => {
                self.tally.connect();
                most
            }
            Some(Play::Zero) => 0,
            play => return Err(refuse(&mut self.tally, CallKind::Write, play)),
        };
        // There is room for the bytes of every Take.
        let room = self.taken.capacity() - self.taken.len();
        let count = offer.len().min(most).min(room);
        self.taken.extend_from_slice(&offer[..count]).unwrap();
        if count == 0 && !offer.is_empty() {
            self.tally.none_taken();
        }
        Ok(count)
    }

    fn shut_write(&mut self) -> io::Result<()> {
        match self.closings.pop_front() {
            None | Some(Play::Shut) => Ok(()),
            play => Err(refuse(&mut self.tally, CallKind::Shut, play)),
        }
    }

    fn joined(&mut self) -> io::Result<()> {
        match self.closings.pop_front() {
            Some(Play::Joined) => {
                self.tally.connect();
                Ok(())
            }
            play => Err(refuse(&mut self.tally, CallKind::Join, play)),
        }
    }

    fn faults(&self) -> u64 {
        self.tally.faults()
    }

    fn blocks(&self) -> u64 {
        self.tally.blocks()
    }
}
