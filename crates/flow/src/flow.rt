//! One direction of a connection: its lead, its ring, its end of input and its shutdown.
ghost use Rattle.std.specs.Prelude.{◌≡◌, ◌+◌, ◌-◌, ◌<◌, ◌≤◌, [], length, true, false, IsTrue, ◌↔◌, IfOk, slice_index, drop};
ghost use Rattle.circular_buffer.specs.Buffer.{buffer};
ghost use Rattle.flow.specs.Stream.{empty_stream, free_room, waiting, front, taken_in, dropped, ended, closed};

use circular_buffer::HeapCircularBuffer;
use std::alloc::{AllocError, Global};
use std::marker::Model;

/// One direction: a lead, a ring of bytes, and whether the source's end of input was seen, and passed on.
///
/// The buffer never wraps, so one write(2) is offered the whole ring. Bytes that have left stay in the buffer until new
/// bytes take their place: to overwrite bytes is a single copy, but the buffer appends bytes in a loop.
#[derive(Drop)]
pub struct Flow {
    lead: Vec<u8>,
    bytes: HeapCircularBuffer<u8>,
    // How many of `bytes` have left. The ring is the rest.
    gone: usize,
    end_seen: bool,
    shut: bool,
}

impl Model for Flow {
    ghost use Rattle.std.specs.Prelude.{◌≤◌, length, drop};
    ghost use Rattle.flow.specs.Stream.{Stream};

    ghost Value = { Stream };

    ghost view = { λ f. record {
      lead = f.lead.items;
      ring = drop f.gone f.bytes.items;
      capacity = f.bytes.capacity;
      end_seen = f.end_seen;
      shut = f.shut;
    } };

    ghost invariant = { λ f. f.gone ≤ length f.bytes.items };
}

impl Flow {
    ghost use Rattle.std.specs.Borrow.{sem};
    ghost use Rattle.flow.specs.Lending.{with_front, LendsFront};

    /// The maximum capacity of a ring, in bytes.
    pub const MAX: usize = 65_536;

    /// The most bytes that a lead has.
    pub const MAX_LEAD: usize = 107;

    /// A flow with this lead, and an empty ring for `capacity` bytes. This allocates all the memory that the flow will
    /// ever use, and fails only if there is not enough; then nothing is made.
    pub fn new(alloc: Global, capacity: usize, lead: &[u8]) -> Result<Flow, AllocError>
        requires least { 1 ≤ capacity }
        requires most { capacity ≤ Flow.MAX }
        requires short { length lead.now ≤ Flow.MAX_LEAD }
        ensures { IfOk result (λ flow. flow ≡ empty_stream capacity lead.now) }
    {
        Ok(Flow {
            lead: Vec::from_slice(alloc, lead)?,
            bytes: HeapCircularBuffer::with_capacity(alloc, capacity)?,
            gone: 0,
            end_seen: false,
            shut: false,
        })
    }

    /// How many bytes wait in the ring, without the lead.
    pub fn len(&self) -> usize
        ensures { result ≡ length self.now.ring }
    {
        self.bytes.len() - self.gone
    }

    /// Whether no byte waits, of the lead or in the ring.
    #[tactic(auto, using(crate::proofs::Front::waiting_ends))]
    pub fn is_drained(&self) -> bool
        ensures { IsTrue result ↔ (waiting self.now ≡ []) }
    {
        self.lead.is_empty() && self.len() == 0
    }

    /// How many bytes are left of the lead.
    pub fn lead_len(&self) -> usize
        ensures { result ≡ length self.now.lead }
    {
        self.lead.len()
    }

    /// The byte at index `i` of what is left of the lead.
    pub fn lead_byte(&self, i: usize) -> u8
        requires { i < length self.now.lead }
        ensures { result ≡ slice_index self.now.lead i }
    {
        self.lead[i]
    }

    /// How many bytes [`Flow::front`] offers.
    pub fn front_len(&self) -> usize
        ensures { result ≡ length (front self.now) }
    {
        if self.lead.is_empty() {
            self.len()
        } else {
            self.lead.len()
        }
    }

    /// How many more bytes the ring can take in.
    pub fn free(&self) -> usize
        ensures room { result ≡ free_room self.now }
        ensures whole { result + length self.now.ring ≡ self.now.capacity }
    {
        self.bytes.capacity() - self.len()
    }

    /// What the next write(2) is offered: the rest of the lead, or if none is left, the whole ring, oldest byte first.
    /// These bytes are lent to be read: unless the caller writes into them, the flow stays as it was.
    pub fn front(&mut self) -> &mut [u8]
        ensures* lends { sem 𝓛 (LendsFront self.entry result) }
        ensures value { result.now ≡ front self.old }
        ensures unwritten { with_front self.old (front self.old) ≡ self.old }
    {
        if !self.lead.is_empty() {
            return self.lead.as_mut_slice();
        }
        drop_first(&mut self.bytes, self.gone);
        self.gone = 0;
        self.bytes.make_contiguous()
    }

    /// A copy of all bytes of the ring, oldest first. Fails only if there is no memory for it.
    pub fn to_vec(&self, alloc: Global) -> Result<Vec<u8>, AllocError>
        ensures { IfOk result (λ bytes. bytes.items ≡ self.now.ring) }
    {
        let mut bytes = self.bytes.to_vec(alloc)?;
        bytes.copy_within(self.gone.., 0);
        bytes.truncate(self.len());
        Ok(bytes)
    }

    /// The byte at index `i` of the ring. The oldest is at 0.
    pub fn byte(&self, i: usize) -> u8
        requires { i < length self.now.ring }
        ensures { result ≡ slice_index self.now.ring i }
    {
        let behind = self.len() - i;
        match self.bytes.get(self.bytes.len() - behind) {
            Some(byte) => *byte,
            None => unreachable!(),
        }
    }

    /// Appends bytes that were read from the source.
    pub fn take_in(&mut self, bytes: &[u8])
        requires fits { length bytes.now ≤ free_room self.old }
        requires open { self.old.end_seen ≡ false }
        ensures { self.new ≡ taken_in self.old bytes.now }
    {
        if self.len() == 0 {
            replace(&mut self.bytes, bytes);
        } else {
            drop_first(&mut self.bytes, self.gone);
            self.bytes.fill_from_slice(bytes);
        }
        self.gone = 0;
    }

    /// Drops the first `n` bytes of the front: they were written.
    pub fn drop_front(&mut self, n: usize)
        requires { n ≤ length (front self.old) }
        ensures { self.new ≡ dropped self.old n }
    {
        if !self.lead.is_empty() {
            self.drop_lead(n);
            return;
        }
        let left = self.len() - n;
        self.gone = self.bytes.len() - left;
    }

    /// Marks the source's end of input as seen: read(2) answered 0.
    pub fn mark_end(&mut self)
        ensures { self.new ≡ ended self.old }
    {
        self.end_seen = true;
    }

    /// Whether the source's end of input was seen.
    pub fn end_seen(&self) -> bool
        ensures { result ≡ self.now.end_seen }
    {
        self.end_seen
    }

    /// Marks the end of input as passed on, by shutdown(2) with `SHUT_WR`.
    pub fn mark_shut(&mut self)
        requires after_end { self.old.end_seen ≡ true }
        requires after_bytes { waiting self.old ≡ [] }
        ensures { self.new ≡ closed self.old }
    {
        self.shut = true;
    }

    /// Whether the end of input was passed on.
    pub fn is_shut(&self) -> bool
        ensures { result ≡ self.now.shut }
    {
        self.shut
    }

    fn drop_lead(&mut self, n: usize)
        requires { n ≤ length self.old.lead }
        ensures { self.new ≡ record self.old { lead = drop n self.old.lead } }
    {
        let left = self.lead.len() - n;
        self.lead.copy_within(n.., 0);
        self.lead.truncate(left);
    }
}

/// Drops the `n` oldest bytes of a buffer, and moves the rest to its start in one piece.
fn drop_first(bytes: &mut HeapCircularBuffer<u8>, n: usize)
    requires { n ≤ length bytes.old.items }
    ensures { bytes.new ≡ buffer (drop n bytes.old.items) bytes.old.capacity }
{
    if n == 0 {
        return;
    }
    let left = bytes.len() - n;
    bytes.make_contiguous().copy_within(n.., 0);
    bytes.truncate_back(left);
}

fn replace(bytes: &mut HeapCircularBuffer<u8>, others: &[u8])
    requires { length others.now ≤ bytes.old.capacity }
    ensures { bytes.new ≡ buffer others.now bytes.old.capacity }
{
    let n = bytes.len().min(others.len());
    bytes.truncate_back(n);
    bytes.make_contiguous().copy_from_slice(&others[..n]);
    bytes.fill_from_slice(&others[n..]);
}
