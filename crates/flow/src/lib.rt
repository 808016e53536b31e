//! One direction of a relayed connection: a bounded ring of bytes between a source and a destination, as `Transfer` of
//! `script` has one (`transfer.rt`), for each script of one direction in `tests/program/reports`:
//! ```
//! flow: Flow::new(alloc, ring, &[])?,
//! self.flow.take_in(bytes);        // they were read at the source, and enter at the back
//! self.flow.drop_front(*count);    // a write took this many of what `front` lends; they leave in order
//! self.flow.mark_end();            // the source has ended, and nothing more enters
//! self.flow.mark_shut();           // every byte has left, and the end was passed on (shutdown(2))
//! ```
//! A flow may have a lead: up to 107 bytes that go out before all that its source sends. They take no room of the ring,
//! and are never offered together with bytes of the ring.
//!
//! Contracts see a [`Flow`] as the `Stream` of `specs/Stream.antt`. [`Flow::front`] takes `&mut` since the bytes may
//! have to be made contiguous. `specs/Lending.antt` says what `front` lends.
#![tactic(auto)]

mod flow;

pub use flow::Flow;
