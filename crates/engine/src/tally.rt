//! What a wire counts of its answers, by which a turn knows the class of an error.
ghost use Rattle.std.specs.Prelude.{◌≡◌};
ghost use Rattle.engine.specs.Classes.{class_by, tally, connected, counted, fault_more};

use crate::class::{Class, class_by};
use relay_core::CallKind;
use std::io::ErrorKind;
use std::marker::Model;

/// What a [`Wire`](crate::Wire) keeps about its answers: whether its socket is known to be connected, how many of its
/// answers were faults, and how many were "would block". Both counts wrap around at 2^64.
#[derive(Drop)]
pub struct Tally {
    joined: bool,
    faults: u64,
    blocks: u64,
}

impl Model for Tally {
    ghost use Rattle.engine.specs.Classes.{Tallied, tally};

    ghost Value = { Tallied };

    ghost view = { λ t. tally t.joined t.faults t.blocks };
}

impl Tally {
    /// No answers yet. `joined`: the socket is known to be connected.
    pub fn new(joined: bool) -> Tally
        ensures { result ≡ tally joined 0 0 }
    {
        Tally {
            joined,
            faults: 0,
            blocks: 0,
        }
    }

    /// Whether the socket is known to be connected.
    pub fn joined(&self) -> bool
        ensures { result ≡ self.now.joined }
    {
        self.joined
    }

    /// How many answers were faults.
    pub fn faults(&self) -> u64
        ensures { result ≡ self.now.faults }
    {
        self.faults
    }

    /// How many answers were "would block".
    pub fn blocks(&self) -> u64
        ensures { result ≡ self.now.blocks }
    {
        self.blocks
    }

    /// From now on the socket is known to be connected.
    pub fn connect(&mut self)
        ensures { self.new ≡ connected self.old }
    {
        self.joined = true;
    }

    /// Counts a call's error by its class: as a fault, as "would block", or not if it is an interruption.
    pub fn refuse(&mut self, call: CallKind, kind: ErrorKind)
        ensures { self.new ≡ counted (class_by call self.old.joined kind) self.old }
    {
        match class_by(call, kind, self.joined) {
            Class::Interrupted => {}
            Class::Blocked => self.blocks = self.blocks.wrapping_add(1),
            Class::Failed(_) => self.faults = self.faults.wrapping_add(1),
        }
    }

    /// Counts a fault: a write took no byte of an offer that is not empty.
    pub fn none_taken(&mut self)
        ensures { self.new ≡ fault_more self.old }
    {
        self.faults = self.faults.wrapping_add(1);
    }
}
