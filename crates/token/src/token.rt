//! The name of one end of one connection: its slot, its side and its generation.
ghost use Rattle.std.specs.Prelude.{◌≡◌, ◌≤◌, ◌<◌, ◌+◌, ◌↔◌, Some, Ok, Err, IsErrOf};
ghost use Rattle.token.specs.{Names.{EndName, IsSlot, IsGeneration, end_number, last_generation}, Numbers.{name_of, generation_after}, declared.name.Name.TheVariants.End};

use crate::limits::{MAX_GENERATION, MAX_SLOT, NUMBERS_PER_GENERATION};
use crate::side::Side;
use std::marker::Model;
use thiserror::Error;

/// Why a slot and a generation have no token.
#[derive(Clone, Copy, Debug, PartialEq, Eq, Error)]
pub enum TokenFault {
    /// The slot is over [`MAX_SLOT`].
    #[error("slot out of range")]
    SlotRange,
    /// The generation is 0 or over [`MAX_GENERATION`].
    #[error("generation out of range")]
    GenRange,
}

/// The name of one end of one connection: the slot, the side and the slot's generation.
#[derive(Clone, Copy, PartialEq, Eq)]
pub struct Token {
    slot: usize,
    side: Side,
    generation: u64,
}

impl Model for Token {
    ghost use Rattle.std.specs.Prelude.{◌≤◌};
    ghost use Rattle.token.specs.Names.{EndName, IsSlot, IsGeneration};

    ghost Value = { EndName };

    ghost view = { λ t. record { slot = t.slot; side = t.side; generation = t.generation } };

    ghost invariant = { λ t. IsSlot t.slot × IsGeneration t.generation };

    ghost inverse = { λ name. record { slot = name.slot; side = name.side; generation = name.generation } };
}

impl Token {
    /// The token of an end.
    ///
    /// Refuses with `SlotRange` if the slot is over [`MAX_SLOT`]. If the slot is allowed, refuses with `GenRange` if
    /// the generation is 0 or over [`MAX_GENERATION`].
    pub fn pack(slot: usize, side: Side, generation: u64) -> Result<Token, TokenFault>
        ensures packed { IsSlot slot → IsGeneration generation
            → result ≡ Ok (record { slot = slot; side = side; generation = generation }) }
        ensures slot_range { IsErrOf result TokenFault.SlotRange ↔ (32767 < slot) }
        ensures gen_range { IsErrOf result TokenFault.GenRange ↔ (IsSlot slot × ¬ IsGeneration generation) }
    {
        if slot > MAX_SLOT {
            return Err(TokenFault::SlotRange);
        }
        if generation == 0 || generation > MAX_GENERATION {
            return Err(TokenFault::GenRange);
        }
        Ok(Token {
            slot,
            side,
            generation,
        })
    }

    /// The slot of the connection.
    pub fn slot(self) -> usize
        ensures value { result ≡ self.slot }
        ensures range { IsSlot result }
    {
        self.slot
    }

    /// Which end of the connection the token names.
    pub fn side(self) -> Side
        ensures { result ≡ self.side }
    {
        self.side
    }

    /// How many connections the slot has had, this one included.
    pub fn generation(self) -> u64
        ensures value { result ≡ self.generation }
        ensures range { IsGeneration result }
    {
        self.generation
    }

    /// The token as one number: generation * 65,536 + slot * 2 + side.
    pub fn value(self) -> u64
        ensures number { result ≡ end_number self }
        ensures unpacks { name_of result ≡ Some (End self) }
    {
        self.generation * NUMBERS_PER_GENERATION + self.slot as u64 * 2 + self.side.bit()
    }
}

/// The generation of a slot's next connection, or None after [`MAX_GENERATION`]. A slot that was never opened has
/// generation 0.
pub fn next_gen(generation: u64) -> Option<u64>
    requires { generation ≤ last_generation }
    ensures { result ≡ generation_after generation }
{
    if generation == MAX_GENERATION {
        None
    } else {
        Some(generation + 1)
    }
}
