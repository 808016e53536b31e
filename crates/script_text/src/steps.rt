// The steps in a script of one direction.
ghost use Rattle.std.specs.Prelude.{◌≡◌, ◌≢◌};
ghost use Rattle.script_text.specs.{Events.{step_word, step_by, step_of}, Texts.{ReadsBy, ReadsLine}};

use crate::readers::{NotRead, Wrong, count, first_word, is_full, last, last_bytes};
use input::Pieces;
use std::alloc::Global;
use std::marker::Model;
use world::Event;
use world_text::Word;

/// The bytes that a step brings.
#[derive(Drop)]
pub struct Bytes {
    bytes: Vec<u8>,
}

impl Model for Bytes {
    ghost use Rattle.std.specs.Prelude.{ℕ, List};

    ghost Value = { List ℕ };

    ghost view = { λ b. b.bytes.items };
}

impl Bytes {
    /// These bytes. Allocates no memory.
    pub fn new(bytes: Vec<u8>) -> Bytes
        ensures { result ≡ bytes.items }
    {
        Bytes { bytes }
    }

    /// The bytes, in order.
    pub fn as_slice(&self) -> &[u8]
        ensures { result.now ≡ self.now }
    {
        self.bytes.as_slice()
    }

    /// The same bytes as a vector. Allocates no memory.
    pub fn into_vec(self) -> Vec<u8>
        ensures { result.items ≡ self }
    {
        self.bytes
    }
}

/// A step of a script of one direction.
#[derive(Drop)]
pub enum Step {
    /// Bytes arrive at the source.
    Arrive(Bytes),
    /// The source's end of input arrives.
    Fin,
    /// The destination gets room for writes.
    Room,
    /// The read from the source gives this many bytes.
    Read(usize),
    /// The read from the source gives the end of input.
    End,
    /// The write to the destination took this many bytes; with `true`, no room is left.
    Wrote(usize, bool),
    /// The destination is shut down.
    Shut,
}

/// A step of one direction, and its line's number, from 1.
#[derive(Drop)]
pub struct NumberedStep {
    /// The line number; skipped lines count.
    pub line: u64,
    /// What the line says.
    pub step: Step,
}

/// An event of a world, and its line's number, from 1.
#[derive(Drop)]
pub struct NumberedEvent {
    /// The line number; skipped lines count.
    pub line: u64,
    /// What the line says.
    pub event: Event,
}

impl Step {
    /// The first word of the step.
    pub fn word(&self) -> Word
        ensures { result ≡ step_word self.now }
    {
        match self {
            Step::Arrive(_) => Word::Arrive,
            Step::Fin => Word::Fin,
            Step::Room => Word::Room,
            Step::Read(_) => Word::Read,
            Step::End => Word::End,
            Step::Wrote(..) => Word::Wrote,
            Step::Shut => Word::Shut,
        }
    }
}

/// What is expected if the first word of a flow's line is another.
const STEPS: &str =
    "not a step of a flow; one of arrive, end, fin, read, room, shut and wrote is wanted";

/// The step that a line of a script of one direction stands for, or the first word from the left that is wrong; or
/// that memory ran out for the step's bytes.
pub fn read_step<'a>(alloc: Global, line: &'a [u8]) -> Result<Step, NotRead<'a>>
    ensures { ReadsBy (λ step. step) (step_of line.now) result }
{
    let mut words = Pieces::new(line, b' ');
    let first = first_word(&mut words, STEPS)?;
    match first {
        Word::Arrive => last_bytes(alloc, words).map(Step::Arrive),
        _ => Ok(last(plain_step(first, &mut words)?, words)?),
    }
}

/// A step that carries no bytes.
#[tactic(auto, using(crate::proofs::FirstWords::other_step))]
fn plain_step<'a>(first: Word, words: &mut Pieces<'a>) -> Result<Step, Wrong<'a>>
    requires { first ≢ Word.Arrive }
    ensures { ReadsLine (step_by first words.old) result words.new }
{
    match first {
        Word::Fin => Ok(Step::Fin),
        Word::Room => Ok(Step::Room),
        Word::Read => count(words).map(Step::Read),
        Word::End => Ok(Step::End),
        Word::Wrote => Ok(Step::Wrote(count(words)?, is_full(words)?)),
        Word::Shut => Ok(Step::Shut),
        _ => Err(Wrong::unknown(first.text().as_bytes(), STEPS)),
    }
}
