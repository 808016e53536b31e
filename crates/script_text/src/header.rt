// Reads the header: the first line of a script that is not skipped.
ghost use Rattle.std.specs.Prelude.{◌≡◌, ◌≤◌, ◌<◌, [], unwrap_or, IfSome, IfOk, option_and_then};
ghost use Rattle.token.specs.Names.{last_generation};
ghost use Rattle.world.specs.{Leads.for_all, States.IsWithinLimits};
ghost use Rattle.script_text.specs.{Texts.{first_as, ReadsDefined, Takes, hex_bytes}, Headers.{size_of, generation_before, ring_of, idle_of, lead_table, short_enough, optional_word, with_extras, limits_of, header_of, IsRing, SizesFit}};

use crate::readers::{
    MAX_BUDGET, MAX_BYTES, MAX_IDLE, MAX_SLOTS, MAX_WORKERS, Wrong, decode, end_or, last, said,
    value_after,
};
use flow::Flow;
use input::{Pieces, is};
use token::MAX_GENERATION;
use world::{Lead, Limits};

/// What a script covers, and its sizes.
#[derive(Clone, Copy)]
pub enum Header {
    /// One direction, with a ring of at most this many bytes.
    Flow(usize),
    /// A world with these sizes.
    World(Limits),
}

/// The header that a line stands for, or the first word from the left that is wrong.
pub fn read_header(line: &[u8]) -> Result<Header, Wrong<'_>>
    ensures value { ReadsDefined (header_of line.now) result }
    ensures range { IfOk result SizesFit }
{
    let wanted = "a script begins with flow or world";
    let mut words = Pieces::new(line, b' ');
    let Some(name) = words.next() else {
        return Err(Wrong::missing(wanted));
    };
    if is(name, "flow") {
        let ring = ring(&mut words)?;
        Ok(Header::Flow(last(ring, words)?))
    } else if is(name, "world") {
        match limits(words) {
            Ok(limits) => Ok(Header::World(limits)),
            Err(wrong) => Err(wrong),
        }
    } else {
        Err(Wrong::unknown(name, wanted))
    }
}

/// Reads the sizes of a world, `slots=S workers=W ring=R budget=B`, and what may come after them.
fn limits(mut words: Pieces<'_>) -> Result<Limits, Wrong<'_>>
    ensures value { ReadsDefined (limits_of words.entry) result }
    ensures range { IfOk result IsWithinLimits }
{
    let slots = size(
        &mut words,
        b"slots=",
        MAX_SLOTS,
        "slots=1 to slots=64 is wanted",
    )?;
    let workers = size(
        &mut words,
        b"workers=",
        MAX_WORKERS,
        "workers=1 to workers=16 is wanted",
    )?;
    let ring = ring(&mut words)?;
    let budget = size(
        &mut words,
        b"budget=",
        MAX_BUDGET,
        "budget=1 to budget=1024 is wanted",
    )?;
    let sizes = Limits {
        slots,
        workers,
        ring,
        budget,
        generation: 0,
        idle: 0,
        lead: Lead::NONE,
    };
    with_extras(sizes, words)
}

/// Reads `gen=G`, `idle=L` and `lead=HEX`, in this order. Each may be left out.
fn with_extras(sizes: Limits, mut words: Pieces<'_>) -> Result<Limits, Wrong<'_>>
    requires { IsWithinLimits sizes }
    ensures value { ReadsDefined (with_extras sizes words.entry) result }
    ensures range { IfOk result IsWithinLimits }
{
    let generation = generation(&mut words);
    let idle = idle(&mut words);
    let lead = lead(&mut words);
    end_or(words, behind(generation, idle, lead.is_some()))?;
    Ok(Limits {
        generation: generation.unwrap_or(0),
        idle: idle.unwrap_or(0),
        lead: lead.unwrap_or(Lead::NONE),
        ..sizes
    })
}

/// What is expected after these parts.
fn behind(generation: Option<u64>, idle: Option<u64>, has_lead: bool) -> &'static str {
    if has_lead {
        "the line should end before this word"
    } else if idle.is_some() {
        "lead= and 1 to 107 bytes as pairs of lower-case hexadecimal digits, or the end of the line, is wanted"
    } else if generation.is_some() {
        "idle=1 to idle=86400, lead= and 1 to 107 bytes as pairs of lower-case hexadecimal digits, \
         or the end of the line, is wanted"
    } else {
        "gen=0 to gen=140737488355326, idle=1 to idle=86400, lead= and 1 to 107 bytes as pairs of lower-case \
         hexadecimal digits, or the end of the line, is wanted"
    }
}

/// Takes the next word if it is `gen=G`, and returns G. Otherwise returns None, and the word stays.
fn generation(words: &mut Pieces<'_>) -> Option<u64>
    ensures value { optional_word generation_before 0 words.old ≡ record { value = unwrap_or result 0; words = words.new } }
    ensures range { IfSome result (λ generation. generation < last_generation) }
{
    match value_after(b"gen=", words.peek()?) {
        Some(generation) if generation < MAX_GENERATION as usize => {
            words.next();
            Some(generation as u64)
        }
        _ => None,
    }
}

/// As `generation`, for `idle=L`, in seconds.
fn idle(words: &mut Pieces<'_>) -> Option<u64>
    ensures { optional_word idle_of 0 words.old ≡ record { value = unwrap_or result 0; words = words.new } }
{
    let idle = size_said(b"idle=", MAX_IDLE, words.peek()?)?;
    words.next();
    Some(idle as u64)
}

/// As `generation`, for `lead=HEX`.
fn lead(words: &mut Pieces<'_>) -> Option<Lead>
    ensures { optional_word lead_table (for_all []) words.old ≡ record { value = unwrap_or result (for_all []); words = words.new } }
{
    let lead = short_bytes(words.peek()?.strip_prefix(b"lead=")?)?;
    words.next();
    Some(lead)
}

fn ring<'a>(words: &mut Pieces<'a>) -> Result<usize, Wrong<'a>>
    ensures value { Takes (first_as ring_of words.old) result words.new }
    ensures range { IfOk result IsRing }
{
    size(words, b"ring=", Flow::MAX, "ring=1 to ring=65536 is wanted")
}

/// Takes `KEY=N`, with N from 1 to `most`. The key ends with its `=`.
fn size<'a>(
    words: &mut Pieces<'a>,
    key: &[u8],
    most: usize,
    wanted: &'static str,
) -> Result<usize, Wrong<'a>>
    ensures value { Takes (first_as (size_of key.now most) words.old) result words.new }
    ensures range { IfOk result (λ size. (1 ≤ size) × (size ≤ most)) }
{
    match words.next() {
        Some(word) => said(size_said(key, most, word), word, wanted),
        None => Err(Wrong::missing(wanted)),
    }
}

fn size_said(key: &[u8], most: usize, word: &[u8]) -> Option<usize>
    ensures value { result ≡ size_of key.now most word.now }
    ensures range { IfSome result (λ size. (1 ≤ size) × (size ≤ most)) }
{
    let size = value_after(key, word)?;
    if 1 <= size && size <= most {
        Some(size)
    } else {
        None
    }
}

/// The lead whose bytes a text stands for in lower-case hexadecimal.
fn short_bytes(text: &[u8]) -> Option<Lead>
    ensures { result ≡ option_and_then short_enough (hex_bytes text.now) }
{
    let mut room = [0; MAX_BYTES];
    let length = decode(text, &mut room)?;
    Lead::new(&room[..length])
}
