//! One step of a turn: the next call on its wire, and the answer to the pair.
ghost use Rattle.std.specs.{Prelude.{◌≡◌, Some}, Io.{WritesAtMost, KnownBytes.{Keeps, WriteAppends}}, IoError.error_kind};
ghost use Rattle.relay_core.specs.{Order.{next_call, offer}, Replies.reply_of, Laws.IsPossible};
ghost use Rattle.engine.specs.{Classes.kind_of_error, Wires.{CountsError, CountsWrite, write_gave}, Steps.{IsStep, IsError}};
ghost use Rattle.relay_core.specs.declared.call.Call.TheVariants as call;
ghost use Rattle.engine.specs.Wires as ask;

use crate::class::kind_of;
use crate::wire::Wire;
use relay_core::{Answer, Call, Kind, MAX_READ, Pair, Side};
use std::io;

/// Makes the call that comes next, at the second `now`, and gives the pair the answer.
#[inline(always)]
pub(crate) fn step<W: Wire>(
    pair: &mut Pair,
    call: Call,
    now: u64,
    wire: &mut W,
    buffer: &mut [u8; MAX_READ],
)
    requires next { next_call pair.old ≡ Some call }
    requires possible { IsPossible pair.old call }
    ensures { IsStep W.told W.does call now pair.old pair.new wire.old wire.new }
{
    match call {
        Call::Write(side) => write(pair, side, now, wire),
        Call::Join(side) => join(pair, side, now, wire),
        Call::Shut(side) => shut(pair, side, now, wire),
        Call::Read(side, most) => read(pair, side, most, now, wire, buffer),
    }
}

#[inline(always)]
fn read<W: Wire>(
    pair: &mut Pair,
    side: Side,
    most: usize,
    now: u64,
    wire: &mut W,
    buffer: &mut [u8; MAX_READ],
)
    requires next { next_call pair.old ≡ Some (call.Read side most) }
    requires possible { IsPossible pair.old (call.Read side most) }
    ensures { IsStep W.told W.does (call.Read side most) now pair.old pair.new wire.old wire.new }
{
    let faults = wire.faults();
    let blocks = wire.blocks();
    match wire.read(&mut buffer[..most]) {
        Ok(0) => pair.answer(Call::Read(side, most), Answer::End, now),
        Ok(count) => pair.answer(Call::Read(side, most), Answer::Bytes(&buffer[..count]), now),
        Err(error) => pair.answer(
            Call::Read(side, most),
            error_answer(wire, faults, blocks, &error),
            now,
        ),
    }
}

#[inline(always)]
fn write<W: Wire>(pair: &mut Pair, side: Side, now: u64, wire: &mut W)
    requires next { next_call pair.old ≡ Some (call.Write side) }
    requires possible { IsPossible pair.old (call.Write side) }
    ensures { IsStep W.told W.does (call.Write side) now pair.old pair.new wire.old wire.new }
{
    let faults = wire.faults();
    let blocks = wire.blocks();
    match offer_all(pair, side, wire) {
        Ok(0) => pair.answer(Call::Write(side), Answer::Failed(Kind::Zero), now),
        Ok(count) => pair.answer(Call::Write(side), Answer::Wrote(count), now),
        Err(error) => pair.answer(
            Call::Write(side),
            error_answer(wire, faults, blocks, &error),
            now,
        ),
    }
}

#[inline(always)]
fn offer_all<W: Wire>(pair: &mut Pair, side: Side, wire: &mut W) -> io::Result<usize>
    ensures same { pair.new ≡ pair.old }
    ensures most { WritesAtMost result (offer pair.old side) }
    ensures bytes { WriteAppends (W.told wire.old).written (W.told wire.new).written result (offer pair.old side) }
    ensures kept { Keeps (W.told wire.old).remaining (W.told wire.new).remaining }
    ensures counts { CountsWrite result (offer pair.old side) (W.told wire.old) (W.told wire.new) }
    ensures did { W.does (ask.Write (offer pair.old side)) (write_gave result) wire.old wire.new }
{
    wire.write(pair.offer(side))
}

fn join<W: Wire>(pair: &mut Pair, side: Side, now: u64, wire: &mut W)
    requires next { next_call pair.old ≡ Some (call.Join side) }
    ensures { IsStep W.told W.does (call.Join side) now pair.old pair.new wire.old wire.new }
{
    let faults = wire.faults();
    let blocks = wire.blocks();
    match wire.joined() {
        Ok(()) => pair.answer(Call::Join(side), Answer::Joined, now),
        Err(error) => pair.answer(
            Call::Join(side),
            error_answer(wire, faults, blocks, &error),
            now,
        ),
    }
}

fn shut<W: Wire>(pair: &mut Pair, side: Side, now: u64, wire: &mut W)
    requires next { next_call pair.old ≡ Some (call.Shut side) }
    ensures { IsStep W.told W.does (call.Shut side) now pair.old pair.new wire.old wire.new }
{
    let faults = wire.faults();
    match wire.shut_write() {
        Ok(()) => pair.answer(Call::Shut(side), Answer::Shut, now),
        Err(error) if wire.faults() != faults => {
            pair.answer(Call::Shut(side), Answer::Failed(kind_of(error.kind())), now)
        }
        Err(_) => pair.answer(Call::Shut(side), Answer::Interrupted, now),
    }
}

/// What an error means, by what the wire has counted since the call began.
#[inline(always)]
fn error_answer<W: Wire>(wire: &W, faults: u64, blocks: u64, error: &io::Error) -> Answer<'static>
    requires { CountsError faults (W.told wire.now).faults blocks (W.told wire.now).blocks }
    ensures { IsError (kind_of_error (error_kind error.now)) (reply_of result) faults (W.told wire.now).faults blocks
        (W.told wire.now).blocks }
{
    if wire.faults() != faults {
        Answer::Failed(kind_of(error.kind()))
    } else if wire.blocks() != blocks {
        Answer::Blocked
    } else {
        Answer::Interrupted
    }
}
