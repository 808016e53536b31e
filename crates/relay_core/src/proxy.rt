//! The line of the PROXY protocol that a target may be sent first.
ghost use Rattle.std.specs.Prelude.{◌≡◌, ◌≤◌, ◌+◌, ◌++◌, codes, length, decimal, IfOk, OnOk};
ghost use Rattle.relay_core.specs.Proxy.{dotted, proxy_line};

use itoa::Buffer;
use std::alloc::{AllocError, Global};

/// The longest line, in bytes.
const LONGEST: usize = 56;

/// The line of the PROXY protocol, version 1, for TCP over IPv4. It gives the target the client's address (`source`)
/// and the address that the client reached (`dest`). Allocates once, and fails only for want of memory.
pub fn proxy_line(
    alloc: Global,
    source: [u8; 4],
    source_port: u16,
    dest: [u8; 4],
    dest_port: u16,
) -> Result<Vec<u8>, AllocError>
    ensures text { IfOk result (λ line. line.items ≡ proxy_line source source_port dest dest_port) }
    ensures least { IfOk result (λ line. 32 ≤ length line.items) }
    ensures most { IfOk result (λ line. length line.items ≤ 56) }
{
    // The longest line fits, so that no append below has to allocate.
    let mut line = Vec::with_capacity(alloc, LONGEST)?;
    line.extend_from_slice(b"PROXY TCP4 ")?;
    append_address(&mut line, source)?;
    append_address(&mut line, dest)?;
    append_port(&mut line, source_port, b" ")?;
    append_port(&mut line, dest_port, b"\r\n")?;
    Ok(line)
}

fn append_address(line: &mut Vec<u8>, address: [u8; 4]) -> Result<(), AllocError>
    ensures text { OnOk result (line.new.items ≡ line.old.items ++ (dotted address ++ codes " ")) }
    ensures least { OnOk result (length line.old.items + 8 ≤ length line.new.items) }
    ensures most { OnOk result (length line.new.items ≤ length line.old.items + 16) }
{
    append_number(line, address[0], b".")?;
    append_number(line, address[1], b".")?;
    append_number(line, address[2], b".")?;
    append_number(line, address[3], b" ")
}

#[tactic(auto, using(std::proofs::lemmas::Fmt::decimal_nonempty))]
fn append_number(line: &mut Vec<u8>, n: u8, after: &[u8; 1]) -> Result<(), AllocError>
    ensures text { OnOk result (line.new.items ≡ line.old.items ++ (decimal n ++ after.now)) }
    ensures least { OnOk result (length line.old.items + 2 ≤ length line.new.items) }
    ensures most { OnOk result (length line.new.items ≤ length line.old.items + 4) }
{
    line.extend_from_slice(Buffer::new().format(n).as_bytes())?;
    line.extend_from_slice(after)
}

#[tactic(auto, using(std::proofs::lemmas::Fmt::decimal_nonempty))]
fn append_port(line: &mut Vec<u8>, port: u16, after: &[u8]) -> Result<(), AllocError>
    ensures text { OnOk result (line.new.items ≡ line.old.items ++ (decimal port ++ after.now)) }
    ensures least { OnOk result (length line.old.items + 1 + length after.now ≤ length line.new.items) }
    ensures most { OnOk result (length line.new.items ≤ length line.old.items + 5 + length after.now) }
{
    line.extend_from_slice(Buffer::new().format(port).as_bytes())?;
    line.extend_from_slice(after)
}
