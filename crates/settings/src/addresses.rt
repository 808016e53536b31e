ghost use Rattle.std.specs.{Prelude.{◌≡◌, ◌≢◌, ℕ, ◌<◌, ◌^◌, Some, IfSome, IfNone, IsTrue, ◌↔◌}, Fmt.decimal};
ghost use Rattle.settings.specs.Addresses.{SocketAddress, IsAddress, IsPlain, address_text};

use std::fmt;
use std::net::Ipv4Addr;

/// The four numbers of an IPv4 address, from left to right, and a port.
pub type Address = ([u8; 4], u16);

/// The address that a text stands for: four numbers with `.` between them, `:` and the port, all decimal without
/// leading zeros.
pub(crate) fn address_of(text: &str) -> Option<Address>
    ensures some { IfSome result (λ a. IsAddress a × (text.now ≡ address_text a)) }
    ensures only { IfSome result (λ a. (b : SocketAddress) → IsAddress b → text.now ≡ address_text b → b ≡ a) }
    ensures none { IfNone result ((a : SocketAddress) → IsAddress a → text.now ≢ address_text a) }
{
    let (host, port) = text.split_once(':')?;
    let host = host.parse::<Ipv4Addr>().ok()?;
    let port = decimal_number(port)?;
    Some((host.octets(), port))
}

/// The number below 65,536 that a text stands for in decimal, without leading zeros.
pub(crate) fn decimal_number(text: &str) -> Option<u16>
    ensures some { IfSome result (λ n. text.now ≡ decimal n) }
    ensures none { IfNone result ((n : ℕ) → n < 2 ^ 16 → text.now ≢ decimal n) }
{
    if !is_plain(text.as_bytes()) {
        return None;
    }
    text.parse::<u16>().ok()
}

/// Returns false if a text begins with a plus sign or a leading zero, which `parse` would accept.
fn is_plain(text: &[u8]) -> bool
    ensures { IsTrue result ↔ IsPlain text.now }
{
    !matches!(text, [b'+', ..] | [b'0', _, ..])
}

/// An address that prints as the text that `address_of` reads.
#[derive(Clone, Copy)]
pub(crate) struct AddressText(pub(crate) Address);

impl fmt::Display for AddressText {
    ghost output = { λ shown. Some (address_text shown.0) };

    fn fmt<W: fmt::Write>(&self, f: &mut fmt::Formatter<W>) -> fmt::Result {
        let (octets, port) = self.0;
        let host = Ipv4Addr::from(octets);
        write!(f, "{host}:{port}")
    }
}
