// The bytes that a target is sent before the client's.
ghost use Rattle.std.specs.Prelude.{◌≡◌, ◌<◌, ◌≤◌, length, Some, None};
ghost use Rattle.world.specs.Leads.{for_all, padded};

use flow::Flow;
use std::marker::Model;

/// The most bytes that a lead has.
const MAX: usize = Flow::MAX_LEAD;

/// The bytes that each target is sent before its client's own: 0 to 107, the same for all connections. Contracts see
/// `LeadTable`, since the laws are about runs in which each connection may have its own, too.
#[derive(Clone, Copy)]
pub struct Lead {
    bytes: [u8; MAX],
    len: usize,
}

impl Model for Lead {
    ghost use Rattle.std.specs.Prelude.{length, take};
    ghost use Rattle.world.specs.Leads.{IsPadded, LeadTable, for_all, padded};

    ghost Value = { LeadTable };

    ghost view = { λ l. for_all (take l.len l.bytes) };

    ghost invariant = { λ l. IsPadded l.len l.bytes };

    ghost inverse = { λ l. record { bytes = padded l.others; len = length l.others } };

    ghost use Rattle.world.specs.LeadLaws.{given_back};

    ghost inverse_ok = { λ l h. given_back l.len l.bytes h };
}

impl Lead {
    /// No bytes.
    pub const NONE: Lead = Lead {
        bytes: [0; MAX],
        len: 0,
    };

    /// The lead that has these bytes, or `None` if there are more than 107.
    pub fn new(bytes: &[u8]) -> Option<Lead>
        ensures short { length bytes.now ≤ 107 → result ≡ Some (for_all bytes.now) }
        ensures long { 107 < length bytes.now → result ≡ None }
    {
        if bytes.len() > MAX {
            return None;
        }
        Some(Lead {
            bytes: padded(bytes),
            len: bytes.len(),
        })
    }

    /// Its bytes.
    pub fn as_slice(&self) -> &[u8]
        ensures bytes { self.now ≡ for_all result.now }
        ensures short { length result.now ≤ 107 }
    {
        &self.bytes[..self.len]
    }
}

#[tactic(auto, using(crate::specs::LeadLaws::written_over))]
fn padded(bytes: &[u8]) -> [u8; MAX]
    requires { length bytes.now ≤ 107 }
    ensures { result ≡ padded bytes.now }
{
    let mut padded = [0; MAX];
    padded[..bytes.len()].copy_from_slice(bytes);
    padded
}
