//! When a socket sends at once, and when it waits for more (TCP_NODELAY).
ghost use Rattle.std.specs.Prelude.{◌≡◌, ◌↔◌, true, false, IsTrue};
ghost use Rattle.sockets.specs.Sockets.{plain_sending, prompt, IsOffered};

use crate::limits::BULK;
use relay_core::MAX_READ;
use std::marker::Model;

/// When a socket sends at once (TCP_NODELAY of tcp(7)): from its first quiet turn on, except from the start of bulk to
/// the next quiet turn. So a request in two writes is not held back by a peer that is slow to acknowledge the first. In
/// bulk, to send at once would cost up to 30 % more processor time. The switch back also sends a short tail that waits.
#[derive(Clone, Copy)]
pub(crate) struct Delay {
    at_once: bool,
    full_offers: u8,
}

impl Model for Delay {
    ghost use Rattle.std.specs.Prelude.{◌≤◌};
    ghost use Rattle.sockets.specs.Sockets.{Sending};

    ghost Value = { Sending };

    ghost view = { λ d. record { at_once = d.at_once; full_offers = d.full_offers } };

    ghost invariant = { λ d. d.full_offers ≤ 4 };

    ghost inverse = { λ s. record { at_once = s.at_once; full_offers = s.full_offers } };
}

impl Delay {
    /// A socket as the system creates it.
    pub(crate) fn new() -> Delay
        ensures { result ≡ plain_sending }
    {
        Delay {
            at_once: false,
            full_offers: 0,
        }
    }

    /// This many bytes were offered to the socket. Returns whether the socket must begin to wait for more now.
    pub(crate) fn offer(&mut self, bytes: usize) -> bool
        ensures offered { IsOffered bytes self.old self.new }
        ensures switched { IsTrue result ↔ ((self.old.at_once ≡ true) × (self.new.at_once ≡ false)) }
    {
        if bytes < MAX_READ {
            self.full_offers = 0;
            return false;
        }
        self.full_offers = BULK.min(self.full_offers + 1);
        let wait = self.at_once && self.full_offers == BULK;
        if wait {
            self.at_once = false;
        }
        wait
    }

    /// The connection is quiet. Returns whether the socket must begin to send at once now.
    pub(crate) fn settle(&mut self) -> bool
        ensures settled { self.new ≡ prompt }
        ensures switched { IsTrue result ↔ (self.old.at_once ≡ false) }
    {
        let send = !self.at_once;
        self.at_once = true;
        self.full_offers = 0;
        send
    }
}
