//! The message about a connection that has ended, with its client and the system's cause.
ghost use Rattle.std.specs.Prelude.{◌≡◌, ◌-◌, Some};
ghost use Rattle.relay_log.specs.Messages.{gone_between, gone_counts, gone_text, yes_or_no};

use relay_core::Pair;
use std::fmt::{self, Display};
use std::io;

/// A connection that has ended: whose it was, how far it got, and what the system says of the cause.
///
/// It is logged just before the connection's `done` or `fail` as `gone s=3 g=1 from=192.0.2.7:50000 connected=yes
/// up=120 down=0 seconds=9 cause=Broken pipe (os error 32)`. Before a `drop` it has no `s=` and `g=`.
#[derive(Drop)]
pub struct Gone<'a, D, E> {
    /// Its slot and generation, if it was opened.
    pub opened: Option<(usize, u64)>,
    /// The client's address, as it prints.
    pub from: &'a D,
    /// Whether its target was ever connected, if that is known.
    pub connected: Option<bool>,
    /// Bytes sent to the target.
    pub up: u64,
    /// Bytes sent to the client.
    pub down: u64,
    /// How many seconds it was open.
    pub seconds: u64,
    /// The cause, as it prints.
    pub cause: &'a E,
}

impl<'a, D, E> Gone<'a, D, E> {
    /// The message for a connection that was opened in the second `opened` and has ended by `second`.
    pub fn ended(
        pair: &Pair,
        opened: u64,
        second: u64,
        from: &'a D,
        connected: Option<bool>,
        cause: &'a E,
    ) -> Gone<'a, D, E>
        ensures name { result.opened ≡ Some (pair.now.slot, pair.now.generation) }
        ensures connected { result.connected ≡ connected }
        ensures up { result.up ≡ pair.now.sent_up }
        ensures down { result.down ≡ pair.now.sent_down }
        ensures seconds { result.seconds ≡ second - opened }
    {
        let (up, down) = pair.counts();
        Gone {
            opened: Some((pair.slot(), pair.generation())),
            from,
            connected,
            up,
            down,
            seconds: second.saturating_sub(opened),
            cause,
        }
    }
}

impl<'a, D: Display, E: Display> Display for Gone<'a, D, E> {
    ghost output = { λ gone. gone_text gone.opened (D.output gone.from.now)
        (gone_between gone.connected gone.up gone.down gone.seconds) (E.output gone.cause.now) };

    fn fmt<W: fmt::Write>(&self, f: &mut fmt::Formatter<W>) -> fmt::Result {
        let (from, cause) = (self.from, self.cause);
        let between = Between {
            connected: yes_or_no(self.connected),
            up: self.up,
            down: self.down,
            seconds: self.seconds,
        };
        match self.opened {
            Some((slot, generation)) => {
                write!(
                    f,
                    "gone s={slot} g={generation} from={from}{between}{cause}"
                )
            }
            None => write!(f, "gone from={from}{between}{cause}"),
        }
    }
}

/// What stands between the client's address and the cause.
#[derive(Clone, Copy)]
struct Between {
    connected: &'static str,
    up: u64,
    down: u64,
    seconds: u64,
}

impl Display for Between {
    ghost output = { λ b. Some (gone_counts b.connected.now b.up b.down b.seconds) };

    fn fmt<W: fmt::Write>(&self, f: &mut fmt::Formatter<W>) -> fmt::Result {
        let (connected, up, down, seconds) = (self.connected, self.up, self.down, self.seconds);
        write!(
            f,
            " connected={connected} up={up} down={down} seconds={seconds} cause="
        )
    }
}

fn yes_or_no(is_so: Option<bool>) -> &'static str
    ensures { result.now ≡ yes_or_no is_so }
{
    match is_so {
        Some(true) => "yes",
        Some(false) => "no",
        None => "unknown",
    }
}

/// Prints a value, or `unknown` for None.
#[derive(Clone, Copy)]
pub struct Known<D>(pub Option<D>);

impl<D: Display> Display for Known<D> {
    fn fmt<W: fmt::Write>(&self, f: &mut fmt::Formatter<W>) -> fmt::Result {
        match &self.0 {
            Some(known) => write!(f, "{known}"),
            None => f.write_str("unknown"),
        }
    }
}

/// Why a connection ended. Prints what the system says of an error with this number (errno(3)), or else the word.
#[derive(Clone, Copy)]
pub struct Why {
    pub error: Option<i32>,
    pub word: &'static str,
}

impl Display for Why {
    fn fmt<W: fmt::Write>(&self, f: &mut fmt::Formatter<W>) -> fmt::Result {
        match self.error {
            Some(number) => {
                let error = io::Error::from_raw_os_error(number);
                write!(f, "{error}")
            }
            None => f.write_str(self.word),
        }
    }
}
