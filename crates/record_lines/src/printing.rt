// How a record prints itself.
ghost use Rattle.std.specs.Prelude.{Some};
ghost use Rattle.record_lines.specs.Texts.{record_text, act_text, polling_text, made_text, answer_text, end_text};

use crate::act::{Act, Answer, Made, Polling, Record};
use std::fmt::{self, Display};
use token::{Name, Token};

/// The most bytes of a record's line, without its line feed. An opening whose registering was refused has them, with
/// the greatest numbers.
pub const MAX_RECORD: usize = 119;

impl Display for Record {
    ghost output = { λ r. Some (record_text r) };

    fn fmt<W: fmt::Write>(&self, f: &mut fmt::Formatter<W>) -> fmt::Result {
        let (before, after, act) = (self.before, self.after, self.act);
        write!(f, "{before} {after} {act}")
    }
}

impl Display for Act {
    ghost output = { λ act. Some (act_text act) };

    fn fmt<W: fmt::Write>(&self, f: &mut fmt::Formatter<W>) -> fmt::Result {
        match *self {
            Act::Poller(poller, did) => write!(f, "p{poller} {did}"),
            Act::Second(second) => write!(f, "second {second}"),
            Act::Begin(slot) => write!(f, "{slot} begin"),
            Act::End(slot) => write!(f, "{slot} end"),
            Act::Wire(token, made) => {
                let end = EndText(token);
                write!(f, "{end} {made}")
            }
            Act::Ended => f.write_str("end"),
            Act::Full => f.write_str("full"),
        }
    }
}

impl Display for Polling {
    ghost output = { λ did. Some (polling_text did) };

    fn fmt<W: fmt::Write>(&self, f: &mut fmt::Formatter<W>) -> fmt::Result {
        match *self {
            Polling::Gave(count) => write!(f, "poll {count}"),
            Polling::Interrupted => f.write_str("poll interrupted"),
            Polling::Failed => f.write_str("poll failed"),
            Polling::Time(micros) => write!(f, "time {micros}"),
            Polling::Reported(Name::Listener) => f.write_str("report listener"),
            Polling::Reported(Name::Waker) => f.write_str("report waker"),
            Polling::Reported(Name::End(token)) => {
                let end = EndText(token);
                write!(f, "report {end}")
            }
            Polling::Accept(accepted) => {
                let name = accepted.name();
                write!(f, "accept {name}")
            }
            Polling::Open(slot, generation, opening) => {
                let name = opening.name();
                write!(f, "open {slot}.{generation} {name}")
            }
        }
    }
}

impl Display for Made {
    ghost output = { λ made. Some (made_text made) };

    fn fmt<W: fmt::Write>(&self, f: &mut fmt::Formatter<W>) -> fmt::Result {
        match *self {
            Made::Read(most, answer) => write!(f, "read {most} {answer}"),
            Made::Write(length, answer) => write!(f, "write {length} {answer}"),
            Made::Join(answer) => write!(f, "join {answer}"),
            Made::Shut(answer) => write!(f, "shut {answer}"),
            Made::Settle => f.write_str("settle"),
            Made::Drop => f.write_str("drop"),
        }
    }
}

impl Display for Answer {
    ghost output = { λ answer. Some (answer_text answer) };

    fn fmt<W: fmt::Write>(&self, f: &mut fmt::Formatter<W>) -> fmt::Result {
        match *self {
            Answer::Moved(count) => write!(f, "{count}"),
            Answer::End => f.write_str("end"),
            Answer::Joined => f.write_str("joined"),
            Answer::Shut => f.write_str("shut"),
            Answer::Blocked => f.write_str("blocked"),
            Answer::Interrupted => f.write_str("interrupted"),
            Answer::Failed(kind) => {
                let name = kind.name();
                write!(f, "failed {name}")
            }
        }
    }
}

/// Prints an end as `S.G.SIDE`.
#[derive(Clone, Copy)]
struct EndText(Token);

impl Display for EndText {
    ghost output = { λ text. Some (end_text text.0) };

    fn fmt<W: fmt::Write>(&self, f: &mut fmt::Formatter<W>) -> fmt::Result {
        let (slot, generation, side) = (self.0.slot(), self.0.generation(), self.0.side().name());
        write!(f, "{slot}.{generation}.{side}")
    }
}
