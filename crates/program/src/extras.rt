//! The options of a relay that are no settings.
ghost use Rattle.std.specs.Prelude.{◌≡◌, ◌⊎◌, ◌≤◌, IfOk, IfErr, IfSome};
ghost use Rattle.program.specs.{Starting.{least, most_of_option, most_of_part}, Faults.status_of};

use crate::faults::ProgramFault;
use crate::streams::log_error;
use commands::{TypedExtras, whole_number};
use log::Log;
use settings::{TypedWord, Unit, has_leading_zero};
use sockets::Patience;
use std::fmt;

/// What a relay does beside what its settings say.
#[derive(Clone, Copy)]
pub struct Extras {
    /// The seconds between two lines of statistics, 1 to 86,400. None: there is no line.
    pub stats: Option<u32>,
    /// The relay opens no more connections once standard input has ended.
    pub until_eof: bool,
    /// How long the relay waits for a peer that does not answer: up to 3,600 seconds to connect, and 32,767 of silence.
    pub patience: Patience,
    /// The log has each client at level info, as it comes and as it goes.
    pub log_clients: bool,
    /// The most bytes of a recording, 65,536 to 4,294,967,295, which is then kept in two parts. None: as many as come.
    pub record_size: Option<u32>,
}

impl Extras {
    /// The most bytes of a file that is recorded into.
    pub fn most_of_part(&self) -> u64
        ensures { result ≡ most_of_part self.now.record_size }
    {
        match self.record_size {
            Some(size) => u64::from(size) / 2,
            None => u64::MAX,
        }
    }
}

/// An option whose value is a number: of seconds, or of bytes.
#[derive(Clone, Copy)]
pub enum NumberOption {
    Stats,
    ConnectTimeout,
    Keepalive,
    RecordSize,
}

impl NumberOption {
    fn unit(self) -> Unit {
        match self {
            Self::RecordSize => Unit::Bytes,
            _ => Unit::Seconds,
        }
    }

    fn least(self) -> u32
        ensures { result ≡ least self }
    {
        match self {
            Self::RecordSize => 65_536,
            _ => 1,
        }
    }

    fn most(self) -> u32
        ensures { result ≡ most_of_option self }
    {
        match self {
            Self::Stats => 86_400,
            Self::ConnectTimeout => 3_600,
            Self::Keepalive => 32_767,
            Self::RecordSize => u32::MAX,
        }
    }
}

impl fmt::Display for NumberOption {
    fn fmt<W: fmt::Write>(&self, f: &mut fmt::Formatter<W>) -> fmt::Result {
        f.write_str(match self {
            Self::Stats => "stats",
            Self::ConnectTimeout => "connect-timeout",
            Self::Keepalive => "keepalive",
            Self::RecordSize => "record-size",
        })
    }
}

/// The options. Refuses, and logs the cause, if a value is no whole number, or one that is not in its option's range.
pub(crate) fn extras_of(log: &impl Log, typed: TypedExtras<'_>) -> Result<Extras, ProgramFault>
    ensures stats { IfOk result (λ extras. IfSome extras.stats (λ n. (1 ≤ n) × (n ≤ 86400))) }
    ensures connect { IfOk result (λ extras. IfSome extras.patience.connect (λ n. (1 ≤ n) × (n ≤ 3600))) }
    ensures keepalive { IfOk result (λ extras. IfSome extras.patience.keepalive (λ n. (1 ≤ n) × (n ≤ 32767))) }
    ensures size { IfOk result (λ extras. IfSome extras.record_size (λ n. (65536 ≤ n) × (n ≤ 4294967295))) }
    ensures refused { IfErr result (λ fault. status_of fault ≡ 2) }
{
    let stats = number_of(log, NumberOption::Stats, typed.stats)?;
    let connect = number_of(log, NumberOption::ConnectTimeout, typed.connect_timeout)?;
    let keepalive = number_of(log, NumberOption::Keepalive, typed.keepalive)?;
    let record_size = number_of(log, NumberOption::RecordSize, typed.record_size)?;
    Ok(Extras {
        stats,
        until_eof: typed.until_eof,
        patience: Patience { connect, keepalive },
        log_clients: typed.log_clients,
        record_size,
    })
}

fn number_of(
    log: &impl Log,
    option: NumberOption,
    typed: Option<&str>,
) -> Result<Option<u32>, ProgramFault>
    ensures range { IfOk result (λ number. IfSome number (λ n. (least option ≤ n) × (n ≤ most_of_option option))) }
    ensures refused { IfErr result (λ fault. (fault ≡ ProgramFault.Number option) ⊎ (fault ≡ ProgramFault.NoNumber option)) }
{
    let Some(text) = typed else {
        return Ok(None);
    };
    match whole_number(text) {
        Some(number) if number >= i64::from(option.least()) && number <= i64::from(option.most()) =>
            { Ok(Some(number as u32)) }
        number => {
            log_wrong(log, option, text);
            Err(match number {
                Some(_) => ProgramFault::Number(option),
                None => ProgramFault::NoNumber(option),
            })
        }
    }
}

fn log_wrong(log: &impl Log, option: NumberOption, text: &str) {
    let (word, least, most) = (TypedWord(text), option.least(), option.most());
    let name = format_args!("options: --{option} {word}");
    if has_leading_zero(text) {
        log_error(log, &name, &format_args!("{text} has a leading zero"));
    } else if matches!(text, "0" | "off" | "no" | "never") {
        log_error(log, &name, &"leave the option out");
    } else if let Some(bare) = option.unit().without(text, least, most) {
        log_error(log, &name, &bare);
    } else {
        let wanted = format_args!("a whole number from {least} to {most} is wanted");
        log_error(log, &name, &wanted);
    }
}
