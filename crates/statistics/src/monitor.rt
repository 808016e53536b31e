//! The sums as a monitor reads them, in Prometheus' text exposition format
//! (prometheus.io/docs/instrumenting/exposition_formats).
use crate::counts::Count;
use crate::totals::{Figure, Totals};
use std::fmt::{self, Display};
use token::{Kind, Side};

/// The metrics that have one sample, in order: what follows `relayd_` in the name, what it is, and its number.
static SINGLES: [(&str, &str, Figure); 12] = [
    (
        "connections_open",
        "Connections that are open.",
        Figure::Open,
    ),
    (
        "connections_open_max",
        "The most connections that were open at once.",
        Figure::MostOpen,
    ),
    (
        "slots",
        "How many connections can be open at once.",
        Figure::Slots,
    ),
    (
        "slots_full_seconds_total",
        "Seconds with all slots taken.",
        Figure::FullSeconds,
    ),
    (
        "accept_waiting_seconds_total",
        "Seconds in which clients waited for want of descriptors or memory.",
        Figure::WaitingSeconds,
    ),
    (
        "connections_opened_total",
        "Connections that were opened.",
        Figure::Opened,
    ),
    (
        "connections_done_total",
        "Connections that ended after both ends of input were passed on.",
        Figure::Of(Count::Done),
    ),
    (
        "connections_idle_total",
        "Connections that were ended by the idle limit.",
        Figure::Of(Count::Idle),
    ),
    (
        "clients_dropped_total",
        "Clients that were accepted, and closed unopened.",
        Figure::Of(Count::Dropped),
    ),
    (
        "up_bytes_total",
        "Bytes that were written to targets.",
        Figure::Of(Count::Up),
    ),
    (
        "down_bytes_total",
        "Bytes that were written to clients.",
        Figure::Of(Count::Down),
    ),
    (
        "records_lost_total",
        "Records that the recording lacks.",
        Figure::LostRecords,
    ),
];

/// The metric that has a sample for each side and each kind.
const FAILED: &str = "connections_failed_total";

const FAILED_HELP: &str = "Connections that failed by a call on a socket, by its side and how.";

const BEGAN: &str = "start_time_seconds";

const BUILD: &str = "build_info";

static SIDES: [Side; 2] = [Side::Client, Side::Target];

static KINDS: [Kind; 8] = [
    Kind::Reset,
    Kind::Pipe,
    Kind::Aborted,
    Kind::Refused,
    Kind::NotConnected,
    Kind::TimedOut,
    Kind::Zero,
    Kind::Other,
];

/// The sums as a monitor reads them, and which relay has them. A reader of the format finds each metric once, with what
/// it is and its type, and a line for each number.
#[derive(Clone, Copy)]
pub struct Monitored<'a> {
    pub totals: &'a Totals,
    /// When the relay began, in seconds since 1970.
    pub began: u64,
    pub version: &'a str,
}

impl Display for Monitored<'_> {
    fn fmt<W: fmt::Write>(&self, f: &mut fmt::Formatter<W>) -> fmt::Result {
        for (name, help, figure) in &SINGLES {
            write_header(f, name, help)?;
            let number = self.totals.number(*figure);
            write!(f, "relayd_{name} {number}\n")?;
        }
        write_relay(f, self.began, self.version)?;
        write_header(f, FAILED, FAILED_HELP)?;
        for side in &SIDES {
            write_failures(f, self.totals, *side)?;
        }
        Ok(())
    }
}

/// Writes the two lines before a metric's samples. A metric that only rises ends in `_total`, and the others may fall.
fn write_header<W: fmt::Write>(f: &mut fmt::Formatter<W>, name: &str, help: &str) -> fmt::Result {
    let sort = if name.ends_with("_total") {
        "counter"
    } else {
        "gauge"
    };
    write!(
        f,
        "# HELP relayd_{name} {help}\n# TYPE relayd_{name} {sort}\n"
    )
}

/// Writes which relay it is: since when it runs, and its version.
fn write_relay<W: fmt::Write>(f: &mut fmt::Formatter<W>, began: u64, version: &str) -> fmt::Result {
    write_header(f, BEGAN, "When the relay began, in seconds since 1970.")?;
    write!(f, "relayd_{BEGAN} {began}\n")?;
    write_header(f, BUILD, "The version of the relay.")?;
    write!(f, "relayd_{BUILD}{{version=\"{version}\"}} 1\n")
}

fn write_failures<W: fmt::Write>(
    f: &mut fmt::Formatter<W>,
    totals: &Totals,
    side: Side,
) -> fmt::Result {
    for kind in &KINDS {
        let number = totals.number(Figure::Of(Count::Broken(side, *kind)));
        let (side, kind) = (side.name(), kind.name());
        write!(
            f,
            "relayd_{FAILED}{{side=\"{side}\",kind=\"{kind}\"}} {number}\n"
        )?;
    }
    Ok(())
}
