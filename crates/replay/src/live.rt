//! What is written of a connection that is open, and of the times of any.

use crate::entry::Entry;
use record_reader::{Half, Times, Waits};
use world_text::{Page, Piece};

/// Puts an open connection, as its line of `relayd replay --ends` begins.
pub(crate) fn put_live(page: &mut Page, entry: &Entry) {
    let account = &entry.account;
    let is_connected = entry.is_connected();
    let connected = if is_connected {
        " connected=yes up="
    } else {
        " connected=no up="
    };
    let waits = waits_text(account.waits(entry.is_due(), is_connected));
    page.put(&[
        Piece::Named("live s=", entry.slot as u64),
        Piece::Named(" g=", entry.generation),
        Piece::Named(connected, account.target.written),
        Piece::Named(" down=", account.client.written),
        Piece::Named(" ring=", account.ring_up()),
        Piece::Named(",", account.ring_down()),
        Piece::Text(" ended="),
        Piece::Text(end_text(&account.client, &account.target)),
        Piece::Text(","),
        Piece::Text(end_text(&account.target, &account.client)),
        Piece::Text(" waits="),
        Piece::Text(waits),
    ]);
}

fn end_text(own: &Half, other: &Half) -> &'static str {
    if other.shut {
        "passed"
    } else if own.ended {
        "read"
    } else {
        "-"
    }
}

fn waits_text(waits: Waits) -> &'static str {
    match waits {
        Waits::Answers => "target-answers",
        Waits::Takes(true, true) => "client-takes,target-takes",
        Waits::Takes(true, false) => "client-takes",
        Waits::Takes(false, true) => "target-takes",
        Waits::Sends(true, true) => "client-sends,target-sends",
        Waits::Sends(true, false) => "client-sends",
        Waits::Sends(false, true) => "target-sends",
        _ => "nobody",
    }
}

/// Puts when things happened to a connection.
pub(crate) fn put_times(page: &mut Page, times: &Times) {
    page.put(&[
        Piece::Named(" opened_us=", times.opened),
        Piece::Text(" connect_us="),
        span(times.opened, times.answered),
        Piece::Text(" first_us="),
        span(times.opened, times.client),
        Piece::Text(","),
        span(times.opened, times.target),
        Piece::Named(" silence_us=", times.silence),
        Piece::Named(" moved_us=", times.moved),
    ]);
}

/// The time from the first to the second, if that came.
fn span(from: u64, to: Option<u64>) -> Piece<'static> {
    match to {
        Some(at) => Piece::Number(at.saturating_sub(from)),
        None => Piece::Text("-"),
    }
}
