//! What the log has of a connection that has ended.

use log::Log;
use relay_core::{Fault, Verdict};
use relay_log::{Gone, Known, Why, logs_gone};
use shared::{Berth, Front, Settle};
use sizes::ClientsAt;
use token::Side;

/// Logs a connection that has ended by this second: whose it was, how far it got, and why. One that is done is logged
/// only if the log has all clients.
pub(crate) fn log_gone<F: Front, R: Log>(
    rt: &R,
    clients: ClientsAt,
    berth: &Berth<F::Client, F::Target>,
    second: u64,
) {
    if !logs_gone(rt, clients) {
        return;
    }
    let cause = match berth.pair.verdict() {
        Verdict::Failed(fault) => why(berth, fault),
        Verdict::Done if clients.has_done() => said("done"),
        Verdict::Done | Verdict::Live => return,
    };
    let from = Known(F::peer(&berth.client));
    let connected = connected(berth);
    let gone = Gone::ended(&berth.pair, berth.second, second, &from, connected, &cause);
    relay_log::log_gone(rt, clients, gone);
}

/// Whether the target was ever connected. If no call has shown that and none has failed, the system is asked, to tell a
/// target that accepted and stays silent from one that never answered.
fn connected<C, T: Settle>(berth: &Berth<C, T>) -> Option<bool> {
    if berth.pair.joined(Side::Target) {
        return Some(true);
    }
    match berth.pair.verdict() {
        Verdict::Failed(Fault::Idle) => berth.target.is_connected(),
        _ => Some(false),
    }
}

fn why<C: Settle, T: Settle>(berth: &Berth<C, T>, fault: Fault) -> Why {
    match fault {
        Fault::Idle => said("idle"),
        Fault::Broken { side, kind, .. } => Why {
            error: match side {
                Side::Client => berth.client.error(),
                Side::Target => berth.target.error(),
            },
            word: kind.name(),
        },
    }
}

fn said(word: &'static str) -> Why {
    Why { error: None, word }
}
