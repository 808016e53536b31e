//! How the failure of a system call is logged.

use log::{Level, Log, debug, log};
use std::io;
use std::net::SocketAddr;

pub(crate) fn log_failure<N: Log>(rt: &N, level: Level, call: &str, error: &io::Error) {
    log!(rt; target: "relayd", level, "{call}: {error}");
}

pub(crate) fn log_unconnected<N: Log>(rt: &N, address: SocketAddr, error: &io::Error) {
    debug!(rt; target: "relayd", "connect: {address}: {error}");
}
