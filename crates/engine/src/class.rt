//! What the error of a system call means to a turn.
ghost use Rattle.std.specs.Prelude.{◌≡◌, Bool, true};
ghost use Rattle.relay_core.specs.Calls.{side_of};
ghost use Rattle.engine.specs.Classes.{class_by, class_of, kind_of_error, kind_told, pending_kind};

use relay_core::{Call, CallKind, Kind, Side};
use std::io::ErrorKind;

/// What an error of a call means.
#[derive(Clone, Copy)]
pub enum Class {
    /// A signal interrupted the call, and nothing moved (EINTR).
    Interrupted,
    /// The call would have had to wait (EAGAIN, or ENOTCONN if not yet connected).
    Blocked,
    /// The call failed.
    Failed(Kind),
}

/// The class of an error by its kind. `joined` says whether the socket is known to be connected, as a client's is.
pub fn class_of(call: &Call, kind: ErrorKind, joined: bool) -> Class
    requires client { side_of call.now ≡ Side.Client → joined ≡ true }
    ensures { result ≡ class_of call.now joined kind }
{
    class_by(call.kind(), kind, joined)
}

/// [`class_of`] for a call of this kind.
#[inline(always)]
pub fn class_by(call: CallKind, kind: ErrorKind, joined: bool) -> Class
    ensures { result ≡ class_by call joined kind }
{
    let may_wait = call != CallKind::Shut;
    match kind {
        ErrorKind::Interrupted => Class::Interrupted,
        ErrorKind::WouldBlock if may_wait => Class::Blocked,
        ErrorKind::NotConnected if may_wait && !joined => Class::Blocked,
        _ => Class::Failed(kind_of(kind)),
    }
}

/// The kind with which a socket's pending error (SO_ERROR) is reported. Such an error is always a failure, so a kind
/// that could also mean that a call has to wait or was interrupted becomes `Other`.
pub fn pending(kind: ErrorKind) -> ErrorKind
    ensures told { result ≡ pending_kind kind }
    ensures fails { (call : Call) (joined : Bool) → class_of call joined result ≡ Class.Failed (kind_of_error result) }
{
    match kind {
        ErrorKind::Interrupted | ErrorKind::WouldBlock | ErrorKind::NotConnected => {
            ErrorKind::Other
        }
        _ => kind,
    }
}

/// How a call failed, by the kind of its error.
pub fn kind_of(kind: ErrorKind) -> Kind
    ensures { result ≡ kind_of_error kind }
{
    match kind {
        ErrorKind::ConnectionReset => Kind::Reset,
        ErrorKind::BrokenPipe => Kind::Pipe,
        ErrorKind::ConnectionAborted => Kind::Aborted,
        ErrorKind::ConnectionRefused => Kind::Refused,
        ErrorKind::NotConnected => Kind::NotConnected,
        ErrorKind::TimedOut => Kind::TimedOut,
        _ => Kind::Other,
    }
}

/// An error that on a connected socket means a failure of this kind; for `Zero`, of kind `Other`.
pub fn error_of(kind: Kind) -> ErrorKind
    ensures { (call : Call) → class_of call true result ≡ Class.Failed (kind_told kind) }
{
    match kind {
        Kind::Reset => ErrorKind::ConnectionReset,
        Kind::Pipe => ErrorKind::BrokenPipe,
        Kind::Aborted => ErrorKind::ConnectionAborted,
        Kind::Refused => ErrorKind::ConnectionRefused,
        Kind::NotConnected => ErrorKind::NotConnected,
        Kind::TimedOut => ErrorKind::TimedOut,
        Kind::Zero | Kind::Other => ErrorKind::Other,
    }
}
