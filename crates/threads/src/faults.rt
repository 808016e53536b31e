//! What becomes of a fault that a thread met: it is recorded, and a mark is set.
ghost use Rattle.std.specs.Prelude.{◌≡◌};
ghost use Rattle.threads.specs.LoopEnds.{announced};

use sizes::ServerFault;
use std::marker::Model;
use std::snapshot::Snapshot;
use std::sync::{OnceLock, OnceToken, Wait};

/// A fault is recorded, and a mark is set, as the token shows. Only [`Recorded::at`] makes this value.
///
/// In a clause it is the number of the thread that met the fault, the fault, and which mark is set.
#[derive(Drop)]
pub struct Recorded<'a> {
    number: usize,
    fault: ServerFault,
    marked: OnceToken<'a, ()>,
}

impl<'a> Model for Recorded<'a> {
    ghost use Rattle.threads.specs.LoopEnds.{Announced, announced};

    ghost Value = { Announced };

    ghost view = { λ r. announced r.marked.of (r.number, r.fault) };
}

/// A look at the mark found it set: a fault was recorded before. Only [`Found::by`] makes this value.
///
/// In a clause it is which mark that is.
#[derive(Drop)]
pub struct Found {
    at: Snapshot<OnceLock<()>>,
}

impl Model for Found {
    ghost use Rattle.std.specs.Prelude.{ℕ};

    ghost Value = { ℕ };

    ghost view = { λ f. f.at.value.id };
}

impl Found {
    /// The token shows that the mark is set.
    pub(crate) fn by(mark: &OnceLock<()>, _set: OnceToken<'_, ()>) -> Found
        requires { _set.of ≡ mark.now.id }
        ensures { result ≡ mark.now.id }
    {
        Found {
            at: Snapshot::of(mark),
        }
    }
}

/// That a thread could not be started is recorded. Only [`Recorded::few`] makes this value.
#[derive(Drop)]
pub(crate) struct Few(());

impl Recorded<'_> {
    pub(crate) fn few(self) -> Few
        requires { self.first ≡ (0, ServerFault.Threads) }
    {
        Few(())
    }
}

impl<'a> Recorded<'a> {
    /// Sets the mark: each thread that looks at it from now on finds that there is a fault.
    pub(crate) fn at(
        rt: &impl Wait,
        mark: &'a OnceLock<()>,
        number: usize,
        fault: ServerFault,
    ) -> Recorded<'a>
        ensures { result ≡ announced mark.now.id (number, fault) }
    {
        let marked = match mark.try_insert(rt, ()) {
            Ok(marked) => marked,
            Err((marked, ())) => marked,
        };
        Recorded {
            number,
            fault,
            marked,
        }
    }
}
