//! The tests in Rattle: what threads do, what a log is handed, what fronts and wires over loopback answer, what a wire
//! in memory plays, which no clause says, what a full queue loses, readers and writers that fail after any number of
//! bytes, calls that the programs do not make, and mutants that no row shows.
//!
//! They have a crate of their own, since to prove a crate's tests is to prove all its functions again. The
//! repository's `tests/program` and `tests/relay` show what the program prints, and how it serves.
#![tactic(auto)]

#[cfg(test)]
mod fronts;
#[cfg(test)]
mod losing;
#[cfg(test)]
mod messages;
#[cfg(test)]
mod replays;
#[cfg(test)]
mod session;
#[cfg(test)]
mod streams;
#[cfg(test)]
mod tickets;
#[cfg(test)]
mod values;
#[cfg(test)]
mod words;

#[cfg(test)]
use std::alloc::AllocError;
#[cfg(test)]
use std::process::Abort;
#[cfg(test)]
use std::test::Fail;

// The two functions below turn what helpers found into a test's result. Helpers promise nothing and return plain
// values, so that a test is cheap to prove.

/// Passes if all goes well. If memory ran out, the test fails with that error.
#[cfg(test)]
fn all_well(is_well: Result<bool, AllocError>) -> Result<(), Fail> {
    match is_well {
        Ok(true) => Ok(()),
        Ok(false) => Err(Fail::from("something goes otherwise")),
        Err(error) => Err(Fail::from(error)),
    }
}

/// Passes if no row is wrong. If one is, panics with its number.
#[cfg(test)]
fn no_row(rt: &impl Abort, wrong: Result<Option<usize>, AllocError>) -> Result<(), Fail> {
    if let Ok(Some(row)) = wrong {
        panic!(rt; "row {row} goes otherwise");
    }
    all_well(wrong.map(|_| true))
}
