//! The program: `program` says what it does, `server` serves, `replay` plays recordings, `script` runs scripts.
//! `main` passes to [`program::act`] the process's own arguments, streams and handle, a closure that serves, a player
//! and a simulator.
#![tactic(auto)]

mod lent;

use program::logging::Errors;
use program::{Beside, Given, report_unheld};
use replay::OnMachine;
use script::Simulator;
use server::ServerFault;
use std::cell::Cell;
use std::process::ExitCode;

fn main(rt: HostRuntime) -> ExitCode {
    let mut output = rt.stdout();
    // First: a file opened before would get the number of a closed stream.
    let held = match program::hold_closed(&rt, &rt.stdin(), &output, &rt.stderr()) {
        Ok(held) => held,
        Err(fault) => return ExitCode::from(report_unheld(&mut output, &mut rt.stderr(), &fault)),
    };
    let is_stuck = Cell::new(false);
    let serve = |mut given: Given<HostRuntime>| -> Result<bool, ServerFault> {
        let beside = Beside::start(rt, rt.stdin(), rt.stdout(), &mut given)?;
        let served = lent::serve(&beside.log(), &beside, given);
        let is_printed = beside.finish(&is_stuck);
        served.into_result(&rt).and(Ok(is_printed))
    };
    ExitCode::from(act(rt, held.has_output(), &is_stuck, &serve))
}

/// Runs the program by its arguments, on its own streams. Returns the status.
fn act<S>(rt: HostRuntime, is_closed: bool, is_stuck: &Cell<bool>, serve: &S) -> u8
where
    S: Fn(Given<HostRuntime>) -> Result<bool, ServerFault>,
    requires { S.IsAlwaysCallable serve.now }
{
    let mut errors = Errors {
        inner: rt.stderr(),
        is_stuck,
    };
    match program::arguments(&rt) {
        Ok(arguments) => program::act(
            &rt,
            arguments.as_slice(),
            &mut rt.stdin(),
            &mut rt.stdout(),
            is_closed,
            &mut errors,
            serve,
            &OnMachine,
            &Simulator,
        ),
        Err(fault) => program::report_arguments_fault(&rt, &mut errors, fault),
    }
}
