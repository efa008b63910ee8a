//! `tcmake`: a program that makes and explains telecommand frames, line by line.
#![tactic(auto)]

use command_line::{Making, asked_of_tcmake};
use std::env::Env;
use std::process::ExitCode;
use tc_make::{Ending, MakingFault, serve};

fn main(rt: HostRuntime) -> ExitCode {
    start(&rt)
}

/// Runs `tcmake`, and returns its exit status. The function isn't private because portable/programs.rt.in joins the
/// three programs into one, in which this file is a module.
pub(crate) fn start<R: Env + AllocGlobal + Input + Print + Eprint>(rt: &R) -> ExitCode {
    match asked_of_tcmake(rt) {
        Ok(asked) => report(rt, serve(rt, ending_of(asked), asked.strict)),
        Err(status) => status,
    }
}

fn ending_of(asked: Making) -> Ending {
    if asked.fecf {
        Ending::ErrorControl
    } else {
        Ending::DataField
    }
}

// Reports on standard error why no more lines were answered, and returns the exit status.
fn report<R: Eprint>(rt: &R, served: Result<(), MakingFault>) -> ExitCode {
    match served {
        Ok(()) => ExitCode::SUCCESS,
        Err(fault) => {
            let _ = eprintln!(rt; "tcmake: {fault}");
            ExitCode::FAILURE
        }
    }
}
