//! `tcrx`: a telecommand receiver that runs a script from standard input.
#![tactic(auto)]

ghost use Rattle.std.specs.Prelude.{◌≤◌};

use command_line::{ScriptRun, Way, asked_of_tcrx};
use std::env::Env;
use std::process::ExitCode;
use std::sync::Wait;
use std::thread::Threads;
use tc_cli::{ScriptFault, parallel_input, run_input};

fn main(rt: HostRuntime) -> ExitCode {
    start(&rt)
}

/// Runs `tcrx`, and returns its exit status. The function isn't private because portable/programs.rt.in joins the three
/// programs into one, in which this file is a module.
pub(crate) fn start<R: Env + AllocGlobal + Input + Print + Eprint + Threads + Wait + Sync>(
    rt: &R,
) -> ExitCode {
    match asked_of_tcrx(rt) {
        Ok(asked) => report(rt, obey(rt, asked)),
        Err(status) => status,
    }
}

fn obey<R: AllocGlobal + Input + Print + Threads + Wait + Sync>(
    rt: &R,
    asked: ScriptRun,
) -> Result<bool, ScriptFault>
    requires { asked.scid ≤ 1023 }
{
    match asked.way {
        Way::InOrder => run_input(rt, asked.scid),
        Way::Parallel => parallel_input(rt, asked.scid),
    }
}

// Reports on standard error why a script ended early, and returns the exit status. If the script ran to its end and
// each of its frames ends with a frame error control field, prints a hint. The hint changes no answer.
fn report<R: Eprint>(rt: &R, done: Result<bool, ScriptFault>) -> ExitCode {
    match done {
        Ok(has_fields) => {
            if has_fields {
                let _ = eprintln!(rt;
                    "tcrx: each frame ends with a frame error control field, which tcrx treats as data; tclive --fecf checks and removes it"
                );
            }
            ExitCode::SUCCESS
        }
        Err(fault) => {
            let _ = eprintln!(rt; "{fault}");
            ExitCode::FAILURE
        }
    }
}
