//! `tclive`: a telecommand receiver that answers line by line.
#![tactic(auto)]

use command_line::{Reception, asked_of_tclive};
use std::env::Env;
use std::process::ExitCode;
use tc_live::{FrameCheck, FrameEnds, ServingFault, serve};
use tc_text::SpacecraftId;

fn main(rt: HostRuntime) -> ExitCode {
    start(&rt)
}

/// Runs `tclive`, and returns its exit status. The function isn't private because portable/programs.rt.in joins the
/// three programs into one, in which this file is a module.
pub(crate) fn start<R: Env + AllocGlobal + Input + Print + Eprint>(rt: &R) -> ExitCode {
    match asked_of_tclive(rt) {
        Ok(asked) => {
            let spacecraft = SpacecraftId { number: asked.scid };
            report(rt, serve(rt, spacecraft, check_of(asked)))
        }
        Err(status) => status,
    }
}

fn check_of(asked: Reception) -> FrameCheck {
    if asked.fecf {
        FrameCheck::ErrorControl
    } else {
        FrameCheck::Nothing
    }
}

// Returns the exit status. If a fault stopped the answers, prints the fault on standard error. If all lines were
// answered and each frame ended with its frame error control field, prints a hint there. The hint changes no answer.
fn report<R: Eprint>(rt: &R, served: Result<FrameEnds, ServingFault>) -> ExitCode {
    match served {
        Ok(ends) => {
            if ends == FrameEnds::EachWithField {
                let _ = eprintln!(rt;
                    "tclive: each frame ended with a frame error control field, which was treated as data; tclive --fecf checks and removes it"
                );
            }
            ExitCode::SUCCESS
        }
        Err(fault) => {
            let _ = eprintln!(rt; "tclive: {fault}");
            ExitCode::FAILURE
        }
    }
}
