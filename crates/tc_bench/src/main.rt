//! `tc_bench` runs a fixed load on stations, makes rounds on a bare channel, fills a channel, or makes a single call.
//! Another program measures the costs.
//!
//! With no argument it runs the load and prints its scores. Answers and final reports change a score, so a receiver
//! with other answers prints other scores. With `rounds recorded`, `rounds counting` or `rounds rooms` and a number it
//! makes this number of rounds on a bare channel of that form, and prints the score of the answers. The rounds bring
//! Type-AD frames, or the load that another word names.
//!
//! With `fill` and `plain`, `one` or `many` it creates a counting channel of that plan, prints the bound of its memory,
//! and fills it. The plans `plain_7`, `plain_8` and `plain_63` are for plain channels with 7, 8 and 63 queues.
//! With `fill calls` it makes each kind of call twice, and prints a line after each call. With `fill recorded` it does
//! this on a channel whose journal is recorded. If `fixed_` stands before one of these words other than `recorded`, the
//! channel has rooms. Nothing that the program keeps beside the channel grows between two lines. With `fill
//! fixed_limited` it fills a channel in rooms within limits. With `fill fixed_hostile` it brings the frames of a
//! hostile sender to the channel of `fixed_many`.
//!
//! With `worst`, a call and a number of queues it makes this call once, on a channel in rooms with these queues. Before
//! that it makes the calls after which this call costs most.
#![tactic(auto)]

mod calls;
mod command_line;
mod fill;
mod filler;
mod form;
mod loads;
mod operator_list;
mod plan;
mod rounds;
mod score;
mod scores;
mod seen;
mod sender;
mod station;
mod workers;
mod worst;

use anyhow::Result;
use command_line::{Action, judge};
use std::env;
use std::env::Env;
use std::process::ExitCode;
use std::sync::Wait;
use std::thread::Threads;

/// The exit status of a bad command line.
const BAD_COMMAND_LINE: u8 = 2;

fn main(rt: HostRuntime) -> ExitCode {
    match words(&rt) {
        Ok(words) => obey(&rt, words.as_slice()),
        Err(error) => {
            let _ = eprintln!(rt; "{error:#}");
            ExitCode::from(BAD_COMMAND_LINE)
        }
    }
}

// Returns the words of the command line.
fn words<R: Env + AllocGlobal>(rt: &R) -> Result<Vec<String>> {
    Ok(env::args(rt)?.collect(rt.alloc())?)
}

fn obey<R: Threads + Wait + Sync + AllocGlobal + Print + Eprint>(
    rt: &R,
    words: &[String],
) -> ExitCode {
    let done = match judge(words) {
        Some(Action::Scores) => scores::print(rt),
        Some(Action::Rounds(form, load, count)) => rounds::print(rt, form, load, count),
        Some(Action::Fill(word)) => fill::obey(rt, word),
        Some(Action::Worst(call, queues)) => worst::print(rt, call, queues),
        None => {
            let _ = eprintln!(rt;
                "usage: tc_bench [rounds (recorded | counting | rooms) COUNT [bypassing | packets | segments]], or\ntc_bench fill ([fixed_](plain[_(7 | 8 | 63)] | one | many | calls) | recorded | fixed_limited | fixed_hostile), or\ntc_bench worst CALL QUEUES"
            );
            return ExitCode::from(BAD_COMMAND_LINE);
        }
    };
    match done {
        Ok(()) => ExitCode::SUCCESS,
        Err(error) => {
            let _ = eprintln!(rt; "{error:#}");
            ExitCode::FAILURE
        }
    }
}
