//! Scripts for a telecommand receiver: lines of text are read, checked and answered.
//!
//! `run_script` reads a script from a reader, carries out its lines in order, and writes an answer for each operation
//! and then a report. `parallel_script` has the operations of each channel carried out by a worker of its own, and
//! writes only the report. `run_and_give_back` and `parallel_and_give_back` also return the script. `run_input` and
//! `parallel_input` run the script of standard input. `parse_line` parses one line.
#![tactic(auto)]

mod closing;
mod fields;
mod founding;
mod input;
mod laws;
mod parallel;
mod parting;
mod script;
mod session;
mod staffed;
mod watchers;
mod worked;

pub use input::{parallel_input, run_input};
pub use laws::{
    the_lines_before_memory_ran_out_are_good, what_a_script_does_follows_from_its_lines,
};
pub use parallel::{parallel_and_give_back, parallel_script};
pub use script::{run_and_give_back, run_script};
pub use tc_rack::{Answer, Operation, Refusal, Stage, write_report};
pub use tc_text::{Line, Reason, ScriptFault, parse_line};
pub use worked::a_script_writes_this;
