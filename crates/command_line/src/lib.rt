//! The command lines of the programs: the words with which they are started, and the meaning of these words.
//!
//! Each program calls the function that has its name. If the words request help or the version, or are refused, this
//! function prints a text and returns an exit status, with which the program then exits.
#![tactic(auto)]

mod answer;
mod help;
mod program;
mod programs;
mod words;

pub use program::Way;
pub use programs::{Making, Reception, ScriptRun, asked_of_tclive, asked_of_tcmake, asked_of_tcrx};
