//! A session takes lines, one at a time, and keeps the text of each answer. It has no reader and no writer, so any
//! program can use it. It answers as `tclive`, as `tcrx run` or as `tcmake` does.
//!
//! [`Session::answer`] carries out a line and keeps the text of its answer, and [`Session::end`] keeps the final
//! report.
#![tactic(auto)]

mod engine;
mod session;

pub use engine::{Engine, live_engine, maker_engine, script_engine};
pub use session::{Said, Session};
