//! A live receiver, which answers each line before it reads the next.
//!
//! [`answer_lines`] answers lines until there are no more, and then writes the final report. [`serve`] does so with the
//! lines of standard input. [`Receiver::do_line`] carries out one line, and returns its answer.
#![tactic(auto)]

mod answer;
mod check;
mod ends;
mod hint;
mod laws;
mod receiver;
mod serving;

pub use answer::LiveAnswer;
pub use check::FrameCheck;
pub use ends::FrameEnds;
pub use laws::lines_are_answered_so;
pub use receiver::Receiver;
pub use serving::{MAX_LINE, ServingFault, answer_lines, serve};
