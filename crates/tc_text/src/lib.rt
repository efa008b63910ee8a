//! Scripts as text. The octets of a script are read and split into lines, and a line is split into words and parsed.
//!
//! `read_whole` reads a script, `next_line` splits off its first line, and `parse_line` parses a line.
#![tactic(auto)]

mod fault;
mod line;
mod live;
mod printed;
mod reading;
mod spacecraft;
mod word;

pub use fault::{Reason, ScriptFault};
pub use line::{Line, parse_line};
pub use live::{LiveLine, parse_live_line};
pub use printed::{Delivered, UnitDigits, WordDigits};
pub use reading::{MAX_OCTETS, next_line, read_whole};
pub use spacecraft::SpacecraftId;
pub use tc_lines::Digits;
