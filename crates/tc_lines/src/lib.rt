//! Lines of text that are answered one by one, each before the next is read, and the parts of lines: words, numbers and
//! digits.
//!
//! [`answer_lines`] reads lines until there are no more, and has each answered by a [`LineAnswerer`]. It never keeps
//! more octets of a line than the limit allows. [`next_word`] takes the first word off a line, [`small_number`] and
//! [`large_number`] read a word as a number, and [`Digits`] are octets to be written as hexadecimal digits.
#![tactic(auto)]

mod answering;
mod digits;
mod number;
mod reading;
mod word;

pub use answering::{LineAnswerer, ServingFault, answer_lines};
pub use digits::Digits;
pub use number::{BadNumber, large_number, small_number};
pub use word::{is_separator, next_word};
