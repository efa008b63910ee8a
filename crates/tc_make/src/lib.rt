//! Frames and packets made by hand, for tests on the bench. Each line of text describes something to make or to
//! explain, and is answered by lines of text.
//!
//! [`serve`] answers the lines of standard input, [`answer_lines`] answers the lines of any reader, and [`answer_line`]
//! answers one line. [`parse_line`] parses a line. [`make_packet`], [`make_frame`], [`make_command`],
//! [`Parting::frame`] and [`Ending::end`] make packets and frames, and [`explain`] reads a frame.
#![tactic(auto)]

mod answer;
mod decoders;
mod ending;
mod explained;
mod explaining;
mod fault;
mod form;
mod frames;
mod line;
mod link;
mod maker;
mod octets;
mod packets;
mod parting;
mod printed;
mod serving;
mod strict;

pub use answer::answer_line;
pub use decoders::Decoders;
pub use ending::Ending;
pub use explaining::{Explanation, explain};
pub use fault::Reason;
pub use form::{Form, Number};
pub use frames::{make_command, make_frame};
pub use line::{Line, Sizing, Stream, TmOrder, parse_line};
pub use maker::Maker;
pub use octets::Octets;
pub use packets::make_packet;
pub use parting::Parting;
pub use serving::{MAX_LINE, MakingFault, answer_lines, serve};
pub use tc_lines::ServingFault;
