//! Parts that the libraries for C share. These are the statuses of calls with their numbers and texts, the record of a
//! call that writes into the caller's buffer, and the parts of a box. C can hold a box by its parts.
#![tactic(auto)]

mod buffer;
mod parts;
mod status;

pub use buffer::{WrittenRecord, no_room, not_written, written};
pub use parts::Parts;
pub use status::{Status, code, from_number, text};
