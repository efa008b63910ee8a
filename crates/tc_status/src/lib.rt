//! The status of a channel as one atomic word, which any thread reads without waiting.
//!
//! Each channel has a board: one word, which is the CLCW of the journal that was published last, with both link flags
//! 0. The [`Publisher`] stores it, and each [`Watcher`] loads it. A contract sees a publisher and a watcher as a board
//! and a journal. A [`Desk`] is a channel with its publisher, which publishes the channel before each of its calls
//! returns. The law [`each_seat_is_behind_the_publisher`] states the facts about a board that hold at every moment, and
//! [`the_flags_of_the_link_have_their_own_bits`] states how a CLCW with other link flags follows from the board's word.
#![tactic(auto)]

mod board;
mod desk;
mod laws;
mod publisher;
mod watcher;

pub use desk::{CountingDesk, Desk, DeskOf};
pub use laws::{each_seat_is_behind_the_publisher, the_flags_of_the_link_have_their_own_bits};
pub use publisher::Publisher;
pub use watcher::{Watcher, meet};
