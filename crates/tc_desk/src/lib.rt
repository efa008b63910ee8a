//! The desk of a channel, behind a lock that logs the channel's events.
//!
//! Several threads share a [`LockedDesk`]. Each has a [`DeskOperator`] of its own, which the desk's [`DeskOwner`]
//! creates, and uses it to run an [`Operation`]. Contracts see the identity of the lock, and which events of the
//! channel's journal each operator has seen and made. Therefore each answer follows from the journal of this channel,
//! and [`close_together`] returns channels whose journals are merges of the events that their operators made. Each call
//! of an operator takes the lock once, and waits while another thread has it.
#![tactic(auto)]

mod guard;
mod laws;
mod locked;
mod operation;
mod owned_desk;
mod resident;
mod slot;
mod together;

pub use laws::{
    a_release_finds_a_data_field, each_event_stands_at_its_place,
    one_alone_is_answered_after_its_own_events, the_only_maker_made_the_whole_journal,
    the_only_operator_made_the_whole_journal,
};
pub use locked::{DeskOperator, DeskOwner, LockedDesk};
pub use operation::{
    Framing, Operation, Question, Release, Taking, UnitTaking, WatchedFraming, Watching,
};
pub use owned_desk::OwnedDesk;
pub use slot::{DeskHead, DeskSlot};
pub use together::{LeftOpen, OperatorList, Refusal, close_together, take_out_together};
