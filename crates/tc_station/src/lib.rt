//! The station of one spacecraft: its virtual channels, each behind a lock of its own, and the operators that bring
//! them frames, release their data fields and take their packets and units.
//!
//! In contracts, a [`Desk`] is its channel with the board of its status word. Each call of a desk has the contract of
//! the channel's call. Whenever the lock of a desk is free, the status word is the CLCW of the channel's journal, with
//! both link flags 0. A watcher reads the word without the lock.
//!
//! The answer to an operator's call follows from the journal that the channel of the call has at some moment. This
//! journal continues all that the operator had seen of the channel. [`StationOf::close_together`] returns channels
//! whose journals are merges of the events that their operators made. A call of the [`Station`] without an operator
//! promises less: its answer is the one that FARM-1 and the queues give at some lawful journal with the channel's
//! settings. [`Station::close`] compares the journals with the operators' counts, whichever station the operators
//! belong to. The journals of a [`CountingStation`] take no memory, and its close compares the numbers of events.
#![tactic(auto)]

mod closing;
mod faults;
mod guest;
mod operator;
mod station;
mod through;
mod vcids;
mod work;

pub use faults::{
    BringFault, CloseFault, CountingCloseFault, OperatorsFault, ReleaseRefused, StationFault,
    TakeRefused, TakeUnitRefused, WatcherFault, WorkFault,
};
pub use operator::Operator;
pub use station::{Brought, CountingStation, Located, Station, StationOf, StillOpen};
pub use tc_desk::Refusal;
pub use tc_link::LocateFault;
pub use tc_status::{CountingDesk, Desk, DeskOf};
pub use through::{
    calls_go_on_one_after_another, what_calls_answered_stands_in_the_closed_journals,
};
pub use work::{FreeGate, Gate, Job, Order, WorkList};
