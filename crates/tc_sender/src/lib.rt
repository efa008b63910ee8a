//! A judge of senders, which stands at the receiving end of a virtual channel.
//!
//! [`SenderJudge`] is told which Type-AD frames arrive, which CLCWs the receiver makes, and which Set V(R) are obeyed.
//! It says whether a sender with a window of K frames can have sent these frames over links that keep order.
//!
//! Laws over the definitions stand as contracts of functions with empty bodies:
//! [`explained_frames_come_in_their_time`], [`senders_are_judged_so`].
#![tactic(auto)]

mod judge;
mod laws;

pub use judge::{SenderJudge, SenderVerdict, SenderWindow};
pub use laws::{explained_frames_come_in_their_time, senders_are_judged_so};
