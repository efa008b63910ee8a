//! Laws about a sender and a receiver: a sender with a window and a receiver in a loop ([`loops`]), and the way from a
//! sender's packets to what takes give ([`ends`]).
#![tactic(auto)]

pub mod ends;
pub mod loops;
