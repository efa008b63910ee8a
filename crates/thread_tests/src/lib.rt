//! Tests of a station at which several threads work. The library itself is empty.
//!
//! Two threads share a station. Two threads watch a channel while four others work on it. Two workers meet at a gate
//! while each holds the lock of its channel, and each worker passes the gate once. Channels on which two threads worked
//! are closed together. The faults of a station have texts.
#![tactic(auto)]

#[cfg(test)]
mod tests;
