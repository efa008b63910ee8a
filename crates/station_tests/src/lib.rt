//! Tests of desks and of stations, which use public names only. The library itself is empty.
#![tactic(auto)]

#[cfg(test)]
mod tests;
