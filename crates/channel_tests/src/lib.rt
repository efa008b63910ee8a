//! Tests of a channel of each form, which use public names only. The library itself is empty.
#![tactic(auto)]

#[cfg(test)]
mod tests;
