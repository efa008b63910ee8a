//! Tests of the judge of receivers, which use public names only. The library itself is empty.
#![tactic(auto)]

#[cfg(test)]
mod tests;
