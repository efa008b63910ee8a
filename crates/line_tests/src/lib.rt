//! Tests of scripts, of the lines of `tclive` and `tcmake`, of sessions, and of the frame error control field. They use
//! only the public names of the crates. The library itself is empty.
#![tactic(auto)]

#[cfg(test)]
mod tests;
