//! Tests of frames, FARM-1 and CLCWs, of CLTUs and telemetry frames, and of packets, which use public names only. The
//! library itself is empty.
#![tactic(auto)]

#[cfg(test)]
mod tests;
