//! What stands around a frame on its way: telecommand frames and the packets in them are written, the frame error control
//! field is added and checked, CLTUs are written and searched for, and telemetry frames carry CLCWs back.
#![tactic(auto)]

pub mod cltu;
pub mod fecf;
pub mod tm;
pub mod write;
