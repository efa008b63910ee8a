//! The fault of octets that belong to no channel of the station.

use crate::frame::FrameFault;
use thiserror::Error;

/// The reason why octets aren't a frame for a channel of the station.
#[derive(Clone, Copy, Debug, PartialEq, Eq, Error)]
pub enum LocateFault {
    #[error(transparent)]
    Frame(FrameFault),
    #[error("the frame is for another spacecraft")]
    OtherSpacecraft,
    #[error("the station has no such virtual channel")]
    UnknownChannel,
}
