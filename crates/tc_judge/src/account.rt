//! Accounts of a receiving unit, which list the frames that were sent to it and the CLCWs that were heard from it, and
//! the rules by which it is judged.

use crate::shown::Shown;
use tc_link::{Kind, Window};

/// The rules by which a unit is judged.
#[derive(Clone, Copy, Debug)]
pub struct Rules {
    /// The window of the unit's FARM-1.
    pub window: Window,
    /// True if frames may be lost on their way. Otherwise each frame that was sent comes to the unit.
    pub lossy: bool,
    /// True if the unit must fill each cell of FARM-1's table as this project does. Otherwise it may also take the
    /// other entry of a cell, if there is one.
    pub profile: bool,
}

/// A frame for a unit, as the unit takes it when the frame comes.
#[derive(Clone, Copy, Debug, PartialEq, Eq)]
pub enum SentFrame {
    Known(Kind),
    /// A Type-BC frame whose data field begins neither as an Unlock nor as a Set V(R). By this project's profile it is
    /// an invalid frame. Another unit may count it in the FARM-B counter.
    OtherCommand,
}

/// An item of an account of a unit.
#[derive(Clone, Copy, Debug, PartialEq, Eq)]
pub enum Item {
    /// A frame was sent. It is noted before its octets leave.
    Sent(SentFrame),
    /// A CLCW was heard, which showed these components. CLCWs are noted in the order in which the unit made them.
    Heard(Shown),
}
