//! A sender's window, and the number of frames that a sender knows to be accepted.

ghost use Rattle.std.specs.Prelude.{◌≡◌, ◌<◌, ◌≤◌, ◌+◌, ◌^◌, ◌↔◌, IsTrue};
ghost use Rattle.tc_laws.specs.Loops.Loop.{heard};

/// Returns the number of frames that a sender knows to be accepted after it reads the report value `report`, N(R), in a
/// CLCW. `known` is the number of frames that it knew to be accepted before, and `first` is the N(S) of its first
/// frame.
pub fn known_after(first: u8, window: u8, known: u64, report: u8) -> u64
    requires { known < 2 ^ 63 }
    ensures { result ≡ heard first window known report }
{
    let at = (u64::from(first) + known) % 256;
    let above = (u64::from(report) + 256 - at) % 256;
    if above <= u64::from(window) {
        known + above
    } else {
        known
    }
}

/// Returns whether a sender may send the frame `index`, for the first time or again. `known` is the number of frames
/// that it knows to be accepted.
pub fn may_send(window: u8, known: u64, index: u64) -> bool
    requires { known < 2 ^ 63 }
    ensures { IsTrue result ↔ ((known ≤ index) × (index < known + window)) }
{
    known <= index && index < known + u64::from(window)
}
