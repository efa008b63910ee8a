//! Spacecraft ids.

ghost use Rattle.std.specs.Prelude.{◌≡◌, ◌<◌, ◌≤◌, MatchOption};

/// The largest spacecraft id (CCSDS 232.0-B, 4.1.2.5: ten bits).
const MAX_SCID: u16 = 1023;

/// The id of a spacecraft, at most 1,023.
#[derive(Clone, Copy, Debug, PartialEq, Eq)]
pub struct SpacecraftId {
    pub number: u16,
    ghost within: { number ≤ 1023 },
}

impl SpacecraftId {
    /// Creates the spacecraft id with this number, or returns `None` if it is too large.
    pub fn new(number: u16) -> Option<SpacecraftId>
        ensures { MatchOption result (1023 < number) (λ id. id.number ≡ number) }
    {
        if number <= MAX_SCID {
            Some(SpacecraftId { number })
        } else {
            None
        }
    }
}
