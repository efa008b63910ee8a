//! The channel that a seat holds, lent to a call. The code in this file can't reach the handles by which memory is
//! requested.

ghost use Rattle.std.specs.Prelude.{◌≡◌, is_some, option_map};
ghost use Rattle.std.specs.Borrow.{sem};

use crate::seat::Seat;
use tc_channel::Tick;
use tc_fixed::FixedChannel;

/// A counter that counts no steps. The calls for C pass it to the functions that count steps.
#[derive(Drop)]
pub(crate) struct NoSteps;

impl Tick for NoSteps {
    ghost use Rattle.std.specs.Prelude.{false};

    ghost taken = { λ _. 0 };

    ghost counts = { false };

    fn tick(&mut self) {}
}

impl Seat {
    ghost use Rattle.tc_c.specs.Lending.{LendsOfSeat};

    /// Returns whether a channel is held.
    pub(crate) fn holds(&self) -> bool
        ensures { result ≡ is_some self.now.place.channel }
    {
        self.held
    }

    /// Lends the channel that is held.
    pub(crate) fn lend(&mut self) -> Option<&mut FixedChannel>
        ensures* writes_back { sem 𝓛 (LendsOfSeat self.entry result) }
        ensures channel { option_map (λ held. held.now) result ≡ self.old.place.channel }
    {
        if self.held {
            Some(self.place.lend())
        } else {
            None
        }
    }
}
