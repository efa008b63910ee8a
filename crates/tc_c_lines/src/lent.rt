//! The session that a seat holds, lent to a call.

ghost use Rattle.std.specs.Prelude.{◌≡◌, is_some, option_map};
ghost use Rattle.std.specs.Borrow.{sem};

use crate::seat::Seat;
use tc_session::Session;

impl Seat {
    ghost use Rattle.tc_c_lines.specs.Lending.{LendsOfSeat};

    /// Returns whether a session is held.
    pub(crate) fn holds(&self) -> bool
        ensures { result ≡ is_some self.now.place.session }
    {
        self.held
    }

    /// Lends the session that is held.
    pub(crate) fn lend(&mut self) -> Option<&mut Session>
        ensures* writes_back { sem 𝓛 (LendsOfSeat self.entry result) }
        ensures session { option_map (λ held. held.now) result ≡ self.old.place.session }
    {
        if self.held {
            Some(self.place.lend())
        } else {
            None
        }
    }
}
