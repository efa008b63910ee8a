//! The judge that a seat holds, lent to a call.

ghost use Rattle.std.specs.Prelude.{◌≡◌, is_some, option_map};
ghost use Rattle.std.specs.Borrow.{sem};
ghost use Rattle.tc_c_judge.specs.Held.{receiver_in, sender_in};

use crate::held::{HeldJudge, ReceiverJudge};
use crate::seat::Seat;
use tc_sender::SenderJudge;

impl Seat {
    ghost use Rattle.tc_c_judge.specs.Lending.{LendsReceiver, LendsSender};

    /// Returns whether a judge is held.
    pub(crate) fn holds(&self) -> bool
        ensures { result ≡ is_some self.now.place.judge }
    {
        self.held
    }

    /// Lends the judge that is held, if it is one of a receiver.
    pub(crate) fn lend_receiver(&mut self) -> Option<&mut ReceiverJudge>
        ensures* writes_back { sem 𝓛 (LendsReceiver self.entry result) }
        ensures judge { option_map (λ held. held.now) result ≡ receiver_in self.old.place.judge }
    {
        if !self.held {
            return None;
        }
        match self.place.lend() {
            HeldJudge::Receiver(judge) => Some(judge),
            HeldJudge::Sender(_) => None,
        }
    }

    /// Lends the judge that is held, if it is one of a sender.
    pub(crate) fn lend_sender(&mut self) -> Option<&mut SenderJudge>
        ensures* writes_back { sem 𝓛 (LendsSender self.entry result) }
        ensures judge { option_map (λ held. held.now) result ≡ sender_in self.old.place.judge }
    {
        if !self.held {
            return None;
        }
        match self.place.lend() {
            HeldJudge::Receiver(_) => None,
            HeldJudge::Sender(judge) => Some(judge),
        }
    }
}
