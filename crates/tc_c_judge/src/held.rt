//! The judges that a seat can hold.

ghost use Rattle.std.specs.Prelude.{◌≡◌, ◌<◌, ◌↔◌, IsSome, IfSome};

use std::marker::Model;
use tc_judge::{Judge, ShownSet};
use tc_sender::SenderJudge;

/// A virtual channel id, from 0 to 63.
///
/// In contracts, the value is the number.
#[derive(Clone, Copy)]
pub struct ChannelId {
    number: u8,
}

impl Model for ChannelId {
    ghost use Rattle.std.specs.Prelude.{ℕ, ◌<◌};

    ghost Value = { ℕ };

    ghost view = { λ c. c.number };

    ghost inverse = { λ n. record { number = n } };

    ghost invariant = { λ c. c.number < 64 };
}

impl ChannelId {
    /// Creates an id. Returns `None` if the number is over 63.
    pub fn new(number: u8) -> Option<ChannelId>
        ensures variant { IsSome result ↔ (number < 64) }
        ensures number { IfSome result (λ id. id ≡ number) }
    {
        if number < 64 {
            Some(ChannelId { number })
        } else {
            None
        }
    }

    /// Returns the number.
    pub fn number(self) -> u8
        ensures number { result ≡ self }
        ensures range { result < 64 }
    {
        self.number
    }
}

/// A judge of one virtual channel of a receiver, with what it needs to read octets and CLCWs.
#[derive(Drop)]
pub struct ReceiverJudge {
    pub judge: Judge,
    /// The components that the last call of `tcrx_judge_possible_at` found. There are none before the first such call.
    pub set: ShownSet,
    /// The spacecraft id of the receiver. A frame for another spacecraft isn't noted.
    pub scid: u16,
    /// The virtual channel id. Frames and CLCWs of another channel aren't noted.
    pub vcid: ChannelId,
}

/// A judge of a receiver or of a sender.
#[derive(Drop)]
pub enum HeldJudge {
    Receiver(ReceiverJudge),
    Sender(SenderJudge),
}
