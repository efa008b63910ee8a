//! The journal of a channel, which keeps its events or only counts them.

ghost use Rattle.std.specs.Prelude.{◌≡◌, Bool, false, List, ◌∷◌, [], ◌++◌, length, min, ◌^◌, ◌-◌, IfOk, IsOk};
ghost use Rattle.tc_channel.specs.declared.event.Event.{Event};
ghost use Rattle.tc_channel.specs.declared.lent.LentEvent.{LentEvent};
ghost use Rattle.tc_channel.specs.Journal.{event_of};

use crate::lent::LentEvent;
use crate::unrecorded::EventsSeen;
use std::alloc::{AllocError, Global};

/// The journal of a channel: all events of the channel, the oldest first. The contracts of a channel refer to these
/// events, whether the journal keeps them in memory ([`Recorded`](crate::Recorded)) or not
/// ([`Unrecorded`](crate::Unrecorded)).
pub trait Journal: Drop {
    /// The entry of an event. It is created before the channel changes, so that nothing can be refused after the
    /// change.
    type Entry: Drop;

    // the events, the oldest first
    ghost events: { Self → List Event };

    // this entry is the entry of this event, and there is room for it
    ghost is_ready: { Self → Self.Entry → Event → Type 0 };

    // true if entries take memory (if they take none, no entry is refused)
    ghost grows: { Bool };

    /// Creates an empty journal. The call allocates nothing.
    fn start(alloc: Global) -> Self
        ensures events { events result ≡ [] };

    /// Creates the entry of an event, and makes room for it in the journal. The events stay the same. The call fails
    /// only if memory runs out, and never if entries take no memory.
    fn prepare(&mut self, alloc: Global, event: &LentEvent<'_>) -> Result<Self::Entry, AllocError>
        ensures same { events self.new ≡ events self.old }
        ensures ready { IfOk result (λ entry. is_ready self.new entry (event_of event.now)) }
        ensures answered { grows ≡ false → IsOk result };

    /// Appends an event whose entry is ready. The call allocates nothing.
    fn append(&mut self, event: &LentEvent<'_>, entry: Self::Entry)
        requires { is_ready self.old entry (event_of event.now) }
        ensures events { events self.new ≡ events self.old ++ event_of event.now ∷ [] };

    /// Returns the events as contracts see them. The result takes no memory.
    fn seen(&self) -> EventsSeen
        ensures events { result.events ≡ events self.now };

    /// Returns the number of events, or 2^64 - 1 if there are more than that.
    fn count(&self) -> u64
        ensures count { result ≡ min (length (events self.now)) (2 ^ 64 - 1) };
}
