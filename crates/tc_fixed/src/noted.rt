//! The journal of a channel with fixed memory, which must not allocate.

ghost use Rattle.std.specs.Prelude.{◌≡◌, List, ◌∷◌, [], ◌++◌, length, min, ◌^◌, ◌-◌};
ghost use Rattle.tc_channel.specs.declared.event.Event.{Event};
ghost use Rattle.tc_channel.specs.Journal.{event_of};

use std::alloc::Global;
use tc_channel::{EventsSeen, Journal, LentEvent, Unrecorded};

/// A journal to which each event can be appended without memory. A channel with fixed memory is generic over its
/// journal, and its contracts hold for exactly the events that were noted.
pub trait Noted: Drop {
    // the events, the oldest first
    ghost noted: { Self → List Event };

    /// Creates a journal without events. Nothing is allocated.
    fn start(alloc: Global) -> Self
        ensures events { noted result ≡ [] };

    /// Appends an event. Nothing is allocated.
    fn note(&mut self, event: &LentEvent<'_>)
        ensures events { noted self.new ≡ noted self.old ++ event_of event.now ∷ [] };

    /// Returns the events as contracts see them, in a value that takes no memory.
    fn seen(&self) -> EventsSeen
        ensures events { result.events ≡ noted self.now };

    /// Returns the number of events, or 2^64 - 1 if there are more.
    fn count(&self) -> u64
        ensures count { result ≡ min (length (noted self.now)) (2 ^ 64 - 1) };
}

impl Noted for Unrecorded {
    ghost noted = { λ u. u.seen.events };

    fn start(alloc: Global) -> Unrecorded {
        let unrecorded: Unrecorded = Journal::start(alloc);
        unrecorded
    }

    fn note(&mut self, event: &LentEvent<'_>) {
        self.append(event, ());
    }

    fn seen(&self) -> EventsSeen {
        Journal::seen(self)
    }

    fn count(&self) -> u64 {
        self.count
    }
}
