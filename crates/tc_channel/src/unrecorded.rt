//! The journal that only contracts read.

ghost use Rattle.std.specs.Prelude.{◌≡◌, List, [], ◌∷◌, ◌++◌, length, min, ◌^◌, ◌-◌};
ghost use Rattle.std.specs.Borrow.{ftrue};
ghost use Rattle.tc_channel.specs.declared.event.Event.{Event};
ghost use Rattle.tc_channel.specs.Journal.{event_of};

use crate::journal::Journal;
use crate::lent::LentEvent;
use crate::recorded::Recorded;
use std::alloc::{AllocError, Global};
use std::marker::Model;

/// A list of events that takes no memory. Contracts can read it, and programs can't.
#[derive(Drop)]
pub struct EventsSeen {
    pub ghost events: { List Event },
}

impl Model for EventsSeen {
    ghost also_owns = { λ _. ftrue };
}

impl EventsSeen {
    /// Creates a list of no events.
    pub(crate) fn new() -> EventsSeen
        ensures { result.events ≡ [] }
    {
        EventsSeen {}
    }

    /// Returns a second list of these events.
    #[inline(always)]
    pub(crate) fn again(&self) -> EventsSeen
        ensures { result.events ≡ self.now.events }
    {
        EventsSeen {}
    }

    /// Returns the events of a recorded journal.
    #[inline(always)]
    pub(crate) fn of(_kept: &Recorded) -> EventsSeen
        ensures { result.events ≡ _kept.now.events.items }
    {
        EventsSeen {}
    }

    /// Appends an event to the list. It does nothing at run time.
    #[inline(always)]
    pub(crate) fn note(&mut self, _event: &LentEvent<'_>)
        ensures { self.new.events ≡ self.old.events ++ event_of _event.now ∷ [] }
    {}
}

/// A journal of which a program keeps only the number of events.
#[derive(Drop)]
pub struct Unrecorded {
    pub seen: EventsSeen,
    pub count: u64,
    pub ghost counted: { count ≡ min (length seen.events) (2 ^ 64 - 1) },
}

impl Journal for Unrecorded {
    ghost use Rattle.std.specs.Prelude.{⊤, false};

    type Entry = ();

    ghost grows = { false };

    ghost events = { λ u. u.seen.events };

    ghost is_ready = { λ _ _ _. ⊤ };

    fn start(_alloc: Global) -> Unrecorded {
        Unrecorded {
            seen: EventsSeen::new(),
            count: 0,
        }
    }

    fn prepare(&mut self, _alloc: Global, _event: &LentEvent<'_>) -> Result<(), AllocError> {
        Ok(())
    }

    fn append(&mut self, event: &LentEvent<'_>, _entry: ()) {
        self.seen.note(event);
        if let Some(next) = self.count.checked_add(1) {
            self.count = next;
        }
    }

    fn seen(&self) -> EventsSeen {
        self.seen.again()
    }

    fn count(&self) -> u64 {
        self.count
    }
}
