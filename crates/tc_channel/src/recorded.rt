//! The journal that is recorded in memory.

ghost use Rattle.std.specs.Prelude.{◌≡◌, ◌<◌, vec_len, vec_capacity};

use crate::event::Event;
use crate::journal::Journal;
use crate::lent::LentEvent;
use crate::unrecorded::EventsSeen;
use std::alloc::{AllocError, Global};
use tc_queues::Octets;

/// A journal in memory: each event, with a copy of each frame's octets.
#[derive(Drop)]
pub struct Recorded {
    pub events: Vec<Event>,
}

impl Journal for Recorded {
    ghost use Rattle.std.specs.Prelude.{true};

    type Entry = Event;

    ghost grows = { true };

    ghost events = { λ k. k.events.items };

    ghost is_ready = { λ k entry event. (entry ≡ event) × (vec_len k.events < vec_capacity k.events) };

    fn start(alloc: Global) -> Recorded {
        Recorded {
            events: Vec::new(alloc),
        }
    }

    fn prepare(&mut self, alloc: Global, event: &LentEvent<'_>) -> Result<Event, AllocError> {
        let entry = match *event {
            LentEvent::Frame(octets) => Event::Frame(Octets::copied(alloc, octets)?),
            LentEvent::Release => Event::Release,
            LentEvent::Take(apid) => Event::Take(apid),
            LentEvent::TakeUnit(map) => Event::TakeUnit(map),
        };
        self.events.reserve(1)?;
        Ok(entry)
    }

    fn append(&mut self, _event: &LentEvent<'_>, entry: Event) {
        self.events.push_reserved(entry);
    }

    fn seen(&self) -> EventsSeen {
        EventsSeen::of(self)
    }

    fn count(&self) -> u64 {
        self.events.len() as u64
    }
}
