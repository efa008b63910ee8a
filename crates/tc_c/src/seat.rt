//! A seat, which is memory of a C program that can hold a channel.

ghost use Rattle.std.specs.Prelude.{◌≡◌, Some, None, is_some, option_map};

use crate::place::Place;
use std::alloc::Global;
use std::mem::replace;
use tc_c_base::Parts;
use tc_fixed::FixedChannel;

/// A seat in the memory of a C program. It holds one channel or none. A seat of zeros holds no channel.
#[repr(C)]
pub struct Seat {
    pub(crate) held: bool,
    alloc: Global,
    pub place: Place,
    pub ghost agrees: { held ≡ is_some place.channel },
}

impl Seat {
    fn empty(alloc: Global) -> Seat
        ensures { result.place.channel ≡ None }
    {
        Seat {
            held: false,
            alloc,
            place: Place::empty(alloc),
        }
    }

    fn of(alloc: Global, held: Box<FixedChannel>) -> Seat
        ensures { result.place.channel ≡ Some held.value }
    {
        Seat {
            held: true,
            alloc,
            place: Place::of(Parts::of(held)),
        }
    }

    // Takes the channel out of the seat, which then holds none.
    fn take(&mut self) -> Option<Box<FixedChannel>>
        ensures channel { self.old.place.channel ≡ option_map (λ held. held.value) result }
        ensures empty { self.new.place.channel ≡ None }
    {
        let Seat {
            held,
            alloc: _alloc,
            place,
        } = replace(self, Seat::empty(self.alloc));
        if held {
            Some(place.into_parts().into_box())
        } else {
            None
        }
    }

    /// Puts a channel into a seat that holds none.
    pub(crate) fn put(&mut self, held: Box<FixedChannel>)
        requires { self.old.place.channel ≡ None }
        ensures { self.new.place.channel ≡ Some held.value }
    {
        let Seat {
            held: _was_held,
            alloc: _alloc,
            place,
        } = replace(self, Seat::of(self.alloc, held));
        drop(place);
    }

    /// Frees the channel, and returns whether one was held.
    pub(crate) fn free(&mut self) -> bool
        ensures freed { result ≡ is_some self.old.place.channel }
        ensures empty { self.new.place.channel ≡ None }
    {
        self.take().is_some()
    }
}
