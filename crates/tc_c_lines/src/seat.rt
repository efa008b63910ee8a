//! A seat, which is memory of a C program that can hold a session.

ghost use Rattle.std.specs.Prelude.{◌≡◌, Some, None, is_some, option_map};

use crate::place::Place;
use std::alloc::Global;
use std::mem::replace;
use tc_c_base::Parts;
use tc_session::Session;

/// A seat in the memory of a C program. It holds one session or none. A seat of zeros holds no session.
#[repr(C)]
pub struct Seat {
    pub(crate) held: bool,
    alloc: Global,
    pub place: Place,
    pub ghost agrees: { held ≡ is_some place.session },
}

impl Seat {
    fn empty(alloc: Global) -> Seat
        ensures { result.place.session ≡ None }
    {
        Seat {
            held: false,
            alloc,
            place: Place::empty(alloc),
        }
    }

    fn of(alloc: Global, held: Box<Session>) -> Seat
        ensures { result.place.session ≡ Some held.value }
    {
        Seat {
            held: true,
            alloc,
            place: Place::of(Parts::of(held)),
        }
    }

    // Takes the session out of the seat, which then holds none.
    fn take(&mut self) -> Option<Box<Session>>
        ensures session { self.old.place.session ≡ option_map (λ held. held.value) result }
        ensures empty { self.new.place.session ≡ None }
    {
        let Seat {
            held,
            alloc: _alloc,
            place,
        } = replace(self, Seat::empty(self.alloc));
        if held {
            Some(place.into_parts().into_box())
        } else {
            None
        }
    }

    /// Puts a session into a seat that holds none.
    pub(crate) fn put(&mut self, held: Box<Session>)
        requires { self.old.place.session ≡ None }
        ensures { self.new.place.session ≡ Some held.value }
    {
        let Seat {
            held: _was_held,
            alloc: _alloc,
            place,
        } = replace(self, Seat::of(self.alloc, held));
        drop(place);
    }

    /// Frees the session, and returns whether one was held.
    pub(crate) fn free(&mut self) -> bool
        ensures freed { result ≡ is_some self.old.place.session }
        ensures empty { self.new.place.session ≡ None }
    {
        self.take().is_some()
    }
}
