//! A seat, which is memory of a C program that can hold a judge.

ghost use Rattle.std.specs.Prelude.{◌≡◌, Some, None, is_some, option_map};

use crate::held::HeldJudge;
use crate::place::Place;
use std::alloc::Global;
use std::mem::replace;
use tc_c_base::Parts;

/// A seat in the memory of a C program. It holds one judge or none. A seat of zeros holds no judge.
#[repr(C)]
pub struct Seat {
    pub(crate) held: bool,
    alloc: Global,
    pub place: Place,
    pub ghost agrees: { held ≡ is_some place.judge },
}

impl Seat {
    fn empty(alloc: Global) -> Seat
        ensures { result.place.judge ≡ None }
    {
        Seat {
            held: false,
            alloc,
            place: Place::empty(alloc),
        }
    }

    fn of(alloc: Global, held: Box<HeldJudge>) -> Seat
        ensures { result.place.judge ≡ Some held.value }
    {
        Seat {
            held: true,
            alloc,
            place: Place::of(Parts::of(held)),
        }
    }

    // Takes the judge out of the seat, which then holds none.
    fn take(&mut self) -> Option<Box<HeldJudge>>
        ensures judge { self.old.place.judge ≡ option_map (λ held. held.value) result }
        ensures empty { self.new.place.judge ≡ None }
    {
        let Seat {
            held,
            alloc: _alloc,
            place,
        } = replace(self, Seat::empty(self.alloc));
        if held {
            Some(place.into_parts().into_box())
        } else {
            None
        }
    }

    /// Puts a judge into a seat that holds none.
    pub(crate) fn put(&mut self, held: Box<HeldJudge>)
        requires { self.old.place.judge ≡ None }
        ensures { self.new.place.judge ≡ Some held.value }
    {
        let Seat {
            held: _was_held,
            alloc: _alloc,
            place,
        } = replace(self, Seat::of(self.alloc, held));
        drop(place);
    }

    /// Frees the judge, and returns whether one was held.
    pub(crate) fn free(&mut self) -> bool
        ensures freed { result ≡ is_some self.old.place.judge }
        ensures empty { self.new.place.judge ≡ None }
    {
        self.take().is_some()
    }
}
