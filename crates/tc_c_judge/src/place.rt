//! The place of a judge in memory, or a null pointer if there is no judge.

ghost use Rattle.std.specs.Prelude.{◌≡◌, Option, Some, None, IsSome};
ghost use Rattle.std.specs.Borrow.{sem};
ghost use Rattle.tc_c_judge.specs.declared.held.HeldJudge.{HeldJudge as HeldValue};
ghost use Rattle.tc_c_judge.specs.Place.{judge_owned, judge_coded};

use crate::held::HeldJudge;
use std::alloc::Global;
use std::marker::Model;
use std::ptr;
use tc_c_base::Parts;

/// The place of a judge, which is a pointer with the allocator of its memory. The pointer is null if there is no
/// judge. Code in C only passes the place on, and never reads or copies it. It is dropped only if it has no judge.
#[repr(C)]
#[derive(Drop)]
pub struct Place {
    ptr: *mut u8,
    alloc: Global,
    pub ghost judge: { Option HeldValue } by { judge_coded },
}

impl Model for Place {
    ghost also_owns = { λ p. judge_owned p.alloc p.ptr p.judge };
}

impl Place {
    ghost use Rattle.tc_c_judge.specs.Lending.{LendsPlace};

    /// Creates a place without a judge.
    pub(crate) fn empty(alloc: Global) -> Place
        ensures { result.judge ≡ None }
    {
        Place {
            ptr: ptr::null_mut(),
            alloc,
        }
    }

    /// Creates the place of the judge in these parts.
    pub(crate) fn of(parts: Parts<HeldJudge, Global>) -> Place
        ensures { result.judge ≡ Some parts.value }
    {
        let Parts { ptr, alloc } = parts;
        Place {
            ptr: ptr as *mut u8,
            alloc,
        }
    }

    /// Returns the parts of the judge at this place.
    pub(crate) fn into_parts(self) -> Parts<HeldJudge, Global>
        requires { IsSome self.judge }
        ensures { self.judge ≡ Some result.value }
    {
        let Place { ptr, alloc } = self;
        Parts {
            ptr: ptr as *mut HeldJudge,
            alloc,
        }
    }

    /// Lends the judge at this place.
    pub(crate) fn lend(&mut self) -> &mut HeldJudge
        requires { IsSome self.old.judge }
        ensures* writes_back { sem 𝓛 (LendsPlace self.entry result) }
        ensures judge { self.old.judge ≡ Some result.now }
    {
        unsafe { &mut *(self.ptr as *mut HeldJudge) }
    }
}
