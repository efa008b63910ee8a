//! The place of a session in memory, or a null pointer if there is no session.

ghost use Rattle.std.specs.Prelude.{◌≡◌, Option, Some, None, IsSome};
ghost use Rattle.std.specs.Borrow.{sem};
ghost use Rattle.tc_session.specs.declared.session.Session.{Session as SessionValue};
ghost use Rattle.tc_c_lines.specs.Place.{place_owns, session_coded};

use std::alloc::Global;
use std::marker::Model;
use std::ptr;
use tc_c_base::Parts;
use tc_session::Session;

/// The place of a session, which is a pointer with the allocator of its memory. The pointer is null if there is no
/// session. Code in C only passes the place on, and never reads or copies it. It is dropped only if it has no session.
#[repr(C)]
#[derive(Drop)]
pub struct Place {
    ptr: *mut u8,
    alloc: Global,
    pub ghost session: { Option SessionValue } by { session_coded },
}

impl Model for Place {
    ghost also_owns = { λ p. place_owns p.alloc p.ptr p.session };
}

impl Place {
    ghost use Rattle.tc_c_lines.specs.Lending.{LendsOfPlace};

    /// Creates a place without a session.
    pub(crate) fn empty(alloc: Global) -> Place
        ensures { result.session ≡ None }
    {
        Place {
            ptr: ptr::null_mut(),
            alloc,
        }
    }

    /// Creates the place of the session in these parts.
    pub(crate) fn of(parts: Parts<Session, Global>) -> Place
        ensures { result.session ≡ Some parts.value }
    {
        let Parts { ptr, alloc } = parts;
        Place {
            ptr: ptr as *mut u8,
            alloc,
        }
    }

    /// Returns the parts of the session at this place.
    pub(crate) fn into_parts(self) -> Parts<Session, Global>
        requires { IsSome self.session }
        ensures { self.session ≡ Some result.value }
    {
        let Place { ptr, alloc } = self;
        Parts {
            ptr: ptr as *mut Session,
            alloc,
        }
    }

    /// Lends the session at this place.
    pub(crate) fn lend(&mut self) -> &mut Session
        requires { IsSome self.old.session }
        ensures* writes_back { sem 𝓛 (LendsOfPlace self.entry result) }
        ensures session { self.old.session ≡ Some result.now }
    {
        unsafe { &mut *(self.ptr as *mut Session) }
    }
}
