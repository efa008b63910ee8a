//! The place of a channel in memory, or a null pointer if there is no channel.

ghost use Rattle.std.specs.Prelude.{◌≡◌, Option, Some, None, IsSome};
ghost use Rattle.std.specs.Borrow.{sem};
ghost use Rattle.tc_fixed.specs.History.{LimitedHistory};
ghost use Rattle.tc_c.specs.Place.{place_owns, history_coded};

use std::alloc::Global;
use std::marker::Model;
use std::ptr;
use tc_c_base::Parts;
use tc_fixed::FixedChannel;

/// The place of a channel, which is a pointer with the allocator of its memory. The pointer is null if there is no
/// channel. Code in C only passes the place on, and never reads or copies it. It is dropped only if it has no channel.
#[repr(C)]
#[derive(Drop)]
pub struct Place {
    ptr: *mut u8,
    alloc: Global,
    pub ghost channel: { Option LimitedHistory } by { history_coded },
}

impl Model for Place {
    ghost also_owns = { λ p. place_owns p.alloc p.ptr p.channel };
}

impl Place {
    ghost use Rattle.tc_c.specs.Lending.{LendsOfPlace};

    /// Creates a place without a channel.
    pub(crate) fn empty(alloc: Global) -> Place
        ensures { result.channel ≡ None }
    {
        Place {
            ptr: ptr::null_mut(),
            alloc,
        }
    }

    /// Creates the place of the channel in these parts.
    pub(crate) fn of(parts: Parts<FixedChannel, Global>) -> Place
        ensures { result.channel ≡ Some parts.value }
    {
        let Parts { ptr, alloc } = parts;
        Place {
            ptr: ptr as *mut u8,
            alloc,
        }
    }

    /// Returns the parts of the channel at this place.
    pub(crate) fn into_parts(self) -> Parts<FixedChannel, Global>
        requires { IsSome self.channel }
        ensures { self.channel ≡ Some result.value }
    {
        let Place { ptr, alloc } = self;
        Parts {
            ptr: ptr as *mut FixedChannel,
            alloc,
        }
    }

    /// Lends the channel at this place.
    pub(crate) fn lend(&mut self) -> &mut FixedChannel
        requires { IsSome self.old.channel }
        ensures* writes_back { sem 𝓛 (LendsOfPlace self.entry result) }
        ensures channel { self.old.channel ≡ Some result.now }
    {
        unsafe { &mut *(self.ptr as *mut FixedChannel) }
    }
}
