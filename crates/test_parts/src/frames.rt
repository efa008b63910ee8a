//! Frames for spacecraft 42, and the replies to them.

use crate::growths::octets_of;
use std::alloc::{AllocError, Global};
use tc_channel::{ChannelWith, Delivery, Event, FrameReply, Journal, NoMemory};
use tc_link::{Act, Link, read_frame};

/// The state of a link with neither flag set.
pub const NO_FLAG: Link = Link {
    no_rf: false,
    no_bit_lock: false,
};

/// A packet for APID 5.
pub const PACKET: [u8; 7] = [0x10, 0x05, 0xc0, 0x00, 0x00, 0x00, 0xaa];

/// The Type-AD frame with N(S) 0 for virtual channel 1 that carries `PACKET`.
pub const FRAME: [u8; 13] = [
    0x00, 0x2a, 0x04, 0x0c, 0x00, 0xc0, 0x10, 0x05, 0xc0, 0x00, 0x00, 0x00, 0xaa,
];

/// A frame like `FRAME`, with N(S) 1.
pub const NEXT: [u8; 13] = [
    0x00, 0x2a, 0x04, 0x0c, 0x01, 0xc0, 0x10, 0x05, 0xc0, 0x00, 0x00, 0x00, 0xaa,
];

/// `PACKET` in a Type-BD frame.
pub const BD_PACKET: [u8; 13] = [
    0x20, 0x2a, 0x04, 0x0c, 0x00, 0xc0, 0x10, 0x05, 0xc0, 0x00, 0x00, 0x00, 0xaa,
];

/// A unit of MAP 3.
pub const UNIT: [u8; 2] = [0xaa, 0xbb];

/// The Type-AD frame with N(S) 0 for virtual channel 1 that carries `UNIT` on MAP 3.
pub const AD_UNIT: [u8; 8] = [0x00, 0x2a, 0x04, 0x07, 0x00, 0xc3, 0xaa, 0xbb];

/// The Type-BD frame for virtual channel 1 that carries `UNIT` on MAP 3.
pub const BD_UNIT: [u8; 8] = [0x20, 0x2a, 0x04, 0x07, 0x00, 0xc3, 0xaa, 0xbb];

/// An Unlock for virtual channel 1.
pub const UNLOCK: [u8; 6] = [0x30, 0x2a, 0x04, 0x05, 0x00, 0x00];

/// The delivery in which no packet or unit was queued or dropped, and no octets were left.
pub const NOTHING: Delivery = Delivery {
    queued: 0,
    dropped: 0,
    rest: false,
};

/// The delivery if one packet was queued and nothing was left, or if one whole unit was queued.
pub const ONE: Delivery = Delivery {
    queued: 1,
    dropped: 0,
    rest: false,
};

/// The reply to a Type-AD frame that is accepted and buffered.
pub const BUFFERED: FrameReply = FrameReply {
    act: Act {
        event: 1,
        accepted: true,
    },
    delivery: NOTHING,
};

/// The reply to a Type-AD frame whose field finds no room in the buffer.
pub const NO_ROOM: FrameReply = FrameReply {
    act: Act {
        event: 2,
        accepted: false,
    },
    delivery: NOTHING,
};

/// The reply to a Type-AD frame whose N(S) is in the negative part of the window, as that of a repeated frame is.
pub const BEHIND: FrameReply = FrameReply {
    act: Act {
        event: 4,
        accepted: false,
    },
    delivery: NOTHING,
};

/// The reply to a Type-BD frame whose packet or unit is queued.
pub const DELIVERED: FrameReply = FrameReply {
    act: Act {
        event: 6,
        accepted: true,
    },
    delivery: ONE,
};

/// Returns `FRAME` for this virtual channel and with this N(S).
pub fn ad_frame(vcid: u8, ns: u8) -> [u8; 13] {
    let third = vcid.wrapping_mul(4);
    [
        0x00, 0x2a, third, 0x0c, ns, 0xc0, 0x10, 0x05, 0xc0, 0x00, 0x00, 0x00, 0xaa,
    ]
}

/// Returns the event of a frame with these octets, even if memory is refused once.
pub fn frame_event(alloc: Global, octets: &[u8]) -> Result<Event, AllocError> {
    Ok(Event::Frame(octets_of(alloc, octets)?))
}

/// Returns whether the event is that of a frame with these octets.
pub fn is_frame(event: &Event, frame: &[u8]) -> bool {
    match event {
        Event::Frame(octets) => octets.as_slice() == frame,
        _ => false,
    }
}

/// Brings the frame at the front of these octets to a channel, and returns the reply. Returns `None` if the octets
/// don't begin with a frame.
pub fn offer<J: Journal>(
    channel: &mut ChannelWith<J>,
    octets: &[u8],
) -> Option<Result<FrameReply, NoMemory>> {
    let frame = read_frame(octets).ok()?;
    Some(channel.frame(&frame))
}
