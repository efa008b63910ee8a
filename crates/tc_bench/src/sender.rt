//! Frames that are made before the rounds begin.

ghost use Rattle.std.specs.Prelude.{◌≡◌, IfOk, vec_len};

use std::alloc::Global;
use tc_channel::Octets;
use tc_link::{Header, WriteFault, write_frame};

/// The spacecraft id in all frames.
pub(crate) const SCID: u16 = 42;

/// A frame of the load.
#[derive(Clone, Copy)]
pub(crate) enum Sent {
    /// A Type-AD frame with this N(S). The data of its packet is the N(S) as an octet.
    Sequenced(u8),
    /// A Type-BD frame with a packet whose data is this octet.
    Bypassing(u8),
    /// The control command Unlock.
    Unlock,
}

/// Returns the frame that follows the accepted frame in its round. It is the accepted frame again, a frame that
/// bypasses the window, a frame ahead of V(R), or an Unlock.
pub(crate) fn second(number: u8) -> Sent {
    match number % 4 {
        0 => Sent::Sequenced(number),
        1 => Sent::Bypassing(number),
        2 => Sent::Sequenced(number.wrapping_add(2)),
        _ => Sent::Unlock,
    }
}

/// The frames of the load for one virtual channel.
#[derive(Drop)]
pub(crate) struct Sender {
    pub(crate) vcid: u8,
    sequenced: Vec<Octets>,
    bypassing: Vec<Octets>,
    unlock: Octets,
    ghost sized: { (vec_len sequenced ≡ 256) × (vec_len bypassing ≡ 256) },
}

impl Sender {
    /// Creates the frames for a virtual channel.
    pub(crate) fn new(alloc: Global, vcid: u8) -> Result<Sender, WriteFault> {
        Ok(Sender {
            vcid,
            sequenced: write_each(alloc, vcid, &|octet| Sent::Sequenced(octet))?,
            bypassing: write_each(alloc, vcid, &|octet| Sent::Bypassing(octet))?,
            unlock: write(alloc, vcid, Sent::Unlock)?,
        })
    }

    /// Returns the octets of a frame.
    pub(crate) fn octets(&self, sent: Sent) -> &[u8] {
        match sent {
            Sent::Sequenced(octet) => self.sequenced[usize::from(octet)].as_slice(),
            Sent::Bypassing(octet) => self.bypassing[usize::from(octet)].as_slice(),
            Sent::Unlock => self.unlock.as_slice(),
        }
    }
}

// Writes a frame for each of the 256 values of an octet, in rising order.
fn write_each<F: Fn(u8) -> Sent>(
    alloc: Global,
    vcid: u8,
    sent: &F,
) -> Result<Vec<Octets>, WriteFault>
    requires { F.IsAlwaysCallable sent.now }
    ensures { IfOk result (λ frames. vec_len frames ≡ 256) }
{
    let Ok(mut frames) = Vec::with_capacity(alloc, 256) else {
        return Err(WriteFault::NoMemory);
    };
    for octet in 0..256u16 {
        frames.push_reserved(write(alloc, vcid, sent(octet as u8))?);
    }
    Ok(frames)
}

// Writes a frame. The data field of Type-AD and Type-BD is an unsegmented packet on MAP 0, whose data is one octet.
fn write(alloc: Global, vcid: u8, sent: Sent) -> Result<Octets, WriteFault> {
    let (bypass, control, ns, octet) = match sent {
        Sent::Sequenced(ns) => (false, false, ns, ns),
        Sent::Bypassing(octet) => (true, false, 0, octet),
        Sent::Unlock => (true, true, 0, 0),
    };
    let header = Header {
        bypass,
        control,
        scid: SCID,
        vcid,
        ns,
    };
    let packet = [0xc0, 0x10, 0x05, 0xc0, 0x00, 0x00, 0x00, octet];
    let field = if control { &[0][..] } else { &packet[..] };
    Ok(Octets::from(write_frame(alloc, &header, field)?))
}
