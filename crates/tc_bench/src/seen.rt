//! The calls of a channel in rooms, each made by a function of its own that is never inlined. The function `call_NAME`
//! makes the call NAME. Another program can find this function in the machine code, and so determine which functions
//! the call reaches, how deep its stack goes, and how many instructions it takes.

use std::alloc::Global;
use tc_channel::{Delivery, FrameReply, Settings, SettingsFault};
use tc_fixed::{FixedChannel, NoUnitTaken, NothingReleased, NothingTaken};
use tc_link::{Frame, Link, Report};

pub(crate) const NO_FLAG: Link = Link {
    no_rf: false,
    no_bit_lock: false,
};

#[inline(never)]
pub(crate) fn call_new(alloc: Global, settings: Settings) -> Result<FixedChannel, SettingsFault> {
    FixedChannel::new(alloc, settings)
}

#[inline(never)]
pub(crate) fn call_frame(channel: &mut FixedChannel, frame: &Frame) -> FrameReply {
    channel.frame(frame)
}

#[inline(never)]
pub(crate) fn call_release(channel: &mut FixedChannel) -> Result<Delivery, NothingReleased> {
    channel.release()
}

#[inline(never)]
pub(crate) fn call_take(
    channel: &mut FixedChannel,
    apid: u16,
    into: &mut [u8],
) -> Result<usize, NothingTaken> {
    channel.take(apid, into)
}

#[inline(never)]
pub(crate) fn call_take_unit(
    channel: &mut FixedChannel,
    map: u8,
    into: &mut [u8],
) -> Result<usize, NoUnitTaken> {
    channel.take_unit(map, into)
}

#[inline(never)]
pub(crate) fn call_drop_oldest(channel: &mut FixedChannel, apid: u16) -> bool {
    channel.drop_oldest(apid)
}

#[inline(never)]
pub(crate) fn call_drop_oldest_unit(channel: &mut FixedChannel, map: u8) -> bool {
    channel.drop_oldest_unit(map)
}

#[inline(never)]
pub(crate) fn call_oldest(channel: &FixedChannel, apid: u16) -> Option<&[u8]> {
    channel.oldest(apid)
}

#[inline(never)]
pub(crate) fn call_oldest_unit(channel: &FixedChannel, map: u8) -> Option<&[u8]> {
    channel.oldest_unit(map)
}

#[inline(never)]
pub(crate) fn call_queued(channel: &FixedChannel, apid: u16) -> Option<usize> {
    channel.queued(apid)
}

#[inline(never)]
pub(crate) fn call_units(channel: &FixedChannel, map: u8) -> Option<usize> {
    channel.units(map)
}

#[inline(never)]
pub(crate) fn call_clcw(channel: &FixedChannel) -> u32 {
    channel.clcw(NO_FLAG)
}

#[inline(never)]
pub(crate) fn call_report(channel: &FixedChannel) -> Report {
    channel.report()
}
