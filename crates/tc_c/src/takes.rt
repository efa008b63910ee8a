//! Taking packets and units out of a channel that C holds, into the caller's buffer.

ghost use Rattle.std.specs.Prelude.{◌≡◌, ◌<◌, ◌≤◌, ◌+◌, [], length, Some, None, IfSome, IfNone};
ghost use Rattle.tc_channel.specs.declared.event.Event.TheVariants as Event;
ghost use Rattle.tc_channel.specs.Reply.{take_reply_within, unit_reply_within, waiting_packets_within, waiting_units_within};
ghost use Rattle.tc_queues.specs.Steps.{looks_for};
ghost use Rattle.tc_fixed.specs.History.{with_limited_event};
ghost use Rattle.tc_fixed.specs.Limits.{limit_of};
ghost use Rattle.tc_c_base.specs.Written.{no_octets, too_short, taken, IsCopied};

use crate::lent::NoSteps;
use crate::seat::Seat;
use tc_c_base::{Status, WrittenRecord, no_room, not_written, written};
use tc_channel::Tick;
use tc_fixed::{FixedChannel, NoUnitTaken, NothingTaken};

/// Does the work of [`tcrx_channel_take_at`]. If its seat holds a channel, that call runs this function once, with this
/// channel and a counter that counts nothing. A step is one queue that is looked at.
pub fn take_with_steps<C: Tick>(
    channel: &mut FixedChannel,
    apid: u16,
    to: &mut [u8],
    steps: &mut C,
) -> WrittenRecord
    ensures taken { IfSome (take_reply_within (limit_of channel.old.limits) channel.old.settings channel.old.journal apid)
        (λ packet. length packet ≤ length to.old
        → (result ≡ taken (length packet)) × IsCopied packet to.old to.new
        × (channel.new ≡ with_limited_event channel.old (Event.Take apid))) }
    ensures no_room { IfSome (take_reply_within (limit_of channel.old.limits) channel.old.settings channel.old.journal apid)
        (λ packet. length to.old < length packet → result ≡ too_short (length packet)) }
    ensures no_queue { waiting_packets_within (limit_of channel.old.limits) channel.old.settings channel.old.journal apid ≡ None
        → result ≡ no_octets Status.NoQueue }
    ensures empty { waiting_packets_within (limit_of channel.old.limits) channel.old.settings channel.old.journal apid ≡ Some []
        → result ≡ no_octets Status.Empty }
    ensures refused { 0 < result.status → (to.new ≡ to.old) × (channel.new ≡ channel.old) }
    ensures once { C.taken steps.new ≤ C.taken steps.old + looks_for apid (length channel.old.settings.queues) }
{
    match channel.take_with_steps(apid, to, steps) {
        Ok(length) => written(length),
        Err(NothingTaken::NoRoom(needed)) => no_room(needed),
        Err(NothingTaken::NoQueue) => not_written(Status::NoQueue),
        Err(NothingTaken::Empty) => not_written(Status::Empty),
    }
}

/// Takes the oldest packet of the queue with this APID, and copies it to the front of a buffer.
///
/// The call fails with NoChannel if the seat holds no channel, with NoQueue if no queue has the APID, and with Empty if
/// the queue is empty. It fails with NoRoom if the buffer is too short, and returns the length that is needed. The
/// buffer and the channel then stay as they were.
#[unsafe(no_mangle)]
pub extern "C" fn tcrx_channel_take_at(
    seat: &mut Seat,
    apid: u16,
    buffer: &mut [u8],
) -> WrittenRecord
    ensures taken { IfSome seat.old.place.channel
        (λ h. IfSome (take_reply_within (limit_of h.limits) h.settings h.journal apid)
        (λ packet. length packet ≤ length buffer.old
        → (result ≡ taken (length packet)) × IsCopied packet buffer.old buffer.new
        × (seat.new.place.channel ≡ Some (with_limited_event h (Event.Take apid))))) }
    ensures no_room { IfSome seat.old.place.channel
        (λ h. IfSome (take_reply_within (limit_of h.limits) h.settings h.journal apid)
        (λ packet. length buffer.old < length packet → result ≡ too_short (length packet))) }
    ensures no_queue { IfSome seat.old.place.channel
        (λ h. waiting_packets_within (limit_of h.limits) h.settings h.journal apid ≡ None → result ≡ no_octets Status.NoQueue) }
    ensures empty { IfSome seat.old.place.channel
        (λ h. waiting_packets_within (limit_of h.limits) h.settings h.journal apid ≡ Some [] → result ≡ no_octets Status.Empty) }
    ensures refused { 0 < result.status → (buffer.new ≡ buffer.old) × (seat.new.place.channel ≡ seat.old.place.channel) }
    ensures no_channel { IfNone seat.old.place.channel (result ≡ no_octets Status.NoChannel) }
{
    match seat.lend() {
        Some(held) => take_with_steps(held, apid, buffer, &mut NoSteps),
        None => not_written(Status::NoChannel),
    }
}

/// Does the work of [`tcrx_channel_take_unit_at`]. If its seat holds a channel, that call runs this function once, with
/// this channel and a counter that counts nothing. A step is one queue that is looked at.
pub fn take_unit_with_steps<C: Tick>(
    channel: &mut FixedChannel,
    map: u8,
    to: &mut [u8],
    steps: &mut C,
) -> WrittenRecord
    ensures taken { IfSome (unit_reply_within (limit_of channel.old.limits) channel.old.settings channel.old.journal map)
        (λ unit. length unit ≤ length to.old → (result ≡ taken (length unit)) × IsCopied unit to.old to.new
        × (channel.new ≡ with_limited_event channel.old (Event.TakeUnit map))) }
    ensures no_room { IfSome (unit_reply_within (limit_of channel.old.limits) channel.old.settings channel.old.journal map)
        (λ unit. length to.old < length unit → result ≡ too_short (length unit)) }
    ensures no_map { waiting_units_within (limit_of channel.old.limits) channel.old.settings channel.old.journal map ≡ None
        → result ≡ no_octets Status.NoMap }
    ensures empty { waiting_units_within (limit_of channel.old.limits) channel.old.settings channel.old.journal map ≡ Some []
        → result ≡ no_octets Status.Empty }
    ensures refused { 0 < result.status → (to.new ≡ to.old) × (channel.new ≡ channel.old) }
    ensures once { C.taken steps.new ≤ C.taken steps.old + looks_for map (length channel.old.settings.maps) }
{
    match channel.take_unit_with_steps(map, to, steps) {
        Ok(length) => written(length),
        Err(NoUnitTaken::NoRoom(needed)) => no_room(needed),
        Err(NoUnitTaken::NoMap) => not_written(Status::NoMap),
        Err(NoUnitTaken::Empty) => not_written(Status::Empty),
    }
}

/// Takes the oldest unit of the queue of this chosen MAP, and copies it to the front of a buffer.
///
/// The call fails with NoChannel if the seat holds no channel, with NoMap if the MAP isn't chosen, and with Empty if
/// the queue is empty. It fails with NoRoom if the buffer is too short, and returns the length that is needed. The
/// buffer and the channel then stay as they were.
#[unsafe(no_mangle)]
pub extern "C" fn tcrx_channel_take_unit_at(
    seat: &mut Seat,
    map: u8,
    buffer: &mut [u8],
) -> WrittenRecord
    ensures taken { IfSome seat.old.place.channel
        (λ h. IfSome (unit_reply_within (limit_of h.limits) h.settings h.journal map)
        (λ unit. length unit ≤ length buffer.old
        → (result ≡ taken (length unit)) × IsCopied unit buffer.old buffer.new
        × (seat.new.place.channel ≡ Some (with_limited_event h (Event.TakeUnit map))))) }
    ensures no_room { IfSome seat.old.place.channel
        (λ h. IfSome (unit_reply_within (limit_of h.limits) h.settings h.journal map)
        (λ unit. length buffer.old < length unit → result ≡ too_short (length unit))) }
    ensures no_map { IfSome seat.old.place.channel
        (λ h. waiting_units_within (limit_of h.limits) h.settings h.journal map ≡ None → result ≡ no_octets Status.NoMap) }
    ensures empty { IfSome seat.old.place.channel
        (λ h. waiting_units_within (limit_of h.limits) h.settings h.journal map ≡ Some [] → result ≡ no_octets Status.Empty) }
    ensures refused { 0 < result.status → (buffer.new ≡ buffer.old) × (seat.new.place.channel ≡ seat.old.place.channel) }
    ensures no_channel { IfNone seat.old.place.channel (result ≡ no_octets Status.NoChannel) }
{
    match seat.lend() {
        Some(held) => take_unit_with_steps(held, map, buffer, &mut NoSteps),
        None => not_written(Status::NoChannel),
    }
}
