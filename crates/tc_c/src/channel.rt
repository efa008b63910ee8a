//! Calls on a channel that C holds: it takes in a frame, releases a data field, or is freed.

ghost use Rattle.std.specs.Prelude.{◌≡◌, ◌≢◌, ◌<◌, ◌≤◌, ◌+◌, ℕ, List, [], Some, None, IfSome, IfNone};
ghost use Rattle.tc_link.specs.Frame.{BeginsWith, fault_of};
ghost use Rattle.tc_channel.specs.declared.event.Event.TheVariants as Event;
ghost use Rattle.tc_channel.specs.Reply.{frame_reply_within, release_reply_within, buffered_fields_within};
ghost use Rattle.tc_channel.specs.Steps.{frame_steps_within, release_steps_within};
ghost use Rattle.tc_fixed.specs.History.{with_limited_event};
ghost use Rattle.tc_fixed.specs.Limits.{limit_of};
ghost use Rattle.tc_c_base.specs.Status.{code_of};
ghost use Rattle.tc_c.specs.Status.{frame_status};
ghost use Rattle.tc_c.specs.Channel.{reply_record, no_reply, delivery_record, no_delivery};

use crate::lent::NoSteps;
use crate::seat::Seat;
use crate::status::frame_fault;
use tc_c_base::{Status, code};
use tc_channel::{Delivery, FrameReply, Tick};
use tc_fixed::{FixedChannel, NothingReleased};
use tc_link::read_frame;

/// The outcome for a frame. Flags are 0 or 1. If the call fails, each number except `status` is 0.
#[repr(C)]
#[derive(Clone, Copy)]
pub struct ReplyRecord {
    pub status: u32,
    /// The number of packets that were queued, or 1 for a unit that was queued whole.
    pub queued: u32,
    /// The number of packets that were dropped, or 1 for a whole unit without room in its queue.
    pub dropped: u32,
    /// The number of FARM-1's event, 1 to 9.
    pub event: u8,
    /// 1 if the frame's data field was accepted, otherwise 0. It is also 0 for a control command.
    pub accepted: u8,
    /// 1 if octets were left that don't begin with a packet, otherwise 0.
    pub rest: u8,
}

/// The outcome for a data field that was released. If the call fails, each number except `status` is 0.
#[repr(C)]
#[derive(Clone, Copy)]
pub struct DeliveryRecord {
    pub status: u32,
    /// The number of packets that were queued, or 1 for a unit that was queued whole.
    pub queued: u32,
    /// The number of packets that were dropped, or 1 for a whole unit without room in its queue.
    pub dropped: u32,
    /// 1 if octets were left that don't begin with a packet, otherwise 0.
    pub rest: u8,
}

fn reply_reported(reply: FrameReply) -> ReplyRecord
    ensures { result ≡ reply_record reply }
{
    ReplyRecord {
        status: code(Status::Done),
        queued: reply.delivery.queued,
        dropped: reply.delivery.dropped,
        event: reply.act.event,
        accepted: u8::from(reply.act.accepted),
        rest: u8::from(reply.delivery.rest),
    }
}

fn reply_refused(fault: Status) -> ReplyRecord
    ensures { result ≡ no_reply fault }
{
    ReplyRecord {
        status: code(fault),
        queued: 0,
        dropped: 0,
        event: 0,
        accepted: 0,
        rest: 0,
    }
}

fn delivery_reported(delivery: Delivery) -> DeliveryRecord
    ensures { result ≡ delivery_record delivery }
{
    DeliveryRecord {
        status: code(Status::Done),
        queued: delivery.queued,
        dropped: delivery.dropped,
        rest: u8::from(delivery.rest),
    }
}

fn delivery_refused(fault: Status) -> DeliveryRecord
    ensures { result ≡ no_delivery fault }
{
    DeliveryRecord {
        status: code(fault),
        queued: 0,
        dropped: 0,
        rest: 0,
    }
}

/// Does the work of [`tcrx_channel_frame_at`]. That call runs this function once, with the channel of its seat and a
/// counter that counts nothing. A step is either one packet cut from the unit that the frame completes, or one queue
/// that is looked at. A call that fails takes no steps.
pub fn frame_with_steps<C: Tick>(
    channel: &mut FixedChannel,
    octets: &[u8],
    steps: &mut C,
) -> ReplyRecord
    ensures done { IfNone (fault_of octets.now)
        ((frame : List ℕ) × BeginsWith octets.now frame
        × (result ≡ reply_record (frame_reply_within
        (limit_of channel.old.limits) channel.old.settings channel.old.journal frame))
        × (channel.new ≡ with_limited_event channel.old (Event.Frame frame))) }
    ensures fault { IfSome (fault_of octets.now) (λ fault. (result ≡ no_reply (frame_status fault)) × (channel.new ≡ channel.old)) }
    ensures refused { 0 < result.status → channel.new ≡ channel.old }
    ensures cost { IfNone (fault_of octets.now)
        ((frame : List ℕ) × BeginsWith octets.now frame
        × (C.taken steps.new ≤ C.taken steps.old + frame_steps_within
        (limit_of channel.old.limits) channel.old.settings channel.old.journal frame)) }
    ensures quiet { 0 < result.status → C.taken steps.new ≡ C.taken steps.old }
{
    match read_frame(octets) {
        Ok(frame) => reply_reported(channel.frame_with_steps(&frame, steps)),
        Err(fault) => reply_refused(frame_fault(fault)),
    }
}

/// Brings the frame at the front of the octets to the channel, whatever virtual channel the frame names (CCSDS 232.0-B,
/// 232.1-B). Octets that follow the frame are fill.
///
/// The call fails with NoChannel if the seat holds no channel, and with the first fault of the octets if they begin
/// with no frame. It never runs out of memory, because only the call that creates the channel requests memory.
#[unsafe(no_mangle)]
pub extern "C" fn tcrx_channel_frame_at(seat: &mut Seat, octets: &[u8]) -> ReplyRecord
    ensures done { IfSome seat.old.place.channel
        (λ h. IfNone (fault_of octets.now) ((frame : List ℕ) × BeginsWith octets.now frame
        × (result ≡ reply_record (frame_reply_within (limit_of h.limits) h.settings h.journal frame))
        × (seat.new.place.channel ≡ Some (with_limited_event h (Event.Frame frame))))) }
    ensures fault { IfSome seat.old.place.channel (λ h. IfSome (fault_of octets.now) (λ fault. result ≡ no_reply (frame_status fault))) }
    ensures refused { 0 < result.status → seat.new.place.channel ≡ seat.old.place.channel }
    ensures no_channel { IfNone seat.old.place.channel (result ≡ no_reply Status.NoChannel) }
{
    match seat.lend() {
        Some(held) => frame_with_steps(held, octets, &mut NoSteps),
        None => reply_refused(Status::NoChannel),
    }
}

/// Does the work of [`tcrx_channel_release_at`]. That call runs this function once, with the channel of its seat and a
/// counter that counts nothing. Steps are counted as in [`frame_with_steps`].
pub fn release_with_steps<C: Tick>(channel: &mut FixedChannel, steps: &mut C) -> DeliveryRecord
    ensures done { buffered_fields_within (limit_of channel.old.limits) channel.old.settings channel.old.journal ≢ []
        → (result ≡ delivery_record (release_reply_within (limit_of channel.old.limits) channel.old.settings channel.old.journal))
        × (channel.new ≡ with_limited_event channel.old Event.Release) }
    ensures empty { buffered_fields_within (limit_of channel.old.limits) channel.old.settings channel.old.journal ≡ []
        → result ≡ no_delivery Status.Empty }
    ensures refused { 0 < result.status → channel.new ≡ channel.old }
    ensures cost { C.taken steps.new ≤ C.taken steps.old + release_steps_within
        (limit_of channel.old.limits) channel.old.settings channel.old.journal }
{
    match channel.release_with_steps(steps) {
        Ok(delivery) => delivery_reported(delivery),
        Err(NothingReleased::Empty) => delivery_refused(Status::Empty),
    }
}

/// Releases the oldest data field from the buffer. If the field completes a unit, the unit is queued if its queues have
/// room. It is queued whole if its MAP is chosen, otherwise as its packets.
///
/// The call fails with NoChannel if the seat holds no channel, and with Empty if the buffer is empty. The channel then
/// stays as it was.
#[unsafe(no_mangle)]
pub extern "C" fn tcrx_channel_release_at(seat: &mut Seat) -> DeliveryRecord
    ensures done { IfSome seat.old.place.channel
        (λ h. buffered_fields_within (limit_of h.limits) h.settings h.journal ≢ []
        → (result ≡ delivery_record (release_reply_within (limit_of h.limits) h.settings h.journal))
        × (seat.new.place.channel ≡ Some (with_limited_event h Event.Release))) }
    ensures empty { IfSome seat.old.place.channel
        (λ h. buffered_fields_within (limit_of h.limits) h.settings h.journal ≡ [] → result ≡ no_delivery Status.Empty) }
    ensures refused { 0 < result.status → seat.new.place.channel ≡ seat.old.place.channel }
    ensures no_channel { IfNone seat.old.place.channel (result ≡ no_delivery Status.NoChannel) }
{
    match seat.lend() {
        Some(held) => release_with_steps(held, &mut NoSteps),
        None => delivery_refused(Status::NoChannel),
    }
}

/// Frees the channel with all that it holds. The seat then holds no channel. The call fails with NoChannel if the seat
/// holds no channel.
#[unsafe(no_mangle)]
pub extern "C" fn tcrx_channel_free_at(seat: &mut Seat) -> u32
    ensures freed { IfSome seat.old.place.channel (λ _. result ≡ code_of Status.Done) }
    ensures no_channel { IfNone seat.old.place.channel (result ≡ code_of Status.NoChannel) }
    ensures empty { seat.new.place.channel ≡ None }
{
    if seat.free() {
        code(Status::Done)
    } else {
        code(Status::NoChannel)
    }
}
