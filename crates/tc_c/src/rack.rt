//! The channels of a spacecraft in the caller's memory, and the search for the channel that a frame is for.

ghost use Rattle.std.specs.Prelude.{◌≡◌, ◌<◌, ℕ, List, true, false, length, Some, None, IfSome, IfNone, IfOk, MatchOption, MatchResult, option_map};
ghost use Rattle.tc_link.specs.Frame.{IsWhole, BeginsWith, header_of, fault_of};
ghost use Rattle.tc_channel.specs.Reply.{frame_reply_within};
ghost use Rattle.tc_channel.specs.declared.event.Event.TheVariants as Event;
ghost use Rattle.tc_edges.specs.Fecf.FrameWithField.{frame_with_field, taking_fault_of};
ghost use Rattle.tc_fixed.specs.History.{LimitedHistory, with_limited_event};
ghost use Rattle.tc_fixed.specs.Limits.{limit_of};
ghost use Rattle.tc_c_base.specs.Status.{code_of};
ghost use Rattle.tc_c.specs.Status.{field_status};
ghost use Rattle.tc_c.specs.Rack.{channels_in, IsFirstWithVcid, IsHeld, IsLocatedAmong, IsLocateFaultAmong, rack_reply, no_rack_reply, no_place, IsRackReplied, IsEndedReplied, IsCandidateReplied, candidate_reply, no_candidate_reply};

use crate::channel::tcrx_channel_frame_at;
use crate::farm::flag;
use crate::seat::Seat;
use crate::status::{field_fault, frame_fault, locate_fault};
use tc_c_base::{Status, code};
use tc_edges::fecf::{Delimited, delimit, is_fill};
use tc_edges::write::{check_taking, write_without_field};
use tc_link::{LocateFault, each_input_begins_with_one_frame_at_most, read_frame};

/// The outcome for a frame, and the channel that took it in. Flags are 0 or 1. If the call fails, each number except
/// `status` is 0.
#[repr(C)]
#[derive(Clone, Copy)]
pub struct RackReplyRecord {
    pub status: u32,
    /// The number of packets that were queued, or 1 for a unit that was queued whole.
    pub queued: u32,
    /// The number of packets that were dropped, or 1 for a whole unit without room in its queue.
    pub dropped: u32,
    /// The number of FARM-1's event, 1 to 9.
    pub event: u8,
    /// 1 if the frame's data field was accepted, otherwise 0. It is also 0 for a control command.
    pub accepted: u8,
    /// 1 if octets were left that don't begin with a packet, otherwise 0.
    pub rest: u8,
    /// The virtual channel id of the channel.
    pub vcid: u8,
}

/// The outcome for the frame at the front of a candidate. Flags are 0 or 1. If the call fails, each number except
/// `status`, `more` and `length` is 0. If it fails before a frame is found, `more` and `length` are 0, too.
#[repr(C)]
#[derive(Clone, Copy)]
pub struct CandidateReplyRecord {
    pub status: u32,
    /// This field and those up to `vcid` are the fields of [`RackReplyRecord`].
    pub queued: u32,
    pub dropped: u32,
    pub event: u8,
    pub accepted: u8,
    pub rest: u8,
    pub vcid: u8,
    /// 1 if more than fill follows the frame, otherwise 0.
    pub more: u8,
    /// The number of octets in the frame, with its frame error control field.
    pub length: u16,
}

/// A status with a place in an array.
#[repr(C)]
#[derive(Clone, Copy)]
pub struct PlaceRecord {
    pub status: u32,
    /// The place, from 0 on, or 0 if the call fails.
    pub place: usize,
}

fn reply_refused(fault: Status) -> RackReplyRecord
    ensures { result ≡ no_rack_reply fault }
{
    RackReplyRecord {
        status: code(fault),
        queued: 0,
        dropped: 0,
        event: 0,
        accepted: 0,
        rest: 0,
        vcid: 0,
    }
}

// Returns the virtual channel id of the channel in a seat, if one is held there.
fn vcid_in(seat: &mut Seat) -> Option<u8>
    ensures vcid { result ≡ option_map (λ (h : LimitedHistory). h.settings.vcid) seat.old.place.channel }
    ensures unchanged { seat.new.place.channel ≡ seat.old.place.channel }
{
    match seat.lend() {
        Some(held) => Some(held.settings().vcid),
        None => None,
    }
}

// Returns the place of the first channel with this id, or `None` if no channel has it.
fn place_of(seats: &mut [Seat], vcid: u8) -> Option<usize>
    ensures place { MatchOption result (¬ IsHeld (channels_in seats.old) vcid)
        (λ place. (h : LimitedHistory) × IsFirstWithVcid (channels_in seats.old) vcid place h) }
    ensures bound { IfSome result (λ place. place < length seats.new) }
    ensures unchanged { channels_in seats.new ≡ channels_in seats.old }
{
    for place in 0..seats.len() {
        if vcid_in(&mut seats[place]) == Some(vcid) {
            return Some(place);
        }
    }
    None
}

// Finds the channel that the frame at the front of the octets is for. Returns the channel's place and its virtual
// channel id, or the first reason why the octets are for none of the channels.
fn located(seats: &mut [Seat], scid: u16, octets: &[u8]) -> Result<(usize, u8), LocateFault>
    ensures located { MatchResult result (λ found. (frame : List ℕ) × (h : LimitedHistory)
        × IsLocatedAmong (channels_in seats.old) scid octets.now found.0 frame h × ((header_of frame).vcid ≡ found.1))
        (IsLocateFaultAmong (channels_in seats.old) scid octets.now) }
    ensures frame { IfOk result (λ _. fault_of octets.now ≡ None) }
    ensures bound { IfOk result (λ found. found.0 < length seats.new) }
    ensures unchanged { channels_in seats.new ≡ channels_in seats.old }
{
    let frame = read_frame(octets).map_err(LocateFault::Frame)?;
    let header = frame.header();
    if header.scid != scid {
        return Err(LocateFault::OtherSpacecraft);
    }
    match place_of(seats, header.vcid) {
        Some(place) => Ok((place, header.vcid)),
        None => Err(LocateFault::UnknownChannel),
    }
}

// Brings the frame at the front of the octets to the channel in a seat, whose id is `vcid`. It uses the call for one
// channel, so that the library has the code for a frame only once.
fn answer(seat: &mut Seat, vcid: u8, octets: &[u8]) -> RackReplyRecord
    ensures answer { IfSome seat.old.place.channel
        (λ h. IfNone (fault_of octets.now) ((frame : List ℕ) × BeginsWith octets.now frame
        × (result ≡ rack_reply vcid (frame_reply_within (limit_of h.limits) h.settings h.journal frame))
        × (seat.new.place.channel ≡ Some (with_limited_event h (Event.Frame frame))))) }
{
    let reply = tcrx_channel_frame_at(seat, octets);
    RackReplyRecord {
        status: reply.status,
        queued: reply.queued,
        dropped: reply.dropped,
        event: reply.event,
        accepted: reply.accepted,
        rest: reply.rest,
        vcid,
    }
}

// Brings the frame at the front of the octets to the channel that the frame is for.
fn bring(seats: &mut [Seat], scid: u16, octets: &[u8]) -> RackReplyRecord
    ensures answer { IsRackReplied (channels_in seats.old) scid octets.now result (channels_in seats.new) }
{
    // By this law, the frame that `answer` takes in is the frame that was located.
    each_input_begins_with_one_frame_at_most();
    match located(seats, scid, octets) {
        Ok((place, vcid)) => answer(&mut seats[place], vcid, octets),
        Err(fault) => reply_refused(locate_fault(fault)),
    }
}

// Checks the frame error control field with which a frame ends, and brings the frame without it to its channel.
fn bring_checked(seats: &mut [Seat], scid: u16, octets: &[u8]) -> RackReplyRecord
    ensures right { IfNone (taking_fault_of octets.now)
        ((frame : List ℕ) × IsWhole frame × (octets.now ≡ frame_with_field frame)
        × IsRackReplied (channels_in seats.old) scid frame result (channels_in seats.new)) }
    ensures wrong { IfSome (taking_fault_of octets.now)
        (λ fault. (result ≡ no_rack_reply (field_status fault)) × (channels_in seats.new ≡ channels_in seats.old)) }
{
    if let Err(fault) = check_taking(octets) {
        return reply_refused(field_fault(fault));
    }
    let mut room = [0; 1022];
    let (plain, _) = room.split_at_mut(octets.len() - 2);
    write_without_field(octets, plain);
    bring(seats, scid, plain)
}

/// Brings the frame at the front of the octets to its channel, if the frame is for the spacecraft (CCSDS 232.0-B,
/// 232.1-B). The frame's channel is the first one in the seats with the frame's virtual channel id. If `fecf` is 1, the
/// octets must be one frame that ends with a frame error control field. That field is checked first and removed. If
/// `fecf` is 0, octets that follow the frame are fill.
///
/// The call fails with BadFlag for another `fecf`. Then, if `fecf` is 1, it fails as `tcrx_check_fecf_at` does. It
/// fails with the first fault of the octets if they begin with no frame, with OtherSpacecraft if the frame is for
/// another spacecraft, and with UnknownChannel if no channel has the frame's virtual channel id. Each channel then
/// stays as it was. Only the calls that create channels request memory.
#[unsafe(no_mangle)]
pub extern "C" fn tcrx_rack_frame_at(
    seats: &mut [Seat],
    scid: u16,
    fecf: u8,
    octets: &[u8],
) -> RackReplyRecord
    ensures bare { fecf ≡ 0 → IsRackReplied (channels_in seats.old) scid octets.now result (channels_in seats.new) }
    ensures right { fecf ≡ 1 → IfNone (taking_fault_of octets.now)
        ((frame : List ℕ) × IsWhole frame × (octets.now ≡ frame_with_field frame)
        × IsRackReplied (channels_in seats.old) scid frame result (channels_in seats.new)) }
    ensures wrong { fecf ≡ 1 → IfSome (taking_fault_of octets.now) (λ fault. result ≡ no_rack_reply (field_status fault)) }
    ensures bad_flag { 1 < fecf → result ≡ no_rack_reply Status.BadFlag }
    ensures refused { 0 < result.status → channels_in seats.new ≡ channels_in seats.old }
{
    match flag(fecf) {
        Ok(false) => bring(seats, scid, octets),
        Ok(true) => bring_checked(seats, scid, octets),
        Err(fault) => reply_refused(fault),
    }
}

// Brings a frame to its channel, with or without a frame error control field at its end.
fn bring_ended(seats: &mut [Seat], scid: u16, ends: bool, frame: &[u8]) -> RackReplyRecord
    ensures replied { IsEndedReplied (channels_in seats.old) scid ends frame.now result (channels_in seats.new) }
{
    if ends {
        bring_checked(seats, scid, frame)
    } else {
        bring(seats, scid, frame)
    }
}

// Returns the reply for a candidate: the reply for its frame, with the length of the frame and the flag `more`.
fn found(reply: RackReplyRecord, length: u16, more: bool) -> CandidateReplyRecord
    ensures { result ≡ candidate_reply reply length more }
{
    CandidateReplyRecord {
        status: reply.status,
        queued: reply.queued,
        dropped: reply.dropped,
        event: reply.event,
        accepted: reply.accepted,
        rest: reply.rest,
        vcid: reply.vcid,
        more: u8::from(more),
        length,
    }
}

// Takes the frame off the front of a candidate, and brings it to its channel.
fn bring_candidate(seats: &mut [Seat], scid: u16, ends: bool, octets: &[u8]) -> CandidateReplyRecord
    ensures replied { IsCandidateReplied (channels_in seats.old) scid ends octets.now result (channels_in seats.new) }
{
    match delimit(octets) {
        Ok(Delimited { frame, rest }) => {
            let reply = bring_ended(seats, scid, ends, frame);
            found(reply, frame.len() as u16, !is_fill(rest))
        }
        Err(fault) => found(reply_refused(frame_fault(fault)), 0, false),
    }
}

/// Brings the frame at the front of a candidate to its channel, as [`tcrx_rack_frame_at`] does. A candidate is the
/// octets that a CLTU carried. The length field determines where the frame ends. The octets after it are fill, or the
/// next frame (frame delimiting and fill removal, and then frame validation: CCSDS 232.0-B).
///
/// The call fails with BadFlag if `fecf` is neither 0 nor 1, then with the first fault of the octets if they begin with
/// no frame. Otherwise it fails as `tcrx_rack_frame_at` does for the frame. If it fails, each channel stays as it was.
#[unsafe(no_mangle)]
pub extern "C" fn tcrx_rack_candidate_at(
    seats: &mut [Seat],
    scid: u16,
    fecf: u8,
    octets: &[u8],
) -> CandidateReplyRecord
    ensures bare { fecf ≡ 0 → IsCandidateReplied (channels_in seats.old) scid false octets.now result (channels_in seats.new) }
    ensures ended { fecf ≡ 1 → IsCandidateReplied (channels_in seats.old) scid true octets.now result (channels_in seats.new) }
    ensures bad_flag { 1 < fecf → (result ≡ no_candidate_reply Status.BadFlag) × (channels_in seats.new ≡ channels_in seats.old) }
{
    match flag(fecf) {
        Ok(ends) => bring_candidate(seats, scid, ends, octets),
        Err(fault) => found(reply_refused(fault), 0, false),
    }
}

/// Returns the place of the first channel in the seats with this virtual channel id. The call fails with UnknownChannel
/// if no channel has the id. Each channel stays as it was.
#[unsafe(no_mangle)]
pub extern "C" fn tcrx_rack_find_at(seats: &mut [Seat], vcid: u8) -> PlaceRecord
    ensures found { result.status ≡ 0 → (h : LimitedHistory) × IsFirstWithVcid (channels_in seats.old) vcid result.place h }
    ensures none { 0 < result.status → (result ≡ no_place Status.UnknownChannel) × ¬ IsHeld (channels_in seats.old) vcid }
    ensures unchanged { channels_in seats.new ≡ channels_in seats.old }
{
    match place_of(seats, vcid) {
        Some(place) => PlaceRecord {
            status: code(Status::Done),
            place,
        },
        None => PlaceRecord {
            status: code(Status::UnknownChannel),
            place: 0,
        },
    }
}
