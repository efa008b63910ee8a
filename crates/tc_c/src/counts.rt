//! Reports of a channel that C holds: the CLCW, FARM-1 and counts.

ghost use Rattle.std.specs.Prelude.{◌≡◌, ◌^◌, ◌-◌, length, min, Some, None, Ok, IfSome, IfNone, IfOk, IfErr};
ghost use Rattle.tc_channel.specs.Run.{run_within, IsLawfulWithin};
ghost use Rattle.tc_queues.specs.Settings.{IsAllowed};
ghost use Rattle.tc_channel.specs.Era.{CountsUpInItsEraWithin};
ghost use Rattle.tc_channel.specs.Reply.{waiting_packets_within, waiting_units_within, buffered_fields_within, clcw_within};
ghost use Rattle.tc_fixed.specs.Limits.{limit_of};
ghost use Rattle.tc_c_base.specs.Status.{code_of};
ghost use Rattle.tc_c.specs.Farm.{record_of, no_record};
ghost use Rattle.tc_c.specs.Channel.{link_of, count_record, no_count};

use crate::clcw::{ClcwRecord, link, no_word};
use crate::farm::{FarmAnswer, no_farm, record};
use crate::seat::Seat;
use tc_c_base::{Status, code};
use tc_fixed::FixedChannel;

/// A status with a count.
#[repr(C)]
#[derive(Clone, Copy)]
pub struct CountRecord {
    pub status: u32,
    /// The count, or 0 if the call fails.
    pub count: u64,
}

pub(crate) fn counted(count: u64) -> CountRecord
    ensures { result ≡ count_record count }
{
    CountRecord {
        status: code(Status::Done),
        count,
    }
}

pub(crate) fn not_counted(fault: Status) -> CountRecord
    ensures { result ≡ no_count fault }
{
    CountRecord {
        status: code(fault),
        count: 0,
    }
}

fn clcw(channel: &FixedChannel, no_rf: u8, no_bit_lock: u8) -> ClcwRecord
    ensures word { IfOk (link_of no_rf no_bit_lock)
        (λ link. result ≡ record {
          status = code_of Status.Done;
          word = clcw_within (limit_of channel.now.limits) channel.now.settings channel.now.journal link;
        }) }
    ensures refused { IfErr (link_of no_rf no_bit_lock) (λ fault. result ≡ record { status = code_of fault; word = 0 }) }
{
    match link(no_rf, no_bit_lock) {
        Ok(link) => ClcwRecord {
            status: code(Status::Done),
            word: channel.clcw(link),
        },
        Err(fault) => no_word(fault),
    }
}

/// Returns the CLCW of the channel, with the two flags of the link (CCSDS 232.0-B, 4.2). Each flag is 0 or 1.
///
/// The call fails with NoChannel if the seat holds no channel, and with BadFlag for another flag. If it fails, the word
/// is 0. The channel stays as it was.
#[unsafe(no_mangle)]
pub extern "C" fn tcrx_channel_clcw_at(seat: &mut Seat, no_rf: u8, no_bit_lock: u8) -> ClcwRecord
    ensures word { IfSome seat.old.place.channel
        (λ h. IfOk (link_of no_rf no_bit_lock) (λ link. result
        ≡ record { status = code_of Status.Done; word = clcw_within (limit_of h.limits) h.settings h.journal link })) }
    ensures refused { IfSome seat.old.place.channel
        (λ h. IfErr (link_of no_rf no_bit_lock) (λ fault. result ≡ record { status = code_of fault; word = 0 })) }
    ensures no_channel { IfNone seat.old.place.channel (result ≡ record { status = code_of Status.NoChannel; word = 0 }) }
    ensures unchanged { seat.new.place.channel ≡ seat.old.place.channel }
{
    match seat.lend() {
        Some(held) => clcw(held, no_rf, no_bit_lock),
        None => no_word(Status::NoChannel),
    }
}

fn farm_of(channel: &FixedChannel) -> FarmAnswer
    ensures allowed { IsAllowed channel.now.settings }
    ensures lawful { IsLawfulWithin (limit_of channel.now.limits) channel.now.settings channel.now.journal }
    ensures era { CountsUpInItsEraWithin (limit_of channel.now.limits) channel.now.settings channel.now.journal }
    ensures farm { result ≡ record {
      status = code_of Status.Done;
      farm = record_of (record {
        width = channel.now.settings.width;
        report = (run_within (limit_of channel.now.limits) channel.now.settings channel.now.journal).report;
      });
    } }
{
    FarmAnswer {
        status: code(Status::Done),
        farm: record(channel.settings().width, channel.report()),
    }
}

/// Returns the record of the channel's FARM-1, which `tcrx_farm_step` and `tcrx_clcw` can take.
///
/// The call fails with NoChannel if the seat holds no channel, and each number of the record is then 0. The channel
/// stays as it was.
#[unsafe(no_mangle)]
pub extern "C" fn tcrx_channel_report_at(seat: &mut Seat) -> FarmAnswer
    ensures farm { IfSome seat.old.place.channel
        (λ h. result ≡ record {
          status = code_of Status.Done;
          farm = record_of (record {
            width = h.settings.width;
            report = (run_within (limit_of h.limits) h.settings h.journal).report;
          });
        }) }
    ensures no_channel { IfNone seat.old.place.channel (result ≡ record { status = code_of Status.NoChannel; farm = no_record }) }
    ensures unchanged { seat.new.place.channel ≡ seat.old.place.channel }
    ensures allowed { IfSome seat.old.place.channel (λ h. IsAllowed h.settings) }
    ensures lawful { IfSome seat.old.place.channel (λ h. IsLawfulWithin (limit_of h.limits) h.settings h.journal) }
    ensures era { IfSome seat.old.place.channel (λ h. CountsUpInItsEraWithin (limit_of h.limits) h.settings h.journal) }
{
    match seat.lend() {
        Some(held) => farm_of(held),
        None => no_farm(Status::NoChannel),
    }
}

/// Returns the number of data fields that wait in the buffer. The call fails with NoChannel if the seat holds no
/// channel. The channel stays as it was.
#[unsafe(no_mangle)]
pub extern "C" fn tcrx_channel_buffered_at(seat: &mut Seat) -> CountRecord
    ensures count { IfSome seat.old.place.channel
        (λ h. result ≡ count_record (length (buffered_fields_within (limit_of h.limits) h.settings h.journal))) }
    ensures no_channel { IfNone seat.old.place.channel (result ≡ no_count Status.NoChannel) }
    ensures unchanged { seat.new.place.channel ≡ seat.old.place.channel }
{
    match seat.lend() {
        Some(held) => counted(held.buffered() as u64),
        None => not_counted(Status::NoChannel),
    }
}

fn packets(channel: &FixedChannel, apid: u16) -> CountRecord
    ensures count { IfSome (waiting_packets_within (limit_of channel.now.limits) channel.now.settings channel.now.journal apid)
        (λ packets. result ≡ count_record (length packets)) }
    ensures no_queue { IfNone (waiting_packets_within (limit_of channel.now.limits) channel.now.settings channel.now.journal apid)
        (result ≡ no_count Status.NoQueue) }
{
    match channel.queued(apid) {
        Some(count) => counted(count as u64),
        None => not_counted(Status::NoQueue),
    }
}

/// Returns the number of packets that wait in the queue with this APID. The call fails with NoChannel if the seat holds
/// no channel, and with NoQueue if no queue has the APID. The channel stays as it was.
#[unsafe(no_mangle)]
pub extern "C" fn tcrx_channel_queued_at(seat: &mut Seat, apid: u16) -> CountRecord
    ensures count { IfSome seat.old.place.channel
        (λ h. IfSome (waiting_packets_within (limit_of h.limits) h.settings h.journal apid)
        (λ packets. result ≡ count_record (length packets))) }
    ensures no_queue { IfSome seat.old.place.channel
        (λ h. IfNone (waiting_packets_within (limit_of h.limits) h.settings h.journal apid) (result ≡ no_count Status.NoQueue)) }
    ensures no_channel { IfNone seat.old.place.channel (result ≡ no_count Status.NoChannel) }
    ensures unchanged { seat.new.place.channel ≡ seat.old.place.channel }
{
    match seat.lend() {
        Some(held) => packets(held, apid),
        None => not_counted(Status::NoChannel),
    }
}

fn units(channel: &FixedChannel, map: u8) -> CountRecord
    ensures count { IfSome (waiting_units_within (limit_of channel.now.limits) channel.now.settings channel.now.journal map)
        (λ units. result ≡ count_record (length units)) }
    ensures no_map { IfNone (waiting_units_within (limit_of channel.now.limits) channel.now.settings channel.now.journal map)
        (result ≡ no_count Status.NoMap) }
{
    match channel.units(map) {
        Some(count) => counted(count as u64),
        None => not_counted(Status::NoMap),
    }
}

/// Returns the number of units that wait in the queue of this chosen MAP. The call fails with NoChannel if the seat
/// holds no channel, and with NoMap if the MAP isn't chosen. The channel stays as it was.
#[unsafe(no_mangle)]
pub extern "C" fn tcrx_channel_units_at(seat: &mut Seat, map: u8) -> CountRecord
    ensures count { IfSome seat.old.place.channel
        (λ h. IfSome (waiting_units_within (limit_of h.limits) h.settings h.journal map)
        (λ units. result ≡ count_record (length units))) }
    ensures no_map { IfSome seat.old.place.channel
        (λ h. IfNone (waiting_units_within (limit_of h.limits) h.settings h.journal map) (result ≡ no_count Status.NoMap)) }
    ensures no_channel { IfNone seat.old.place.channel (result ≡ no_count Status.NoChannel) }
    ensures unchanged { seat.new.place.channel ≡ seat.old.place.channel }
{
    match seat.lend() {
        Some(held) => units(held, map),
        None => not_counted(Status::NoChannel),
    }
}

/// Returns the number of frames, releases and takes so far, or 2^64 - 1 if there were more than that. The call fails
/// with NoChannel if the seat holds no channel. The channel stays as it was.
#[unsafe(no_mangle)]
pub extern "C" fn tcrx_channel_events_at(seat: &mut Seat) -> CountRecord
    ensures count { IfSome seat.old.place.channel (λ h. result ≡ count_record (min (length h.journal) (2 ^ 64 - 1))) }
    ensures no_channel { IfNone seat.old.place.channel (result ≡ no_count Status.NoChannel) }
    ensures unchanged { seat.new.place.channel ≡ seat.old.place.channel }
{
    match seat.lend() {
        Some(held) => counted(held.events()),
        None => not_counted(Status::NoChannel),
    }
}
