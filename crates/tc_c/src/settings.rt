//! The settings and the limits of a channel as records.

ghost use Rattle.std.specs.Prelude.{◌≡◌, ◌<◌, IfOk, IfErr, IfSome, IfNone, MatchResult, Ok, Err, Some, []};
ghost use Rattle.tc_queues.specs.declared.settings.Settings.{Settings as ChannelSettings};
ghost use Rattle.tc_c_base.specs.declared.status.Status.{Status as StatusName};
ghost use Rattle.tc_c_base.specs.Status.{code_of};
ghost use Rattle.tc_queues.specs.Settings.{settings_of as owned_of, IsAllowed};
ghost use Rattle.tc_fixed.specs.Limits.{AreLimits, limits_of, none};
ghost use Rattle.tc_c.specs.Channel.{settings_in_records, limits_given, IsUnfit, IsUnfitWithin, IsRefusedBy, IsRefusedWithin};

use crate::farm::flag;
use crate::seat::Seat;
use crate::status::{limits_fault, settings_fault};
use std::alloc::Global;
use tc_c_base::{Status, code};
use tc_channel::{LentSettings, MapSetting, QueueSetting};
use tc_fixed::{FixedChannel, LentLimits, MapLimit};

/// The settings from which a channel is created, without its queues. The queues are given as lists of `QueueSetting`
/// and `MapSetting`.
#[repr(C)]
#[derive(Clone, Copy)]
pub struct SettingsRecord {
    /// The virtual channel id, 0 to 63.
    pub vcid: u8,
    /// The width of the sliding window, even and 2 to 254.
    pub width: u8,
    /// The largest number of data fields that the buffer holds, 1 to 64.
    pub buffer: u8,
    /// V(R) at the start.
    pub first: u8,
    /// 1 if data fields begin with a segment header, otherwise 0.
    pub segmented: u8,
}

/// Returns the settings that the records stand for, or BadFlag if `segmented` is neither 0 nor 1. The settings borrow
/// both lists.
fn lent<'a>(
    given: SettingsRecord,
    queues: &'a [QueueSetting],
    maps: &'a [MapSetting],
) -> Result<LentSettings<'a>, Status>
    ensures settings { MatchResult result (λ lent. settings_in_records given queues.now maps.now ≡ Ok (owned_of lent))
        (λ fault. settings_in_records given queues.now maps.now ≡ Err fault) }
    ensures refusal { IfErr result (λ fault. 0 < code_of fault) }
{
    let segmented = flag(given.segmented)?;
    Ok(LentSettings {
        vcid: given.vcid,
        width: given.width,
        buffer: given.buffer,
        first: given.first,
        segmented,
        queues,
        maps,
    })
}

/// Returns the settings that the records stand for, if a channel can be created from them, otherwise the first reason
/// why none can.
pub(crate) fn checked<'a>(
    given: SettingsRecord,
    queues: &'a [QueueSetting],
    maps: &'a [MapSetting],
) -> Result<LentSettings<'a>, Status>
    ensures settings { IfOk result (λ lent. settings_in_records given queues.now maps.now ≡ Ok (owned_of lent)) }
    ensures allowed { IfOk result (λ lent. IsAllowed (owned_of lent)) }
    ensures fault { IfErr result (λ fault. IsUnfit (settings_in_records given queues.now maps.now) fault) }
    ensures refusal { IfErr result (λ fault. 0 < code_of fault) }
{
    let lent = lent(given, queues, maps)?;
    match lent.check() {
        Ok(()) => Ok(lent),
        Err(fault) => Err(settings_fault(fault)),
    }
}

/// Returns the settings that the records stand for, if a channel can be created from them within these limits,
/// otherwise the first reason why none can.
pub(crate) fn checked_within<'a>(
    given: SettingsRecord,
    queues: &'a [QueueSetting],
    maps: &'a [MapSetting],
    limits: LentLimits<'_>,
) -> Result<LentSettings<'a>, Status>
    ensures settings { IfOk result (λ lent. settings_in_records given queues.now maps.now ≡ Ok (owned_of lent)) }
    ensures allowed { IfOk result (λ lent. IsAllowed (owned_of lent) × AreLimits (owned_of lent) (limits_of limits.entry)) }
    ensures fault { IfErr result (λ fault. IsUnfitWithin (settings_in_records given queues.now maps.now) (limits_of limits.entry) fault) }
    ensures refusal { IfErr result (λ fault. 0 < code_of fault) }
{
    let lent = lent(given, queues, maps)?;
    match limits.check(lent) {
        Ok(()) => Ok(lent),
        Err(fault) => Err(limits_fault(fault)),
    }
}

// Creates a channel from the settings that the records stand for.
fn channel(
    alloc: Global,
    given: SettingsRecord,
    queues: &[QueueSetting],
    maps: &[MapSetting],
) -> Result<Box<FixedChannel>, Status>
    ensures made { IfOk result (λ held. (s : ChannelSettings) × (settings_in_records given queues.now maps.now ≡ Ok s)
        × IsAllowed s × (held.value ≡ record { settings = s; limits = none; journal = [] })) }
    ensures fault { IfErr result (λ fault. IsRefusedBy (settings_in_records given queues.now maps.now) fault) }
    ensures refusal { IfErr result (λ fault. 0 < code_of fault) }
{
    let lent = checked(given, queues, maps)?;
    let settings = lent.copied(alloc).map_err(|_| Status::NoMemory)?;
    let channel = FixedChannel::new(alloc, settings).map_err(|_| Status::NoMemory)?;
    match Box::new(alloc, channel) {
        Ok(held) => Ok(held),
        Err(_) => Err(Status::NoMemory),
    }
}

// Creates a channel from the settings that the records stand for, within these limits.
fn channel_within(
    alloc: Global,
    given: SettingsRecord,
    queues: &[QueueSetting],
    maps: &[MapSetting],
    limits: LentLimits<'_>,
) -> Result<Box<FixedChannel>, Status>
    ensures made { IfOk result (λ held. (s : ChannelSettings) × (settings_in_records given queues.now maps.now ≡ Ok s)
        × IsAllowed s × AreLimits s (limits_of limits.entry)
        × (held.value ≡ record { settings = s; limits = limits_of limits.entry; journal = [] })) }
    ensures fault { IfErr result (λ fault. IsRefusedWithin (settings_in_records given queues.now maps.now) (limits_of limits.entry) fault) }
    ensures refusal { IfErr result (λ fault. 0 < code_of fault) }
{
    let lent = checked_within(given, queues, maps, limits)?;
    let Ok(settings) = lent.copied(alloc) else {
        return Err(Status::NoMemory);
    };
    let Ok(limits) = limits.copied(alloc) else {
        return Err(Status::NoMemory);
    };
    let Ok(channel) = FixedChannel::with_limits(alloc, settings, limits) else {
        return Err(Status::NoMemory);
    };
    match Box::new(alloc, channel) {
        Ok(held) => Ok(held),
        Err(_) => Err(Status::NoMemory),
    }
}

/// Creates a channel with these settings, without limits by MAP, in a seat that holds no channel. The channel stays
/// there until it is freed. All memory that it ever has is requested here: as many bytes as `tcrx_storage_at` returns,
/// the channel's own block, and a copy of each list.
///
/// The call fails with InUse if the seat holds a channel, with BadFlag for a flag that is neither 0 nor 1, and with the
/// status of the first fault of the settings. It fails with NoMemory if the settings have no fault and there is too
/// little memory. The seat then stays as it was.
#[unsafe(no_mangle)]
pub extern "C" fn tcrx_channel_new_at(
    alloc: Global,
    seat: &mut Seat,
    given: SettingsRecord,
    queues: &[QueueSetting],
    maps: &[MapSetting],
) -> u32
    ensures made { IfNone seat.old.place.channel
        (result ≡ 0 → (s : ChannelSettings) × (settings_in_records given queues.now maps.now ≡ Ok s) × IsAllowed s
        × (seat.new.place.channel ≡ Some (record { settings = s; limits = none; journal = [] }))) }
    ensures fault { IfNone seat.old.place.channel
        (0 < result → (fault : StatusName) × IsRefusedBy (settings_in_records given queues.now maps.now) fault
        × (result ≡ code_of fault)) }
    ensures in_use { IfSome seat.old.place.channel (λ _. result ≡ code_of Status.InUse) }
    ensures refused { 0 < result → seat.new.place.channel ≡ seat.old.place.channel }
{
    if seat.holds() {
        return code(Status::InUse);
    }
    match channel(alloc, given, queues, maps) {
        Ok(held) => {
            seat.put(held);
            code(Status::Done)
        }
        Err(fault) => code(fault),
    }
}

/// Creates a channel with these settings within limits by MAP, in a seat that holds no channel. All memory that it ever
/// has is requested here: as many bytes as `tcrx_storage_with_limits_at` returns, the channel's own block, and a copy
/// of each list and of the limits. A unit with more octets than its MAP's limit is dropped when it ends, and no reply
/// reports that.
///
/// The call fails as `tcrx_channel_new_at` does. The faults of the limits come after those of the settings, and each
/// has its own status.
#[unsafe(no_mangle)]
pub extern "C" fn tcrx_channel_new_with_limits_at(
    alloc: Global,
    seat: &mut Seat,
    given: SettingsRecord,
    queues: &[QueueSetting],
    maps: &[MapSetting],
    others: u32,
    limits: &[MapLimit],
) -> u32
    ensures made { IfNone seat.old.place.channel
        (result ≡ 0 → (s : ChannelSettings) × (settings_in_records given queues.now maps.now ≡ Ok s) × IsAllowed s
        × AreLimits s (limits_given others limits.now)
        × (seat.new.place.channel ≡ Some (record { settings = s; limits = limits_given others limits.now; journal = [] }))) }
    ensures fault { IfNone seat.old.place.channel
        (0 < result → (fault : StatusName) × IsRefusedWithin (settings_in_records given queues.now maps.now)
        (limits_given others limits.now) fault × (result ≡ code_of fault)) }
    ensures in_use { IfSome seat.old.place.channel (λ _. result ≡ code_of Status.InUse) }
    ensures refused { 0 < result → seat.new.place.channel ≡ seat.old.place.channel }
{
    if seat.holds() {
        return code(Status::InUse);
    }
    let limits = LentLimits {
        others,
        maps: limits,
    };
    match channel_within(alloc, given, queues, maps, limits) {
        Ok(held) => {
            seat.put(held);
            code(Status::Done)
        }
        Err(fault) => code(fault),
    }
}
