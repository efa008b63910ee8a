//! The memory that the creation of a channel requests.

ghost use Rattle.std.specs.Prelude.{◌≡◌, ◌<◌, ◌^◌, ◌-◌, min, IfOk, IfErr, Ok};
ghost use Rattle.tc_queues.specs.declared.settings.Settings.{Settings as ChannelSettings};
ghost use Rattle.tc_queues.specs.Settings.{IsAllowed};
ghost use Rattle.tc_fixed.specs.Limits.{AreLimits, limits_of};
ghost use Rattle.tc_fixed.specs.Storage.{storage_of, storage_within};
ghost use Rattle.tc_c_base.specs.declared.status.Status.{Status as StatusName};
ghost use Rattle.tc_c_base.specs.Status.{code_of};
ghost use Rattle.tc_c.specs.Channel.{settings_in_records, limits_given, IsUnfit, IsUnfitWithin, count_record, no_count};

use crate::counts::{CountRecord, counted, not_counted};
use crate::settings::{SettingsRecord, checked, checked_within};
use tc_c_base::Status;
use tc_channel::{MapSetting, QueueSetting};
use tc_fixed::{LentLimits, MapLimit, storage_of_lent, storage_with_lent};

// Returns the bytes of storage for the settings that the records stand for, at most 2^64 - 1, or the first reason why
// no channel can be created from them.
fn storage(
    given: SettingsRecord,
    queues: &[QueueSetting],
    maps: &[MapSetting],
) -> Result<u64, Status>
    ensures storage { IfOk result (λ octets. (s : ChannelSettings) × (settings_in_records given queues.now maps.now ≡ Ok s)
        × IsAllowed s × (octets ≡ min (storage_of s) (2 ^ 64 - 1))) }
    ensures fault { IfErr result (λ fault. IsUnfit (settings_in_records given queues.now maps.now) fault) }
    ensures refusal { IfErr result (λ fault. 0 < code_of fault) }
{
    Ok(storage_of_lent(checked(given, queues, maps)?))
}

// Returns the bytes of storage for the settings that the records stand for, within these limits, at most 2^64 - 1. Or
// returns the first reason why no channel can be created from them.
fn limited_storage(
    given: SettingsRecord,
    queues: &[QueueSetting],
    maps: &[MapSetting],
    limits: LentLimits<'_>,
) -> Result<u64, Status>
    ensures storage { IfOk result (λ octets. (s : ChannelSettings) × (settings_in_records given queues.now maps.now ≡ Ok s)
        × IsAllowed s × AreLimits s (limits_of limits.entry)
        × (octets ≡ min (storage_within s (limits_of limits.entry)) (2 ^ 64 - 1))) }
    ensures fault { IfErr result (λ fault. IsUnfitWithin (settings_in_records given queues.now maps.now) (limits_of limits.entry) fault) }
    ensures refusal { IfErr result (λ fault. 0 < code_of fault) }
{
    Ok(storage_with_lent(checked_within(given, queues, maps, limits)?, limits))
}

/// Returns the number of bytes that `tcrx_channel_new_at` requests for these settings, or 2^64 - 1 if they are more
/// than that. The channel's own block and the copies of both lists aren't counted. No other call of the channel
/// requests memory.
///
/// The call fails with BadFlag for a flag that is neither 0 nor 1, and with the status of the first fault of the
/// settings. If it fails, the count is 0. The call requests no memory.
#[unsafe(no_mangle)]
pub extern "C" fn tcrx_storage_at(
    given: SettingsRecord,
    queues: &[QueueSetting],
    maps: &[MapSetting],
) -> CountRecord
    ensures storage { result.status ≡ 0 → (s : ChannelSettings) × (settings_in_records given queues.now maps.now ≡ Ok s)
        × IsAllowed s × (result ≡ count_record (min (storage_of s) (2 ^ 64 - 1))) }
    ensures fault { 0 < result.status → (fault : StatusName) × IsUnfit (settings_in_records given queues.now maps.now) fault
        × (result ≡ no_count fault) }
{
    match storage(given, queues, maps) {
        Ok(octets) => counted(octets),
        Err(fault) => not_counted(fault),
    }
}

/// Returns the number of bytes that `tcrx_channel_new_with_limits_at` requests for these settings and limits, or
/// 2^64 - 1 if they are more than that. The channel's own block and the copies of the lists and of the limits aren't
/// counted. The call fails as `tcrx_storage_at` does. The faults of the limits come after those of the settings.
#[unsafe(no_mangle)]
pub extern "C" fn tcrx_storage_with_limits_at(
    given: SettingsRecord,
    queues: &[QueueSetting],
    maps: &[MapSetting],
    others: u32,
    limits: &[MapLimit],
) -> CountRecord
    ensures storage { result.status ≡ 0 → (s : ChannelSettings) × (settings_in_records given queues.now maps.now ≡ Ok s)
        × IsAllowed s × AreLimits s (limits_given others limits.now)
        × (result ≡ count_record (min (storage_within s (limits_given others limits.now)) (2 ^ 64 - 1))) }
    ensures fault { 0 < result.status → (fault : StatusName)
        × IsUnfitWithin (settings_in_records given queues.now maps.now) (limits_given others limits.now) fault
        × (result ≡ no_count fault) }
{
    let limits = LentLimits {
        others,
        maps: limits,
    };
    match limited_storage(given, queues, maps, limits) {
        Ok(octets) => counted(octets),
        Err(fault) => not_counted(fault),
    }
}
