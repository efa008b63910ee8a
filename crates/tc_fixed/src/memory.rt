//! The memory that creating a channel requests.

ghost use Rattle.std.specs.Prelude.{◌≡◌, ◌+◌, ◌^◌, ◌-◌, ◌<◌, min};
ghost use Rattle.tc_fixed.specs.Limits.{limits_of, none};
ghost use Rattle.tc_queues.specs.Memory.{buffer_memory, tables_memory};
ghost use Rattle.tc_queues.specs.Settings.{settings_of};
ghost use Rattle.tc_fixed.specs.Storage.{limits_below, queues_in_rooms, runs_storage, storage_of, storage_within};

use crate::limits::{LentLimits, Limits, MAPS};
use tc_channel::{LentSettings, QUEUE_WORDS, ROOM_WORDS, RUN_WORDS, Settings};
use tc_packet::LARGEST_UNIT;

// The number of streams: two services of 64 MAPs.
const STREAMS: u128 = 128;

/// Returns the number of bytes that [`FixedChannelWith::new`](crate::FixedChannelWith::new) requests from its allocator
/// for these settings on a 64-bit machine, provided that a channel can be created from them. The result is 2^64 - 1 if
/// the number is larger. No other call of the channel requests memory. The bytes that an allocator adds to a block
/// aren't counted. The lists of the settings aren't counted either, since the caller has chosen their size. The call
/// takes one step for each queue and each chosen MAP, and requests no memory.
pub fn storage(settings: &Settings) -> u64
    ensures { result ≡ min (storage_of settings.now) (2 ^ 64 - 1) }
{
    storage_of_lent(settings.lent())
}

/// Returns the number that [`storage`] returns, for settings whose lists are lent.
#[tactic(auto, unfolding(crate::specs::Storage::storage_within))]
pub fn storage_of_lent(settings: LentSettings<'_>) -> u64
    ensures { result ≡ min (storage_of (settings_of settings.entry)) (2 ^ 64 - 1) }
{
    all_octets(settings, run_octets(settings), settings.largest_item())
}

/// Returns the number of bytes that [`FixedChannelWith::with_limits`](crate::FixedChannelWith::with_limits) requests
/// for these settings and limits, counted as [`storage`] counts. The call takes one step for each queue, each chosen
/// MAP and each listed limit. For each of the 64 MAPs it takes at most one more step for each listed limit.
pub fn storage_with_limits(settings: &Settings, limits: &Limits) -> u64
    ensures { result ≡ min (storage_within settings.now limits.now) (2 ^ 64 - 1) }
{
    storage_with_lent(settings.lent(), limits.lent())
}

/// Returns the number that [`storage_with_limits`] returns, for settings and limits whose lists are lent.
#[tactic(auto, unfolding(crate::specs::Storage::storage_within))]
pub fn storage_with_lent(settings: LentSettings<'_>, limits: LentLimits<'_>) -> u64
    ensures { result ≡ min (storage_within (settings_of settings.entry) (limits_of limits.entry)) (2 ^ 64 - 1) }
{
    all_octets(
        settings,
        limited_run_octets(settings, limits),
        limits.item_size(settings.segmented) as u128,
    )
}

// Returns the number of all bytes, with `runs` bytes for the streams, and with packets and units of at most `item`
// octets.
fn all_octets(settings: LentSettings<'_>, runs: u128, item: u128) -> u64
    requires runs { runs < 2 ^ 100 }
    requires item { item < 2 ^ 20 }
    ensures { result ≡ min (buffer_memory (settings_of settings.entry) + runs + queues_in_rooms
        (settings_of settings.entry) item + tables_memory (settings_of settings.entry)) (2 ^ 64 - 1) }
{
    let all = settings.buffer_octets()
        + runs
        + queue_octets(settings, item)
        + settings.table_octets();
    match u64::try_from(all) {
        Ok(all) => all,
        Err(_) => u64::MAX,
    }
}

// Returns the number of bytes for the rooms of the streams if there are no limits by MAP.
fn run_octets(settings: LentSettings<'_>) -> u128
    ensures value { result ≡ runs_storage (settings_of settings.entry) none }
    ensures within { result < 2 ^ 100 }
{
    if settings.segmented {
        return STREAMS * (RUN_WORDS + LARGEST_UNIT as u128);
    }
    0
}

// Returns the sum of the limits of all MAPs.
fn all_limits(limits: LentLimits<'_>) -> u128
    ensures value { result ≡ limits_below (limits_of limits.entry) 64 }
    ensures within { result < 2 ^ 80 }
{
    let mut all: u128 = 0;
    for map in 0..MAPS {
        all += u128::from(limits.of(map as u8));
    }
    all
}

// Returns the number of bytes for the rooms of the streams within these limits.
fn limited_run_octets(settings: LentSettings<'_>, limits: LentLimits<'_>) -> u128
    ensures value { result ≡ runs_storage (settings_of settings.entry) (limits_of limits.entry) }
    ensures within { result < 2 ^ 100 }
{
    if settings.segmented {
        return STREAMS * RUN_WORDS + 2 * all_limits(limits);
    }
    0
}

// Returns the number of bytes for the queues and their rooms, with packets and units of at most `item` octets.
fn queue_octets(settings: LentSettings<'_>, item: u128) -> u128
    requires { item < 2 ^ 20 }
    ensures value { result ≡ queues_in_rooms (settings_of settings.entry) item }
    ensures within { result < 2 ^ 110 }
{
    let queues = settings.queues.len() as u128 + settings.maps.len() as u128;
    let items = settings.packets_stored() + settings.units_stored();
    queues * QUEUE_WORDS + items * (ROOM_WORDS + item)
}
