//! The bound of a channel's memory, computed from its settings.

ghost use Rattle.std.specs.Prelude.{◌≡◌, ◌^◌, ◌-◌, ◌<◌, min, sum_by};
ghost use Rattle.tc_queues.specs.declared.settings.QueueSetting.{QueueSetting};
ghost use Rattle.tc_queues.specs.declared.settings.MapSetting.{MapSetting};
ghost use Rattle.tc_queues.specs.Settings.{settings_of};
ghost use Rattle.tc_queues.specs.Memory.{buffer_memory, largest_item, memory_bound, packets_stored, queues_memory, runs_memory, segment_memory, table_memory, tables_memory, units_stored};

use crate::places::{KEYS, QUEUES_FOR_A_TABLE};
use crate::settings::{LentSettings, MapSetting, QueueSetting, Settings};
use tc_packet::LARGEST_UNIT;

/// The largest length of a data field in octets. A frame has at most 1,024 octets (CCSDS 232.0-B, 4.1.2.7), and 5 of
/// them are its primary header.
pub const LARGEST_FIELD: usize = 1_019;

/// The number of bytes that a room itself takes, besides its octets: the address and the capacity of its block, the
/// number of octets in it, and the largest number that it may hold.
pub const ROOM_WORDS: u128 = 32;

/// The number of bytes that a run itself takes, besides its octets: its room, whether the run is open, and the number
/// of its octets.
pub const RUN_WORDS: u128 = 40;

/// The number of bytes that a queue itself takes, besides its rooms: its key, the ring of its rooms, the numbers of
/// waiting and of staged items, and the size of a room.
pub const QUEUE_WORDS: u128 = 64;

// The number of bytes in each entry of a table of places.
const PLACE_WORDS: u128 = 2;

// The largest number of bytes in the block of a run, which doubles until it can hold the largest unit.
const RUN_ROOM: u128 = 131_072;

// The number of streams: two services of 64 MAPs.
const STREAMS: u128 = 128;

impl Settings {
    /// Returns a bound on the bytes that a `tc_channel::CountingChannel` of these settings holds at any moment from the
    /// start of `new` on, on a machine with 64-bit addresses. The channel holds the bytes that it has requested from
    /// its allocator and not freed. The result is 2^64 - 1 if the bound is larger. Bytes that the allocator adds to a
    /// block, or holds twice while it moves a block, aren't counted. The lists of these settings aren't counted either,
    /// since the caller has chosen their size. The call takes a step for each queue and each MAP, and no memory.
    pub fn memory_bound(&self) -> u64
        ensures { result ≡ min (memory_bound self.now) (2 ^ 64 - 1) }
    {
        self.lent().memory_bound()
    }
}

impl LentSettings<'_> {
    /// Returns the bound that [`Settings::memory_bound`] returns for settings with these lists.
    #[tactic(auto, unfolding(crate::specs::Memory::memory_bound))]
    pub fn memory_bound(self) -> u64
        ensures { result ≡ min (memory_bound (settings_of self.entry)) (2 ^ 64 - 1) }
    {
        let all = self.buffer_octets()
            + run_octets(self)
            + queue_octets(self)
            + self.table_octets()
            + segment_octets(self);
        match u64::try_from(all) {
            Ok(all) => all,
            Err(_) => u64::MAX,
        }
    }

    /// Returns the largest number of packets that the packet queues hold together.
    pub fn packets_stored(self) -> u128
        ensures value { result ≡ packets_stored (settings_of self.entry) }
        ensures within { result < 2 ^ 80 }
    {
        stored_packets(self.queues)
    }

    /// Returns the largest number of units that the unit queues hold together.
    pub fn units_stored(self) -> u128
        ensures value { result ≡ units_stored (settings_of self.entry) }
        ensures within { result < 2 ^ 80 }
    {
        stored_units(self.maps)
    }

    /// Returns the number of octets in the largest packet. On a plain channel it is as long as the largest data field,
    /// and otherwise as long as the largest unit.
    pub fn largest_item(self) -> u128
        ensures value { result ≡ largest_item self.entry.segmented }
        ensures within { result < 2 ^ 20 }
    {
        if self.segmented {
            LARGEST_UNIT as u128
        } else {
            LARGEST_FIELD as u128
        }
    }

    /// Returns the number of bytes in the rooms of the buffer, if each holds the largest data field.
    pub fn buffer_octets(self) -> u128
        ensures value { result ≡ buffer_memory (settings_of self.entry) }
        ensures within { result < 2 ^ 100 }
    {
        u128::from(self.buffer) * (ROOM_WORDS + LARGEST_FIELD as u128)
    }

    /// Returns the number of bytes in the tables by which queues are found. There is a table for the packet queues if
    /// there are 8 or more packet queues, and a table for the unit queues if there are 8 or more unit queues.
    pub fn table_octets(self) -> u128
        ensures value { result ≡ tables_memory (settings_of self.entry) }
        ensures within { result < 2 ^ 20 }
    {
        table_of(self.queues.len()) + table_of(self.maps.len())
    }
}

// Returns the largest number of packets that the packet queues hold together.
fn stored_packets(queues: &[QueueSetting]) -> u128
    ensures value { result ≡ sum_by (λ (q : QueueSetting). q.capacity) queues.now }
    ensures within { result < 2 ^ 80 }
{
    let mut stored: u128 = 0;
    for queue in queues {
        stored += u128::from(queue.capacity);
    }
    stored
}

// Returns the largest number of units that the unit queues hold together.
fn stored_units(maps: &[MapSetting]) -> u128
    ensures value { result ≡ sum_by (λ (m : MapSetting). m.capacity) maps.now }
    ensures within { result < 2 ^ 80 }
{
    let mut stored: u128 = 0;
    for chosen in maps {
        stored += u128::from(chosen.capacity);
    }
    stored
}

// Returns the number of bytes in the runs, if the run of each stream has the largest block. A plain channel has no
// runs.
fn run_octets(settings: LentSettings<'_>) -> u128
    ensures value { result ≡ runs_memory (settings_of settings.entry) }
    ensures within { result < 2 ^ 100 }
{
    if settings.segmented {
        STREAMS * (RUN_WORDS + RUN_ROOM)
    } else {
        0
    }
}

// Returns the number of bytes in the queues when they are full of the largest packets and units.
fn queue_octets(settings: LentSettings<'_>) -> u128
    ensures value { result ≡ queues_memory (settings_of settings.entry) }
    ensures within { result < 2 ^ 110 }
{
    let queues = settings.queues.len() as u128 + settings.maps.len() as u128;
    queues * QUEUE_WORDS
        + settings.packets_stored() * (ROOM_WORDS + settings.largest_item())
        + settings.units_stored() * (ROOM_WORDS + LARGEST_UNIT as u128)
}

// Returns the number of bytes in the table of places for this number of queues. There is none for fewer than 8 queues.
fn table_of(queues: usize) -> u128
    ensures { result ≡ table_memory queues }
{
    if queues < QUEUES_FOR_A_TABLE {
        0
    } else {
        KEYS as u128 * PLACE_WORDS
    }
}

// Returns the largest number of bytes in the new block of a run whose old block is still held. A first segment that is
// too long for the old block is copied into a new block, and then the old block is freed. A plain channel has no runs,
// so the result is 0.
fn segment_octets(settings: LentSettings<'_>) -> u128
    ensures value { result ≡ segment_memory (settings_of settings.entry) }
    ensures within { result < 2 ^ 20 }
{
    if settings.segmented {
        LARGEST_FIELD as u128
    } else {
        0
    }
}
