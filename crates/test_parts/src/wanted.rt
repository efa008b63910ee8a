//! Settings given as data.

ghost use Rattle.std.specs.Prelude.{◌≡◌, IfOk};

use crate::growths::room;
use std::alloc::{AllocError, Global};
use tc_channel::{Items, MapSetting, QueueSetting, Settings};

/// Settings as data.
#[derive(Clone, Copy)]
pub struct Wanted<'a> {
    /// The virtual channel id.
    pub vcid: u8,
    /// The width of the window.
    pub width: u8,
    /// The number of data fields that the buffer holds.
    pub buffer: u8,
    /// The first V(R).
    pub first: u8,
    /// A flag that is set if data fields have segment headers.
    pub segmented: bool,
    /// The APIDs and capacities of the packet queues.
    pub queues: &'a [(u16, u16)],
    /// The chosen MAPs and the capacities of their queues.
    pub maps: &'a [(u8, u16)],
}

/// Virtual channel 1 with a window of width 10, room for one field, the first V(R) 0, segment headers, a queue of
/// capacity 1 for APID 5, and no chosen MAP.
pub const WANTED: Wanted<'static> = Wanted {
    vcid: 1,
    width: 10,
    buffer: 1,
    first: 0,
    segmented: true,
    queues: &[(5, 1)],
    maps: &[],
};

fn queues_of(alloc: Global, wanted: &[(u16, u16)]) -> Result<Items<QueueSetting>, AllocError> {
    let mut queues = room(alloc, wanted.len())?;
    for &(apid, capacity) in wanted {
        queues.push(QueueSetting { apid, capacity })?;
    }
    Ok(Items::from(queues))
}

fn maps_of(alloc: Global, wanted: &[(u8, u16)]) -> Result<Items<MapSetting>, AllocError> {
    let mut maps = room(alloc, wanted.len())?;
    for &(map, capacity) in wanted {
        maps.push(MapSetting { map, capacity })?;
    }
    Ok(Items::from(maps))
}

/// Creates the wanted settings, even if memory is refused once.
pub fn settings(alloc: Global, wanted: &Wanted<'_>) -> Result<Settings, AllocError>
    ensures { IfOk result (λ settings. settings.vcid ≡ wanted.now.vcid) }
{
    Ok(Settings {
        vcid: wanted.vcid,
        width: wanted.width,
        buffer: wanted.buffer,
        first: wanted.first,
        segmented: wanted.segmented,
        queues: queues_of(alloc, wanted.queues)?,
        maps: maps_of(alloc, wanted.maps)?,
    })
}
