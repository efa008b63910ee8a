//! The queues that a channel starts with.

ghost use Rattle.std.specs.Prelude.{◌≡◌, length, map, replicate, IfOk};
ghost use Rattle.tc_queues.specs.ChannelState.{empty_queue, empty_unit_queue};
ghost use Rattle.tc_queues.specs.StoredQueues.{stored};
ghost use Rattle.tc_queues.specs.Keyed.{rings_in, room_sizes, AreCommitted};

use crate::queue::Queue;
use crate::settings::{MapSetting, QueueSetting};
use std::alloc::{AllocError, Global};
use tc_packet::Room;

/// Creates an empty packet queue for each setting, for packets of at most `size` octets.
pub fn empty_queues<R: Room>(
    alloc: Global,
    settings: &[QueueSetting],
    size: usize,
) -> Result<Vec<Queue<R>>, AllocError>
    ensures rings { IfOk result (λ v. rings_in v.items ≡ map stored (map empty_queue settings.now)) }
    ensures sizes { IfOk result (λ v. room_sizes v.items ≡ replicate (length settings.now) size) }
    ensures committed { IfOk result (λ v. AreCommitted v.items) }
{
    let mut queues = Vec::with_capacity(alloc, settings.len())?;
    for setting in settings {
        let queue: Queue<R> = Queue::with_capacity(alloc, setting.apid, setting.capacity, size)?;
        queues.push_reserved(queue);
    }
    Ok(queues)
}

/// Creates an empty unit queue for each chosen MAP, for units of at most `size` octets.
pub fn empty_unit_queues<R: Room>(
    alloc: Global,
    maps: &[MapSetting],
    size: usize,
) -> Result<Vec<Queue<R>>, AllocError>
    ensures rings { IfOk result (λ v. rings_in v.items ≡ map stored (map empty_unit_queue maps.now)) }
    ensures sizes { IfOk result (λ v. room_sizes v.items ≡ replicate (length maps.now) size) }
    ensures committed { IfOk result (λ v. AreCommitted v.items) }
{
    let mut units = Vec::with_capacity(alloc, maps.len())?;
    for chosen in maps {
        let queue: Queue<R> = Queue::with_capacity(
            alloc,
            chosen.map as u16,
            chosen.capacity,
            size,
        )?;
        units.push_reserved(queue);
    }
    Ok(units)
}
