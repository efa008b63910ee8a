//! Copies of settings.

ghost use Rattle.std.specs.Prelude.{◌≡◌, IfOk, IfErr};

use std::alloc::Global;
use tc_queues::{Items, Settings};
use tc_text::Reason;

/// Copies the settings, in their order. The copies take at most as much memory as the originals.
pub(crate) fn copy_each(alloc: Global, list: &[Settings]) -> Result<Vec<Settings>, Reason>
    ensures copies { IfOk result (λ copies. copies.items ≡ list.now) }
    ensures reason { IfErr result (λ reason. reason ≡ Reason.NoMemory) }
{
    let Ok(mut copies) = Vec::with_capacity(alloc, list.len()) else {
        return Err(Reason::NoMemory);
    };
    for settings in list {
        copies.push_reserved(copy_one(alloc, settings)?);
    }
    Ok(copies)
}

fn copy_one(alloc: Global, settings: &Settings) -> Result<Settings, Reason>
    ensures copy { IfOk result (λ copy. copy ≡ settings.now) }
    ensures reason { IfErr result (λ reason. reason ≡ Reason.NoMemory) }
{
    let Ok(queues) = Vec::from_slice(alloc, settings.queues.as_slice()) else {
        return Err(Reason::NoMemory);
    };
    let Ok(maps) = Vec::from_slice(alloc, settings.maps.as_slice()) else {
        return Err(Reason::NoMemory);
    };
    Ok(Settings {
        vcid: settings.vcid,
        width: settings.width,
        buffer: settings.buffer,
        first: settings.first,
        segmented: settings.segmented,
        queues: Items::from(queues),
        maps: Items::from(maps),
    })
}
