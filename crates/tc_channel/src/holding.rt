//! The state of a channel, as a record.

ghost use Rattle.std.specs.Prelude.{◌≡◌, IfOk};
ghost use Rattle.std.specs.List.{filter_map};
ghost use Rattle.tc_queues.specs.Settings.{IsAllowed};
ghost use Rattle.tc_channel.specs.Run.{IsLawful};
ghost use Rattle.tc_channel.specs.Holding.{holding_of, queue_holding, map_holding};

use crate::channel::ChannelWith;
use crate::journal::Journal;
use std::alloc::Global;
use tc_link::Report;
use tc_queues::{Items, MapSetting, NoMemory, QueueSetting};

/// The state of a channel at one moment.
#[derive(Debug, Drop)]
pub struct Holding {
    /// FARM-1's components.
    pub report: Report,
    /// The number of data fields that wait in the buffer.
    pub buffered: usize,
    /// The packet queues, in the order of the settings.
    pub queues: Items<QueueHolding>,
    /// The unit queues of the chosen MAPs, in the order of the settings.
    pub maps: Items<MapHolding>,
}

/// An APID, and the number of packets that wait in its queue.
#[derive(Clone, Copy, Debug, PartialEq, Eq)]
pub struct QueueHolding {
    pub apid: u16,
    pub packets: usize,
}

/// A chosen MAP, and the number of units that wait in its queue.
#[derive(Clone, Copy, Debug, PartialEq, Eq)]
pub struct MapHolding {
    pub map: u8,
    pub units: usize,
}

/// Returns the state of a channel. Only the two lists are allocated, and the call fails if there is no memory for them.
pub fn holding_in<J: Journal>(alloc: Global, channel: &ChannelWith<J>) -> Result<Holding, NoMemory>
    ensures holding { IfOk result (λ holding. holding ≡ holding_of channel.now.settings channel.now.journal) }
    ensures allowed { IsAllowed channel.now.settings }
    ensures lawful { IsLawful channel.now.settings channel.now.journal }
{
    let settings = channel.settings();
    let queues = packets_in(alloc, channel, settings.queues.as_slice())?;
    let maps = units_in(alloc, channel, settings.maps.as_slice())?;
    Ok(Holding {
        report: channel.report(),
        buffered: channel.buffered(),
        queues: Items::from(queues),
        maps: Items::from(maps),
    })
}

fn packets_in<J: Journal>(
    alloc: Global,
    channel: &ChannelWith<J>,
    queues: &[QueueSetting],
) -> Result<Vec<QueueHolding>, NoMemory>
    ensures { IfOk result (λ reported. reported.items ≡ filter_map (queue_holding channel.now.settings channel.now.journal) queues.now) }
{
    let mut reported = Vec::with_capacity(alloc, queues.len())?;
    for queue in queues {
        if let Some(holding) = packets_of(channel, queue) {
            reported.push_reserved(holding);
        }
    }
    Ok(reported)
}

fn packets_of<J: Journal>(channel: &ChannelWith<J>, queue: &QueueSetting) -> Option<QueueHolding>
    ensures { result ≡ queue_holding channel.now.settings channel.now.journal queue.now }
{
    let apid = queue.apid;
    let packets = channel.queued(apid)?;
    Some(QueueHolding { apid, packets })
}

fn units_in<J: Journal>(
    alloc: Global,
    channel: &ChannelWith<J>,
    maps: &[MapSetting],
) -> Result<Vec<MapHolding>, NoMemory>
    ensures { IfOk result (λ reported. reported.items ≡ filter_map (map_holding channel.now.settings channel.now.journal) maps.now) }
{
    let mut reported = Vec::with_capacity(alloc, maps.len())?;
    for chosen in maps {
        if let Some(holding) = units_of(channel, chosen) {
            reported.push_reserved(holding);
        }
    }
    Ok(reported)
}

fn units_of<J: Journal>(channel: &ChannelWith<J>, chosen: &MapSetting) -> Option<MapHolding>
    ensures { result ≡ map_holding channel.now.settings channel.now.journal chosen.now }
{
    let map = chosen.map;
    let units = channel.units(map)?;
    Some(MapHolding { map, units })
}
