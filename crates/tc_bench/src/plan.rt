//! The plans of channels.

use crate::station::APID;
use std::alloc::{AllocError, Global};
use tc_channel::{Items, MapSetting, QueueSetting, Settings};

/// The plan of a channel. Its fields are the number of data fields in the buffer, the first APID with a queue, the
/// number of packet queues and of packets in each, the number of chosen MAPs and of units of each, and a flag for
/// segment headers. The chosen MAPs are those with the lowest numbers.
#[derive(Clone, Copy)]
pub(crate) struct Plan {
    pub(crate) buffer: u8,
    pub(crate) apid: u16,
    pub(crate) queues: (u16, u16),
    pub(crate) maps: (u8, u16),
    pub(crate) segmented: bool,
}

/// A plain channel, whose data fields have no segment headers.
pub(crate) const PLAIN: Plan = Plan {
    buffer: 4,
    apid: 0,
    queues: (2, 4),
    maps: (0, 0),
    segmented: false,
};

/// A channel with room for one data field and for one packet.
pub(crate) const SMALL: Plan = Plan {
    buffer: 1,
    apid: 0,
    queues: (1, 1),
    maps: (0, 0),
    segmented: true,
};

/// A channel with chosen MAPs, and with so many queues that its calls find them through a table.
pub(crate) const MANY: Plan = Plan {
    buffer: 64,
    apid: 0,
    queues: (70, 2),
    maps: (3, 3),
    segmented: true,
};

/// The channel that is created with limits.
pub(crate) const LIMITED: Plan = Plan {
    buffer: 8,
    apid: 0,
    queues: (4, 8),
    maps: (0, 0),
    segmented: true,
};

/// The channel on which calls are counted.
pub(crate) const CALLED: Plan = Plan {
    buffer: 4,
    apid: 0,
    queues: (2, 4),
    maps: (1, 4),
    segmented: true,
};

/// The channels of stations, and those on which rounds are made.
pub(crate) const LOADED: Plan = Plan {
    buffer: 4,
    apid: APID,
    queues: (1, 16),
    maps: (0, 0),
    segmented: true,
};

impl Plan {
    /// Returns the settings of a channel of this plan, with a window of width 10 and the first V(R) 0.
    pub(crate) fn settings(&self, alloc: Global, vcid: u8) -> Result<Settings, AllocError> {
        let mut queues = Vec::with_capacity(alloc, usize::from(self.queues.0))?;
        let capacity = self.queues.1;
        for place in 0..self.queues.0 {
            let apid = self.apid.wrapping_add(place);
            queues.push(QueueSetting { apid, capacity })?;
        }
        let mut maps = Vec::with_capacity(alloc, usize::from(self.maps.0))?;
        let capacity = self.maps.1;
        for map in 0..self.maps.0 {
            maps.push(MapSetting { map, capacity })?;
        }
        Ok(Settings {
            vcid,
            width: 10,
            buffer: self.buffer,
            first: 0,
            segmented: self.segmented,
            queues: Items::from(queues),
            maps: Items::from(maps),
        })
    }
}
