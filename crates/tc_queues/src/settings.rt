//! The settings of a channel.

ghost use Rattle.std.specs.Prelude.{◌≡◌, ◌↔◌, Any, IsTrue, IfOk, MatchResult};
ghost use Rattle.tc_queues.specs.Settings.{settings_of, IsVcid, HaveApids, AreApart, HaveCapacities, AreMaps, AreMapsApart, HaveUnitCapacities, HasMapsByHeaders};

use crate::items::Items;
use std::alloc::{AllocError, Global};
use tc_link::Window;
use thiserror::Error;

/// The settings of one packet queue.
#[repr(C)]
#[derive(Clone, Copy, Debug, PartialEq, Eq)]
pub struct QueueSetting {
    /// The application process identifier of its packets, at most 2,046.
    pub apid: u16,
    /// The largest number of packets that the queue holds, 1 to 256.
    pub capacity: u16,
}

/// The settings of one chosen MAP. Its units of both services are delivered whole to one queue (the MAP Access Service
/// of CCSDS 232.0-B).
#[repr(C)]
#[derive(Clone, Copy, Debug, PartialEq, Eq)]
pub struct MapSetting {
    /// The multiplexer access point, at most 63.
    pub map: u8,
    /// The largest number of units that its queue holds, 1 to 256.
    pub capacity: u16,
}

/// The settings from which a channel is created.
#[derive(Debug, Drop, PartialEq, Eq)]
pub struct Settings {
    /// The virtual channel identifier, at most 63.
    pub vcid: u8,
    /// The width of the FARM-1 sliding window, even, 2 to 254.
    pub width: u8,
    /// The largest number of data fields that the buffer holds, 1 to 64.
    pub buffer: u8,
    /// V(R) at the start.
    pub first: u8,
    /// Whether data fields begin with a segment header. On a plain channel they don't, and each data field is a unit by
    /// itself.
    pub segmented: bool,
    /// The packet queues, no two of which have the same APID.
    pub queues: Items<QueueSetting>,
    /// The chosen MAPs, no two of which are the same. A plain channel has none.
    pub maps: Items<MapSetting>,
}

/// Borrowed settings from which a channel is created. Both lists are lent, so reading them takes no memory.
#[derive(Clone, Copy, Debug)]
pub struct LentSettings<'a> {
    pub vcid: u8,
    pub width: u8,
    pub buffer: u8,
    pub first: u8,
    pub segmented: bool,
    pub queues: &'a [QueueSetting],
    pub maps: &'a [MapSetting],
}

/// A reason why no channel was created: the first fault of its settings, in the order of these variants, or that memory
/// ran out.
#[derive(Clone, Copy, Debug, PartialEq, Eq, Error)]
pub enum SettingsFault {
    #[error("bad virtual channel identifier")]
    BadVcid,
    #[error("bad window width")]
    BadWindow,
    #[error("bad buffer size")]
    BadBuffer,
    #[error("bad application process identifier")]
    BadApid,
    #[error("two queues for one application process identifier")]
    DoubleApid,
    #[error("bad queue capacity")]
    BadCapacity,
    #[error("bad multiplexer access point")]
    BadMap,
    #[error("two queues for one multiplexer access point")]
    DoubleMap,
    #[error("bad capacity of a unit queue")]
    BadUnits,
    #[error("a multiplexer access point without segment headers")]
    PlainMap,
    #[error("no memory")]
    NoMemory,
}

impl Settings {
    ghost use Rattle.tc_queues.specs.Settings.{IsAllowed, IsFault};

    /// Returns these settings with both lists lent.
    pub fn lent(&self) -> LentSettings<'_>
        ensures { settings_of result ≡ self.now }
    {
        LentSettings {
            vcid: self.vcid,
            width: self.width,
            buffer: self.buffer,
            first: self.first,
            segmented: self.segmented,
            queues: &self.queues,
            maps: &self.maps,
        }
    }

    /// Checks whether a channel can be created from these settings, and returns their first fault if it can't.
    /// `NoMemory` is never returned.
    pub fn check(&self) -> Result<(), SettingsFault>
        ensures { MatchResult result (λ _. IsAllowed self.now) (IsFault self.now) }
    {
        self.lent().check()
    }
}

impl LentSettings<'_> {
    ghost use Rattle.tc_queues.specs.Settings.{IsAllowed, IsFault};

    /// Returns these settings with a copy of each list, by two allocations.
    pub fn copied(self, alloc: Global) -> Result<Settings, AllocError>
        ensures { IfOk result (λ settings. settings ≡ settings_of self.entry) }
    {
        let queues = Vec::from_slice(alloc, self.queues)?;
        let maps = Vec::from_slice(alloc, self.maps)?;
        Ok(Settings {
            vcid: self.vcid,
            width: self.width,
            buffer: self.buffer,
            first: self.first,
            segmented: self.segmented,
            queues: Items::from(queues),
            maps: Items::from(maps),
        })
    }

    /// Checks whether a channel can be created from these settings, and returns their first fault if it can't.
    /// `NoMemory` is never returned, and no memory is requested.
    #[tactic(auto, unfolding(crate::specs::Settings::IsFault))]
    pub fn check(self) -> Result<(), SettingsFault>
        ensures { MatchResult result (λ _. IsAllowed (settings_of self.entry)) (IsFault (settings_of self.entry)) }
    {
        // Reading the number tells the proof that it is an octet.
        let _first = self.first;
        if !is_vcid(self.vcid) {
            return Err(SettingsFault::BadVcid);
        }
        if Window::new(self.width).is_none() {
            return Err(SettingsFault::BadWindow);
        }
        if self.buffer < 1 || self.buffer > 64 {
            return Err(SettingsFault::BadBuffer);
        }
        if !have_apids(self.queues) {
            return Err(SettingsFault::BadApid);
        }
        if !are_apart(self.queues) {
            return Err(SettingsFault::DoubleApid);
        }
        if !have_capacities(self.queues) {
            return Err(SettingsFault::BadCapacity);
        }
        if !are_maps(self.maps) {
            return Err(SettingsFault::BadMap);
        }
        if !are_maps_apart(self.maps) {
            return Err(SettingsFault::DoubleMap);
        }
        if !have_unit_capacities(self.maps) {
            return Err(SettingsFault::BadUnits);
        }
        if !self.has_maps_by_headers() {
            return Err(SettingsFault::PlainMap);
        }
        Ok(())
    }

    // Returns whether there are segment headers or there is no MAP.
    fn has_maps_by_headers(self) -> bool
        ensures { IsTrue result ↔ HasMapsByHeaders (settings_of self.entry) }
    {
        self.segmented || self.maps.is_empty()
    }
}

fn is_vcid(vcid: u8) -> bool
    ensures { IsTrue result ↔ IsVcid vcid }
{
    vcid <= 63
}

fn have_apids(queues: &[QueueSetting]) -> bool
    ensures { IsTrue result ↔ HaveApids queues.now }
{
    queues.iter().all(|queue| queue.apid <= 2046)
}

fn have_capacities(queues: &[QueueSetting]) -> bool
    ensures { IsTrue result ↔ HaveCapacities queues.now }
{
    queues
        .iter()
        .all(|queue| queue.capacity >= 1 && queue.capacity <= 256)
}

fn are_maps(maps: &[MapSetting]) -> bool
    ensures { IsTrue result ↔ AreMaps maps.now }
{
    maps.iter().all(|map| map.map <= 63)
}

fn have_unit_capacities(maps: &[MapSetting]) -> bool
    ensures { IsTrue result ↔ HaveUnitCapacities maps.now }
{
    maps.iter()
        .all(|map| map.capacity >= 1 && map.capacity <= 256)
}

// Returns whether no two queues have the same APID. Each APID is marked when it is seen, so the check takes one step
// for each queue.
fn are_apart(queues: &[QueueSetting]) -> bool
    requires { HaveApids queues.now }
    ensures { IsTrue result ↔ AreApart queues.now }
{
    let mut seen = [false; 2047];
    for queue in queues {
        let apid = queue.apid as usize;
        if seen[apid] {
            return false;
        }
        seen[apid] = true;
    }
    true
}

// Returns whether this MAP is one of these chosen MAPs.
fn has_map(maps: &[MapSetting], map: u8) -> bool
    ensures { IsTrue result ↔ Any (λ m. m.map ≡ map) maps.now }
{
    maps.iter().any(|other| other.map == map)
}

// Returns whether no MAP is chosen twice.
fn are_maps_apart(maps: &[MapSetting]) -> bool
    ensures { IsTrue result ↔ AreMapsApart maps.now }
{
    for (i, map) in maps.iter().enumerate() {
        if has_map(&maps[..i], map.map) {
            return false;
        }
    }
    true
}
