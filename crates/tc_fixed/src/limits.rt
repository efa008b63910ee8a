//! The limits on the length of units, by MAP.

ghost use Rattle.std.specs.Prelude.{ℕ, ◌≡◌, ◌<◌, ◌≤◌, ◌↔◌, IfOk, IsTrue, MatchResult, get_or};
ghost use Rattle.tc_queues.specs.declared.settings.MapSetting.{MapSetting};
ghost use Rattle.tc_queues.specs.Settings.{IsAllowed, settings_of};
ghost use Rattle.std.specs.List.{AllByRecursion};
ghost use Rattle.tc_packet.specs.Reassembly.{largest_unit};
ghost use Rattle.tc_fixed.specs.Limits.{IsOthers, AreLimitedMaps, AreLimitedMapsApart, HaveOctets, LimitsMapsByHeaders, AreListed, IsListed, AreLimits, IsFaultWithLimits, IsLimitsFault, item_size, largest_limit, limit_of, limits_of, none};

use std::alloc::{AllocError, Global};
use tc_channel::{Items, LARGEST_FIELD, LentSettings, MapSetting, Settings, SettingsFault};
use tc_packet::LARGEST_UNIT;
use thiserror::Error;

/// The number of MAPs, whose ids have six bits (CCSDS 232.0-B, 4.1.3.2.2).
pub(crate) const MAPS: usize = 64;

/// The limit on the length of one MAP's units.
#[repr(C)]
#[derive(Clone, Copy, Debug, PartialEq, Eq)]
pub struct MapLimit {
    /// The multiplexer access point, at most 63.
    pub map: u8,
    /// The largest number of octets in a unit, 1 to 65,542.
    pub octets: u32,
}

/// The limits on the length of units, by MAP. A longer unit is dropped. Without limits, only a unit of more than 65,542
/// octets is dropped.
#[derive(Debug, Drop, PartialEq, Eq)]
pub struct Limits {
    /// The largest number of octets in a unit of each MAP that isn't listed, at most 65,542. If there are segment
    /// headers, this number may be 0, and such a MAP then completes only empty units. On a plain channel this is the
    /// limit of each data field.
    pub others: u32,
    /// The MAPs with a limit of their own. No MAP is listed twice, and none is listed on a plain channel.
    pub maps: Items<MapLimit>,
}

/// Limits whose list is lent, so that they can be examined without memory.
#[derive(Clone, Copy, Debug)]
pub struct LentLimits<'a> {
    pub others: u32,
    pub maps: &'a [MapLimit],
}

/// The first fault, in this order, of settings and limits with which no channel can be created.
#[derive(Clone, Copy, Debug, PartialEq, Eq, Error)]
pub enum LimitsFault {
    /// The settings have this fault. `NoMemory` means that neither the settings nor the limits have a fault, and memory
    /// ran out.
    #[error(transparent)]
    Settings(SettingsFault),
    #[error("bad limit of the other multiplexer access points")]
    BadOthers,
    #[error("bad multiplexer access point of a limit")]
    BadMap,
    #[error("two limits of one multiplexer access point")]
    DoubleMap,
    #[error("bad limit of a multiplexer access point")]
    BadLimit,
    #[error("a limit of a multiplexer access point without segment headers")]
    PlainMap,
    /// A chosen MAP isn't listed, and the limit of the others is 0.
    #[error("no limit of a chosen multiplexer access point")]
    UnlistedMap,
}

impl From<SettingsFault> for LimitsFault {
    ghost use Rattle.tc_fixed.specs.Limits.{of_settings};

    ghost from_gives = { λ fault e. e ≡ of_settings fault };

    fn from(fault: SettingsFault) -> LimitsFault {
        LimitsFault::Settings(fault)
    }
}

impl Limits {
    /// Returns limits that list no MAP, so that a unit of each MAP may have up to 65,542 octets. They take no memory.
    pub fn none(alloc: Global) -> Limits
        ensures { result ≡ none }
    {
        Limits {
            others: LARGEST_UNIT as u32,
            maps: Items::from(Vec::new(alloc)),
        }
    }

    /// Returns these limits, with the list lent.
    pub fn lent(&self) -> LentLimits<'_>
        ensures { limits_of result ≡ self.now }
    {
        LentLimits {
            others: self.others,
            maps: &self.maps,
        }
    }

    /// Returns the largest number of octets in a unit of this MAP.
    pub fn of(&self, map: u8) -> u32
        ensures { result ≡ limit_of self.now map }
    {
        self.lent().of(map)
    }

    /// Checks whether a channel can be created with these settings and limits. `NoMemory` is never returned, and no
    /// memory is requested.
    pub fn check(&self, settings: &Settings) -> Result<(), LimitsFault>
        ensures { MatchResult result (λ _. IsAllowed settings.now × AreLimits settings.now self.now) (IsFaultWithLimits settings.now self.now) }
    {
        self.lent().check(settings.lent())
    }

    // Returns the largest number of octets in a packet or a unit.
    pub(crate) fn item_size(&self, segmented: bool) -> usize
        ensures size { result ≡ item_size self.now segmented }
        ensures within { result ≤ LARGEST_UNIT }
    {
        self.lent().item_size(segmented)
    }

    // Returns the largest number of octets in a unit, for each MAP.
    pub(crate) fn table(&self) -> [usize; MAPS]
        requires others { self.now.others ≤ largest_unit }
        requires octets { HaveOctets self.now.maps }
        ensures small { AllByRecursion (λ n. n ≤ largest_unit) result }
        ensures limits { (map_id : ℕ) → map_id < 64 → get_or result map_id 0 ≡ limit_of self.now map_id }
    {
        let mut table = [0; MAPS];
        for map in 0..MAPS {
            table[map] = self.of(map as u8) as usize;
        }
        table
    }
}

impl LentLimits<'_> {
    /// Returns these limits, with a copy of the list, which is the only allocation.
    pub fn copied(self, alloc: Global) -> Result<Limits, AllocError>
        ensures { IfOk result (λ limits. limits ≡ limits_of self.entry) }
    {
        let maps = Vec::from_slice(alloc, self.maps)?;
        Ok(Limits {
            others: self.others,
            maps: Items::from(maps),
        })
    }

    /// Returns the largest number of octets in a unit of this MAP.
    pub fn of(self, map: u8) -> u32
        ensures { result ≡ limit_of (limits_of self.entry) map }
    {
        for limit in self.maps {
            if limit.map == map {
                return limit.octets;
            }
        }
        self.others
    }

    /// Checks whether a channel can be created with these settings and limits. `NoMemory` is never returned, and no
    /// memory is requested.
    pub fn check(self, settings: LentSettings<'_>) -> Result<(), LimitsFault>
        ensures { MatchResult result (λ _. IsAllowed (settings_of settings.entry)
            × AreLimits (settings_of settings.entry) (limits_of self.entry))
            (IsFaultWithLimits (settings_of settings.entry) (limits_of self.entry)) }
    {
        settings.check()?;
        self.check_alone(settings)
    }

    // Checks whether a channel with these settings can have these limits.
    #[tactic(auto, unfolding(crate::specs::Limits::IsLimitsFault))]
    fn check_alone(self, settings: LentSettings<'_>) -> Result<(), LimitsFault>
        ensures { MatchResult result (λ _. AreLimits (settings_of settings.entry) (limits_of self.entry))
            (IsLimitsFault (settings_of settings.entry) (limits_of self.entry)) }
    {
        if !is_others(self.others, settings.segmented) {
            return Err(LimitsFault::BadOthers);
        }
        if !are_maps(self.maps) {
            return Err(LimitsFault::BadMap);
        }
        if !are_maps_apart(self.maps) {
            return Err(LimitsFault::DoubleMap);
        }
        if !have_octets(self.maps) {
            return Err(LimitsFault::BadLimit);
        }
        if !has_maps_by_headers(self.maps, settings.segmented) {
            return Err(LimitsFault::PlainMap);
        }
        if !are_listed(self, settings.maps) {
            return Err(LimitsFault::UnlistedMap);
        }
        Ok(())
    }

    // Returns the largest of `others` and the listed limits.
    fn largest(self) -> u32
        ensures { result ≡ largest_limit (limits_of self.entry) }
    {
        let mut largest = self.others;
        for limit in self.maps {
            largest = largest.max(limit.octets);
        }
        largest
    }

    // Returns the largest number of octets in a packet or a unit.
    pub(crate) fn item_size(self, segmented: bool) -> usize
        ensures size { result ≡ item_size (limits_of self.entry) segmented }
        ensures within { result ≤ LARGEST_UNIT }
    {
        let largest = if segmented {
            LARGEST_UNIT
        } else {
            LARGEST_FIELD
        };
        largest.min(self.largest() as usize)
    }
}

fn is_others(others: u32, segmented: bool) -> bool
    ensures { IsTrue result ↔ IsOthers others segmented }
{
    others as usize <= LARGEST_UNIT && (segmented || others >= 1)
}

fn are_maps(maps: &[MapLimit]) -> bool
    ensures { IsTrue result ↔ AreLimitedMaps maps.now }
{
    maps.iter().all(|limit| limit.map <= 63)
}

fn have_octets(maps: &[MapLimit]) -> bool
    ensures { IsTrue result ↔ HaveOctets maps.now }
{
    maps.iter().all(|limit| limit.octets >= 1 && limit.octets as usize <= LARGEST_UNIT)
}

// Returns whether there are segment headers or no MAP is listed.
fn has_maps_by_headers(maps: &[MapLimit], segmented: bool) -> bool
    ensures { IsTrue result ↔ LimitsMapsByHeaders maps.now segmented }
{
    segmented || maps.is_empty()
}

// Returns whether this MAP is listed.
fn has_map(maps: &[MapLimit], map: u8) -> bool
    ensures { IsTrue result ↔ IsListed maps.now map }
{
    maps.iter().any(|other| other.map == map)
}

// Returns whether no MAP is listed twice.
fn are_maps_apart(maps: &[MapLimit]) -> bool
    ensures { IsTrue result ↔ AreLimitedMapsApart maps.now }
{
    for (i, limit) in maps.iter().enumerate() {
        if has_map(&maps[..i], limit.map) {
            return false;
        }
    }
    true
}

// Returns whether each chosen MAP is listed or the limit of the MAPs that aren't listed is more than 0.
fn are_listed(limits: LentLimits<'_>, chosen: &[MapSetting]) -> bool
    ensures { IsTrue result ↔ AreListed (limits_of limits.entry) chosen.now }
{
    limits.others >= 1 || all_listed(limits.maps, chosen)
}

// Returns whether each chosen MAP is listed.
fn all_listed(maps: &[MapLimit], chosen: &[MapSetting]) -> bool
    ensures { IsTrue result ↔ AllByRecursion (λ (m : MapSetting). IsListed maps.now m.map) chosen.now }
{
    for map in chosen {
        if !has_map(maps, map.map) {
            return false;
        }
    }
    true
}
