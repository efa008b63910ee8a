//! The channels that a script sets up.

ghost use Rattle.std.specs.Prelude.{◌≡◌, ◌↔◌, ◌≤◌, ◌⊎◌, Any, IsTrue, [], length, IfOk, IfErr, OnOk, OnErr, MatchOption, MatchResult};
ghost use Rattle.tc_queues.specs.Settings.{IsAllowed, IsFault};
ghost use Rattle.tc_queues.specs.declared.settings.Settings.{Settings};
ghost use Rattle.tc_rack.specs.Configuration.{AddsChannel, AddsToChannel, AreApidsOf, IsConfiguration, HasSettings, IsAt, vcids_of, with_addition};
ghost use Rattle.tc_rack.specs.Phase.{IsChannelRefused, IsAdditionRefused, IsSettingsReason};

use crate::apids::{Apids, apids_of};
use crate::copying::copy_each;
use crate::growing::append;
use crate::instruction::Addition;
use std::alloc::Global;
use std::marker::Model;
use tc_queues::{MapSetting, QueueSetting, Settings, SettingsFault};
use tc_text::Reason;

/// The settings of the channels so far, in the order of their lines. Once there is at least one channel, a station can
/// be created from them.
#[derive(Drop)]
pub struct Configuration {
    channels: Vec<Settings>,
    // A table of the APIDs of each channel's queues, by which a queue line is checked without a search through the
    // queues.
    apids: Vec<Apids>,
}

impl Model for Configuration {
    ghost use Rattle.std.specs.Prelude.{List};
    ghost use Rattle.tc_queues.specs.declared.settings.Settings.{Settings};
    ghost use Rattle.tc_rack.specs.Configuration.{AreApidsOfEach, IsConfiguration};

    ghost Value = { List Settings };

    ghost view = { λ o. o.channels.items };

    ghost invariant = { λ o. IsConfiguration o.channels.items × AreApidsOfEach o.channels.items o.apids.items };
}

impl Configuration {
    /// Creates a configuration without channels.
    pub fn new(alloc: Global) -> Configuration
        ensures { result ≡ [] }
    {
        Configuration {
            channels: Vec::new(alloc),
            apids: Vec::new(alloc),
        }
    }

    /// Adds the channel of a channel line. The call fails, and changes nothing, if there is a channel with this id, if
    /// no channel can have the settings, or if memory runs out.
    pub fn add_channel(&mut self, settings: Settings) -> Result<(), Reason>
        ensures done { OnOk result (AddsChannel self.old settings self.new) }
        ensures reason { IfErr result (λ reason. (reason ≡ Reason.NoMemory) ⊎ IsChannelRefused self.old settings reason) }
        ensures refused { OnErr result (self.new ≡ self.old) }
    {
        if place_of(&self.channels, settings.vcid).is_some() {
            return Err(Reason::DoubleChannel);
        }
        check(&settings)?;
        let apids = apids_of(&settings.queues);
        if self.apids.reserve(1).is_err() {
            return Err(Reason::NoMemory);
        }
        match self.channels.push(settings) {
            Ok(()) => {
                self.apids.push_reserved(apids);
                Ok(())
            }
            Err(_) => Err(Reason::NoMemory),
        }
    }

    /// Adds the queue of a queue line or the chosen MAP of a map line to a channel. The call fails, and changes
    /// nothing, if there is no channel with this id, if the channel can't have the addition, or if memory runs out.
    pub fn add_to_channel(
        &mut self,
        alloc: Global,
        vcid: u8,
        addition: Addition,
    ) -> Result<(), Reason>
        ensures done { OnOk result (AddsToChannel self.old vcid addition self.new) }
        ensures reason { IfErr result (λ reason. (reason ≡ Reason.NoMemory) ⊎ IsAdditionRefused self.old vcid addition reason) }
        ensures refused { OnErr result (self.new ≡ self.old) }
    {
        let Some(place) = place_of(&self.channels, vcid) else {
            return Err(Reason::UnknownChannel);
        };
        let settings = &mut self.channels[place];
        add_checked(alloc, settings, &mut self.apids[place], addition)
    }

    /// Returns the ids of the channels, in their order. The call fails if memory runs out.
    pub fn vcids(&self, alloc: Global) -> Result<Vec<u8>, Reason>
        ensures vcids { IfOk result (λ vcids. vcids.items ≡ vcids_of self.now) }
        ensures reason { IfErr result (λ reason. reason ≡ Reason.NoMemory) }
    {
        let Ok(mut vcids) = Vec::with_capacity(alloc, self.channels.len()) else {
            return Err(Reason::NoMemory);
        };
        for settings in &self.channels {
            vcids.push_reserved(settings.vcid);
        }
        Ok(vcids)
    }

    /// Returns a copy of the configuration. The call fails if memory runs out.
    pub fn copy(&self, alloc: Global) -> Result<Configuration, Reason>
        ensures copy { IfOk result (λ copy. copy ≡ self.now) }
        ensures reason { IfErr result (λ reason. reason ≡ Reason.NoMemory) }
    {
        let channels = copy_each(alloc, &self.channels)?;
        let Ok(apids) = Vec::from_slice(alloc, self.apids.as_slice()) else {
            return Err(Reason::NoMemory);
        };
        Ok(Configuration { channels, apids })
    }

    /// Lends the settings of the channels. There are at most 64, since no two have the same id, and an id has six bits.
    pub fn channels(&self) -> &[Settings]
        ensures channels { result.now ≡ self.now }
        ensures few { length self.now ≤ 64 }
    {
        self.channels.as_slice()
    }

    /// Returns the settings of the channels by value.
    pub fn into_channels(self) -> Vec<Settings>
        ensures channels { result.items ≡ self }
        ensures configuration { IsConfiguration result.items }
    {
        let Configuration { channels, apids: _ } = self;
        channels
    }
}

// Returns the place of the settings with this id, if there are any.
fn place_of(list: &[Settings], vcid: u8) -> Option<usize>
    ensures { MatchOption result (¬ HasSettings list.now vcid) (λ place. (s : Settings) × IsAt list.now vcid place s) }
{
    list.iter().position(|settings| settings.vcid == vcid)
}

// Checks whether a channel can have these settings.
fn check(settings: &Settings) -> Result<(), Reason>
    ensures { MatchResult result (λ _. IsAllowed settings.now) (IsSettingsReason settings.now) }
{
    settings.check()?;
    Ok(())
}

// Adds a queue or a chosen MAP to the settings, if a channel can have it.
fn add_checked(
    alloc: Global,
    settings: &mut Settings,
    apids: &mut Apids,
    addition: Addition,
) -> Result<(), Reason>
    requires allowed { IsAllowed settings.old }
    requires apids { AreApidsOf settings.old.queues apids.old }
    ensures done { OnOk result (settings.new ≡ with_addition settings.old addition) }
    ensures allowed { IsAllowed settings.new }
    ensures vcid { settings.new.vcid ≡ settings.old.vcid }
    ensures apids { AreApidsOf settings.new.queues apids.new }
    ensures reason { IfErr result (λ reason. (reason ≡ Reason.NoMemory) ⊎ IsSettingsReason (with_addition settings.old addition) reason) }
    ensures refused { OnErr result (settings.new ≡ settings.old) }
{
    match addition {
        Addition::Queue(queue) => {
            check_queue(apids, queue)?;
            append(alloc, &mut settings.queues, queue)?;
            apids[usize::from(queue.apid)] = true;
            Ok(())
        }
        Addition::Map(map) => {
            check_map(settings, map)?;
            append(alloc, &mut settings.maps, map)
        }
    }
}

// Checks whether a queue can be added to a channel whose queues have these APIDs. The settings without the queue are
// allowed, so only the queue is checked.
fn check_queue(apids: &Apids, queue: QueueSetting) -> Result<(), SettingsFault>
    ensures { (s : Settings) → IsAllowed s → AreApidsOf s.queues apids.now
        → MatchResult result (λ _. IsAllowed (with_addition s (Addition.Queue queue)))
        (IsFault (with_addition s (Addition.Queue queue))) }
{
    if queue.apid > 2046 {
        return Err(SettingsFault::BadApid);
    }
    if apids[usize::from(queue.apid)] {
        return Err(SettingsFault::DoubleApid);
    }
    if queue.capacity < 1 || queue.capacity > 256 {
        return Err(SettingsFault::BadCapacity);
    }
    Ok(())
}

// Checks whether a chosen MAP can be added to a channel with these settings.
fn check_map(settings: &Settings, map: MapSetting) -> Result<(), SettingsFault>
    requires { IsAllowed settings.now }
    ensures { MatchResult result (λ _. IsAllowed (with_addition settings.now (Addition.Map map)))
        (IsFault (with_addition settings.now (Addition.Map map))) }
{
    if map.map > 63 {
        return Err(SettingsFault::BadMap);
    }
    if has_map(&settings.maps, map.map) {
        return Err(SettingsFault::DoubleMap);
    }
    if map.capacity < 1 || map.capacity > 256 {
        return Err(SettingsFault::BadUnits);
    }
    if !settings.segmented {
        return Err(SettingsFault::PlainMap);
    }
    Ok(())
}

fn has_map(maps: &[MapSetting], map: u8) -> bool
    ensures { IsTrue result ↔ Any (λ m. m.map ≡ map) maps.now }
{
    maps.iter().any(|other| other.map == map)
}
