//! All parts of a channel but its settings and its journal, in rooms that are created at the start or that grow.

ghost use Rattle.std.specs.Prelude.{List, ℕ, ◌≡◌, false, [], ◌<◌, ◌≤◌, ◌+◌, ◌⊎◌, length, map, replicate, option_map, IfOk, IsOk, OnOk, OnErr, IsSome, IsTrue, ◌↔◌, None, Option};
ghost use Rattle.tc_packet.specs.declared.Service.{Service};
ghost use Rattle.tc_packet.specs.declared.Service.TheVariants.{Bd};
ghost use Rattle.tc_packet.specs.Reassembly.{run_at, stream_place};
ghost use Rattle.tc_packet.specs.Store.{limit_at, open_runs};
ghost use Rattle.tc_channel.specs.declared.event.Event.{Event};
ghost use Rattle.tc_channel.specs.declared.event.Event.TheVariants as Event;
ghost use Rattle.tc_queues.specs.Admission.{map_of};
ghost use Rattle.tc_channel.specs.Channel.{FollowsWithin, FollowsKindWithin, EndsWithin, EndsAtOnceWithin, buffered_of, with_field};
ghost use Rattle.tc_queues.specs.ChannelState.{empty_queue, empty_unit_queue};
ghost use Rattle.tc_queues.specs.Copying.{IsCopiedIn, copied_out};
ghost use Rattle.tc_queues.specs.Delivering.{IsDelivered};
ghost use Rattle.tc_queues.specs.Keyed.{AreCommitted, rings_in, room_sizes};
ghost use Rattle.tc_queues.specs.Memory.{largest_field};
ghost use Rattle.tc_channel.specs.Reply.{IsBypassData, frame_reply_within, release_reply_within, take_reply_within, unit_reply_within, waiting_packets_within, waiting_units_within, buffered_fields_within};
ghost use Rattle.tc_channel.specs.Run.{run_within};
ghost use Rattle.tc_queues.specs.Settings.{IsAllowed};
ghost use Rattle.tc_channel.specs.ChannelCore.{AreSmall, CanPassOn, GoOn, HaveLimits, HoldsInRooms, IsEnough, KeepRooms, Stay, WhereverItHolds};
ghost use Rattle.tc_queues.specs.Steps.{delivery_steps, looks_for};
ghost use Rattle.tc_queues.specs.StoredQueues.{stored};
ghost use Rattle.tc_channel.specs.Steps.{frame_steps_within, release_steps_within};

use std::alloc::{AllocError, Global};
use std::marker::Model;
use tc_link::{Act, Arrival, Farm, Frame, Kind, Report, Window, each_arrival_has_an_entry, kind};
use tc_packet::{FixedRoom, GrowingRoom, Room, Runs, Service, read_segment};
use tc_queues::{
    Delivery, FrameReply, LARGEST_FIELD, MapSetting, NotCopied, QueueSetting, Queues, Settings,
    Slots, Tick, deliver_ended, deliver_nothing, empty_queues, empty_unit_queues,
};

/// FARM-1, the buffer of accepted data fields, reassembly, the packet queues and the unit queues of chosen MAPs: all
/// parts of a channel but its settings and its journal. A [`ChannelWith`](crate::ChannelWith) keeps its core in rooms
/// that grow. A channel with fixed memory keeps its core in rooms that are created at the start. The room of a data
/// field never grows.
///
/// The contract of a call holds for all limits, settings and journals that this core belongs to. If memory runs out,
/// the core still belongs to the same journal.
#[derive(Drop)]
pub struct ChannelCore<R: Room> {
    farm: Farm,
    fields: Slots<FixedRoom>,
    runs: Runs<R>,
    queues: Queues<R>,
    units: Queues<R>,
}

impl<R: Room> Model for ChannelCore<R> {
    ghost use Rattle.tc_channel.specs.ChannelCore.{Parts, AreChannelCore};

    ghost Value = { Parts };

    ghost view = { λ w. record { farm = w.farm; fields = w.fields; store = w.runs; queues = w.queues; units = w.units } };

    ghost invariant = { λ w. AreChannelCore (record { farm = w.farm; fields = w.fields; store = w.runs; queues = w.queues; units = w.units }) };
}

impl<R: Room> ChannelCore<R> {
    /// Creates the core of a channel that starts. The core has the runs `runs`, none of which is open. It has a room
    /// for each data field of the buffer, and rooms of `size` octets for packets and units. No unit may be longer than
    /// `size` octets. The call fails if memory runs out.
    pub fn new<C: Tick>(
        alloc: Global,
        settings: &Settings,
        runs: Runs<R>,
        size: usize,
        steps: &mut C,
    ) -> Result<ChannelCore<R>, AllocError>
        requires allowed { IsAllowed settings.now }
        requires segmented { runs.segmented ≡ settings.now.segmented }
        requires none { (place : ℕ) → run_at (open_runs runs).runs place ≡ None }
        requires small { AreSmall runs }
        requires enough { IsEnough runs size }
        requires limits { (limits : ℕ → ℕ) × HaveLimits limits runs }
        ensures started { IfOk result (λ w. (limits : ℕ → ℕ) → HaveLimits limits runs → HoldsInRooms limits settings.now [] w) }
    {
        let window = Window::new(settings.width).unwrap();
        let fields = Slots::with_capacity(alloc, settings.buffer as usize, LARGEST_FIELD)?;
        let queues = packet_queues(alloc, settings.queues.as_slice(), size, steps)?;
        let units = unit_queues(alloc, settings.maps.as_slice(), size, steps)?;
        Ok(ChannelCore {
            farm: Farm::new(window, settings.first),
            fields,
            runs,
            queues,
            units,
        })
    }

    /// Takes a frame in. An accepted AD data field is copied into the buffer. If an accepted BD data field ends a unit,
    /// the unit is queued at once. Only a frame of Type-BD may be refused, and only if rooms grow. A step is counted
    /// for each packet that is cut from the unit and for each queue that is looked at.
    #[inline(always)]
    pub fn frame<C: Tick>(&mut self, frame: &Frame, steps: &mut C) -> Result<FrameReply, AllocError>
        ensures reply { IfOk result (λ reply. WhereverItHolds self.old (λ limits s journal. reply ≡ frame_reply_within limits s journal frame.now)) }
        ensures done { OnOk result (GoOn (Event.Frame frame.now) self.old self.new) }
        ensures refused { OnErr result (Stay self.old self.new) }
        ensures bypass { OnErr result (IsBypassData frame.now) }
        ensures answered { R.grows ≡ false → IsOk result }
        ensures cost { OnOk result (WhereverItHolds self.old
            (λ limits s journal. C.taken steps.new ≤ C.taken steps.old + frame_steps_within limits s journal frame.now)) }
        ensures refused_cost { OnErr result (WhereverItHolds self.old
            (λ limits s journal. C.taken steps.new ≤ C.taken steps.old +
            (frame_steps_within limits s journal frame.now + length s.queues))) }
        ensures quiet { (IsBypassData frame.now → ⊥) → C.taken steps.new ≡ C.taken steps.old }
    {
        each_arrival_has_an_entry();
        let kind = kind(frame);
        let room = self.fields.len() < self.fields.capacity();
        let field = &frame.octets()[5..];
        let delivery = pass_bypass(
            &mut self.runs,
            &mut self.queues,
            &mut self.units,
            kind,
            field,
            steps,
        )?;
        let act = self.farm.step(Arrival::Frame { kind, room });
        put_field(&mut self.fields, &act, field);
        Ok(FrameReply { act, delivery })
    }

    /// Releases the oldest data field from the buffer, in which one must wait, and queues the unit that the field ends,
    /// if it ends one. The call may be refused only if rooms grow. Steps are counted as in
    /// [`frame`](ChannelCore::frame).
    #[inline(always)]
    pub fn release<C: Tick>(&mut self, steps: &mut C) -> Result<Delivery, AllocError>
        requires waits { 0 < length self.old.fields.ring.items }
        ensures reply { IfOk result (λ delivery. WhereverItHolds self.old (λ limits s journal. delivery ≡ release_reply_within limits s journal)) }
        ensures done { OnOk result (GoOn Event.Release self.old self.new) }
        ensures refused { OnErr result (Stay self.old self.new) }
        ensures answered { R.grows ≡ false → IsOk result }
        ensures cost { OnOk result (WhereverItHolds self.old
            (λ limits s journal. C.taken steps.new ≤ C.taken steps.old + release_steps_within limits s journal)) }
        ensures refused_cost { OnErr result (WhereverItHolds self.old
            (λ limits s journal. C.taken steps.new ≤ C.taken steps.old +
            (release_steps_within limits s journal + length s.queues))) }
    {
        let field = self.fields.front().unwrap();
        let delivery = pass(
            &mut self.runs,
            &mut self.queues,
            &mut self.units,
            Service::Ad,
            field,
            steps,
        )?;
        self.fields.pop_front();
        self.farm.step(Arrival::Release);
        Ok(delivery)
    }

    /// Drops the oldest packet of the queue with this APID, if one waits, and returns whether one waited.
    #[tactic(auto, using(crate::proofs::Closing::at_work))]
    pub fn drop_packet<C: Tick>(&mut self, apid: u16, steps: &mut C) -> bool
        ensures waits { WhereverItHolds self.old (λ limits s journal. IsTrue result ↔ IsSome (take_reply_within limits s journal apid)) }
        ensures done { IsTrue result → GoOn (Event.Take apid) self.old self.new }
        ensures refused { result ≡ false → self.new ≡ self.old }
        ensures cost { C.taken steps.new ≤ C.taken steps.old + looks_for apid (length self.old.queues) }
    {
        self.queues.pop(apid, steps)
    }

    /// Drops the oldest unit of the queue of this chosen MAP, if one waits, and returns whether one waited.
    #[tactic(auto, using(crate::proofs::Closing::at_work))]
    pub fn drop_unit<C: Tick>(&mut self, map: u8, steps: &mut C) -> bool
        ensures waits { WhereverItHolds self.old (λ limits s journal. IsTrue result ↔ IsSome (unit_reply_within limits s journal map)) }
        ensures done { IsTrue result → GoOn (Event.TakeUnit map) self.old self.new }
        ensures refused { result ≡ false → self.new ≡ self.old }
        ensures cost { C.taken steps.new ≤ C.taken steps.old + looks_for map (length self.old.units) }
    {
        self.units.pop(map as u16, steps)
    }

    /// Copies the oldest packet of the queue with this APID to the front of `into`, drops it, and returns the number of
    /// its octets. The call fails and changes nothing if there is no such queue, if it is empty, or if `into` is
    /// shorter than the packet.
    #[inline(always)]
    pub fn copy_packet<C: Tick>(
        &mut self,
        apid: u16,
        into: &mut [u8],
        steps: &mut C,
    ) -> Result<usize, NotCopied>
        ensures count { WhereverItHolds self.old
            (λ limits s journal. result ≡ copied_out (length into.old) (waiting_packets_within limits s journal apid)) }
        ensures packet { WhereverItHolds self.old
            (λ limits s journal. IfOk result (λ count. IsCopiedIn
            (take_reply_within limits s journal apid) count into.old into.new)) }
        ensures done { OnOk result (GoOn (Event.Take apid) self.old self.new) }
        ensures refused { OnErr result ((self.new ≡ self.old) × (into.new ≡ into.old)) }
        ensures cost { C.taken steps.new ≤ C.taken steps.old + looks_for apid (length self.old.queues) }
    {
        self.queues.copy_out(apid, into, steps)
    }

    /// Copies the oldest unit of the queue of this chosen MAP to the front of `into`, drops it, and returns the number
    /// of its octets. The call fails and changes nothing if the MAP isn't chosen, if its queue is empty, or if `into`
    /// is shorter than the unit.
    #[inline(always)]
    pub fn copy_unit<C: Tick>(
        &mut self,
        map: u8,
        into: &mut [u8],
        steps: &mut C,
    ) -> Result<usize, NotCopied>
        ensures count { WhereverItHolds self.old
            (λ limits s journal. result ≡ copied_out (length into.old) (waiting_units_within limits s journal map)) }
        ensures unit { WhereverItHolds self.old (λ limits s journal. IfOk result
            (λ count. IsCopiedIn (unit_reply_within limits s journal map) count into.old into.new)) }
        ensures done { OnOk result (GoOn (Event.TakeUnit map) self.old self.new) }
        ensures refused { OnErr result ((self.new ≡ self.old) × (into.new ≡ into.old)) }
        ensures cost { C.taken steps.new ≤ C.taken steps.old + looks_for map (length self.old.units) }
    {
        self.units.copy_out(map as u16, into, steps)
    }

    /// Lends the oldest packet of the queue with this APID. Returns `None` if there is no such queue or it is empty.
    #[tactic(auto, using(crate::proofs::Closing::at_work))]
    pub fn oldest<C: Tick>(&self, apid: u16, steps: &mut C) -> Option<&[u8]>
        ensures packet { WhereverItHolds self.now
            (λ limits s journal. option_map (λ octets. octets.now) result ≡ take_reply_within limits s journal apid) }
        ensures cost { C.taken steps.new ≤ C.taken steps.old + looks_for apid (length self.now.queues) }
    {
        self.queues.oldest(apid, steps)
    }

    /// Lends the oldest unit of the queue of this chosen MAP. Returns `None` if the MAP isn't chosen or its queue is
    /// empty.
    #[tactic(auto, using(crate::proofs::Closing::at_work))]
    pub fn oldest_unit<C: Tick>(&self, map: u8, steps: &mut C) -> Option<&[u8]>
        ensures unit { WhereverItHolds self.now (λ limits s journal. option_map (λ octets. octets.now) result
            ≡ unit_reply_within limits s journal map) }
        ensures cost { C.taken steps.new ≤ C.taken steps.old + looks_for map (length self.now.units) }
    {
        self.units.oldest(map as u16, steps)
    }

    /// Returns FARM-1's components.
    pub fn report(&self) -> Report
        ensures report { WhereverItHolds self.now (λ limits s journal. result ≡ (run_within limits s journal).report) }
        ensures farm_b { result.farm_b < 4 }
    {
        self.farm.report()
    }

    /// Returns the number of data fields that wait in the buffer.
    pub fn buffered(&self) -> usize
        ensures count { WhereverItHolds self.now (λ limits s journal. result ≡ length (buffered_fields_within limits s journal)) }
        ensures fields { result ≡ length self.now.fields.ring.items }
    {
        self.fields.len()
    }

    /// Returns the number of packets that wait in the queue with this APID, if there is one.
    pub fn queued<C: Tick>(&self, apid: u16, steps: &mut C) -> Option<usize>
        ensures count { WhereverItHolds self.now (λ limits s journal. result ≡ option_map length (waiting_packets_within limits s journal apid)) }
        ensures cost { C.taken steps.new ≤ C.taken steps.old + looks_for apid (length self.now.queues) }
    {
        Some(self.queues.find(apid, steps)?.len())
    }

    /// Returns the number of units that wait in the queue of this MAP, if the MAP is chosen.
    pub fn units<C: Tick>(&self, map: u8, steps: &mut C) -> Option<usize>
        ensures count { WhereverItHolds self.now (λ limits s journal. result ≡ option_map length (waiting_units_within limits s journal map)) }
        ensures cost { C.taken steps.new ≤ C.taken steps.old + looks_for map (length self.now.units) }
    {
        Some(self.units.find(map as u16, steps)?.len())
    }
}

impl ChannelCore<GrowingRoom> {
    /// Moves the oldest packet out of the queue with this APID. Returns `None` if there is no such queue or it is
    /// empty.
    #[tactic(auto, using(crate::proofs::Closing::at_work))]
    pub fn take<C: Tick>(&mut self, apid: u16, steps: &mut C) -> Option<Vec<u8>>
        ensures packet { WhereverItHolds self.old
            (λ limits s journal. option_map (λ packet. packet.items) result ≡ take_reply_within limits s journal apid) }
        ensures done { IsSome result → GoOn (Event.Take apid) self.old self.new }
        ensures refused { result ≡ None → self.new ≡ self.old }
        ensures cost { C.taken steps.new ≤ C.taken steps.old + looks_for apid (length self.old.queues) }
    {
        self.queues.take(apid, steps)
    }

    /// Moves the oldest unit out of the queue of this chosen MAP. Returns `None` if the MAP isn't chosen or its queue
    /// is empty.
    #[tactic(auto, using(crate::proofs::Closing::at_work))]
    pub fn take_unit<C: Tick>(&mut self, map: u8, steps: &mut C) -> Option<Vec<u8>>
        ensures unit { WhereverItHolds self.old (λ limits s journal. option_map (λ unit. unit.items) result
            ≡ unit_reply_within limits s journal map) }
        ensures done { IsSome result → GoOn (Event.TakeUnit map) self.old self.new }
        ensures refused { result ≡ None → self.new ≡ self.old }
        ensures cost { C.taken steps.new ≤ C.taken steps.old + looks_for map (length self.old.units) }
    {
        self.units.take(map as u16, steps)
    }
}

// Creates an empty packet queue for each setting, for packets of at most `size` octets.
fn packet_queues<R: Room, C: Tick>(
    alloc: Global,
    settings: &[QueueSetting],
    size: usize,
    steps: &mut C,
) -> Result<Queues<R>, AllocError>
    ensures rings { IfOk result (λ q. rings_in q ≡ map stored (map empty_queue settings.now)) }
    ensures sizes { IfOk result (λ q. room_sizes q ≡ replicate (length settings.now) size) }
    ensures committed { IfOk result (λ q. AreCommitted q) }
{
    Queues::new(alloc, empty_queues(alloc, settings, size)?, steps)
}

// Creates an empty unit queue for each chosen MAP, for units of at most `size` octets.
fn unit_queues<R: Room, C: Tick>(
    alloc: Global,
    maps: &[MapSetting],
    size: usize,
    steps: &mut C,
) -> Result<Queues<R>, AllocError>
    ensures rings { IfOk result (λ q. rings_in q ≡ map stored (map empty_unit_queue maps.now)) }
    ensures sizes { IfOk result (λ q. room_sizes q ≡ replicate (length maps.now) size) }
    ensures committed { IfOk result (λ q. AreCommitted q) }
{
    Queues::new(alloc, empty_unit_queues(alloc, maps, size)?, steps)
}

// Copies the data field to the end of the buffer if it is that of an accepted AD frame. In that case the buffer has
// room for it.
fn put_field(fields: &mut Slots<FixedRoom>, act: &Act, field: &[u8])
    requires field { length field.now ≤ fields.old.size }
    requires room { IsSome (buffered_of act.now field.now) → length fields.old.ring.items < fields.old.ring.capacity }
    requires committed { fields.old.staged ≡ [] }
    ensures items { fields.new.ring.items ≡ with_field fields.old.ring.items (buffered_of act.now field.now) }
    ensures capacity { fields.new.ring.capacity ≡ fields.old.ring.capacity }
    ensures size { fields.new.size ≡ fields.old.size }
    ensures committed { fields.new.staged ≡ [] }
{
    if act.event == 1 && act.accepted {
        fields.put(field).unwrap();
    }
}

// Passes a data field to reassembly, and delivers the unit that the field ends, if it ends one. If memory runs out, the
// open runs and the queued items are as they were before the call.
#[inline(always)]
#[tactic(auto, using(crate::proofs::Closing::at_work))]
fn pass<R: Room, C: Tick>(
    runs: &mut Runs<R>,
    queues: &mut Queues<R>,
    units: &mut Queues<R>,
    service: Service,
    field: &[u8],
    steps: &mut C,
) -> Result<Delivery, AllocError>
    requires field { 0 < length field.now }
    requires within { length field.now ≤ largest_field }
    requires rooms { CanPassOn runs.old queues.old units.old }
    ensures follows { OnOk result (FollowsWithin (limit_at runs.old (stream_place service field.now)) (open_runs runs.old)
        (open_runs runs.new) service field.now) }
    ensures delivered { IfOk result (λ delivery. (unit : Option (List ℕ))
        × EndsWithin (limit_at runs.old (stream_place service field.now)) (open_runs runs.old) service field.now unit
        × IsDelivered (map_of field.now) unit (rings_in queues.old) (rings_in queues.new) (rings_in units.old) (rings_in units.new) delivery) }
    ensures refused { OnErr result ((open_runs runs.new ≡ open_runs runs.old) × (rings_in queues.new ≡ rings_in queues.old)
        × (rings_in units.new ≡ rings_in units.old)) }
    ensures rooms { KeepRooms runs.old queues.old units.old runs.new queues.new units.new }
    ensures answered { R.grows ≡ false → IsOk result }
    ensures cost { OnOk result ((unit : Option (List ℕ))
        × EndsWithin (limit_at runs.old (stream_place service field.now)) (open_runs runs.old) service field.now unit
        × (C.taken steps.new ≤ C.taken steps.old + delivery_steps unit (length queues.old) (length units.old))) }
    ensures refused_cost { OnErr result ((C.taken steps.new ≡ C.taken steps.old) ⊎
        ((unit : Option (List ℕ)) × EndsWithin (limit_at runs.old (stream_place service field.now))
        (open_runs runs.old) service field.now unit
        × (C.taken steps.new ≤ C.taken steps.old + (delivery_steps unit (length queues.old) (length units.old) + length queues.old)))) }
{
    let map = read_segment(field[0]).map;
    let ended = runs.stage(service, field)?;
    let delivery = deliver_ended(runs, queues, units, map, field, ended, steps)?;
    runs.commit(service, map, ended);
    Ok(delivery)
}

// Passes on the field of a BD frame at once, and no other field.
#[inline(always)]
#[tactic(auto, using(crate::proofs::Closing::at_work))]
fn pass_bypass<R: Room, C: Tick>(
    runs: &mut Runs<R>,
    queues: &mut Queues<R>,
    units: &mut Queues<R>,
    kind: Kind,
    field: &[u8],
    steps: &mut C,
) -> Result<Delivery, AllocError>
    requires field { 0 < length field.now }
    requires within { length field.now ≤ largest_field }
    requires rooms { CanPassOn runs.old queues.old units.old }
    ensures follows { OnOk result (FollowsKindWithin (limit_at runs.old (stream_place Bd field.now)) kind (open_runs runs.old)
        (open_runs runs.new) field.now) }
    ensures delivered { IfOk result (λ delivery. (unit : Option (List ℕ))
        × EndsAtOnceWithin (limit_at runs.old (stream_place Bd field.now)) kind (open_runs runs.old) field.now unit
        × IsDelivered (map_of field.now) unit (rings_in queues.old) (rings_in queues.new) (rings_in units.old) (rings_in units.new) delivery) }
    ensures refused { OnErr result ((open_runs runs.new ≡ open_runs runs.old) × (rings_in queues.new ≡ rings_in queues.old)
        × (rings_in units.new ≡ rings_in units.old)) }
    ensures bypass { OnErr result (kind ≡ Kind.Bd) }
    ensures rooms { KeepRooms runs.old queues.old units.old runs.new queues.new units.new }
    ensures answered { R.grows ≡ false → IsOk result }
    ensures cost { OnOk result ((unit : Option (List ℕ))
        × EndsAtOnceWithin (limit_at runs.old (stream_place Bd field.now)) kind (open_runs runs.old) field.now unit
        × (C.taken steps.new ≤ C.taken steps.old + delivery_steps unit (length queues.old) (length units.old))) }
    ensures refused_cost { OnErr result ((C.taken steps.new ≡ C.taken steps.old) ⊎
        ((unit : Option (List ℕ)) × EndsAtOnceWithin (limit_at runs.old (stream_place Bd field.now)) kind
        (open_runs runs.old) field.now unit
        × (C.taken steps.new ≤ C.taken steps.old + (delivery_steps unit (length queues.old) (length units.old) + length queues.old)))) }
    ensures quiet { (kind ≡ Kind.Bd → ⊥) → C.taken steps.new ≡ C.taken steps.old }
{
    match kind {
        Kind::Bd => pass(runs, queues, units, Service::Bd, field, steps),
        Kind::Ad(_) => Ok(deliver_nothing()),
        Kind::Bc(_) => Ok(deliver_nothing()),
        Kind::Invalid => Ok(deliver_nothing()),
    }
}
