//! Reassembly (CCSDS 232.0-B, 4.4) in one room for each stream.

ghost use Rattle.std.specs.Prelude.{◌≡◌, ◌<◌, ◌≤◌, ◌%◌, ◌∷◌, ◌++◌, ℕ, true, false, List, [], length, map, get_or, replicate, Some, None, IfOk, IsOk, OnErr, slice_get, option_map, if◌then◌else◌};
ghost use Rattle.std.specs.Box.{boxed_slice_items};
ghost use Rattle.std.specs.List.{AllByRecursion};
ghost use Rattle.tc_packet.specs.declared.service.Service.{Service};
ghost use Rattle.tc_packet.specs.Reassembly.{at_most, bounded, ended_by, place_of, run_at, stream_place, unit_ended, largest_unit, extended};
ghost use Rattle.tc_packet.specs.Runs.{next_run, octets_in};
ghost use Rattle.tc_packet.specs.Room.{contents_of};
ghost use Rattle.tc_packet.specs.OpenRun.{open_in};
ghost use Rattle.tc_packet.specs.Store.{behind, open_runs, limit_at, over_at, committed, LeaveWithin, ended_kind, unit_in, sizes_of, ended_by_stream, IsFollowed, IsWritten, Store, IsThere, IsAtMost};
ghost use Rattle.tc_packet.specs.declared.runs.EndedKind.TheVariants as EndedKind;
ghost use Rattle.tc_packet.specs.declared.runs.Ended.TheVariants as Ended;

use crate::laws::one_more_field_moves_its_run_on;
use crate::room::{GrowingRoom, Room};
use crate::segment::{Part, read_segment};
use crate::service::{LARGEST_UNIT, MAPS, STREAMS, Service, place};
use std::alloc::{AllocError, Global};
use std::boxed::BoxedSlice;
use std::marker::Model;

/// A stream's run in its room. While the run is open, its octets are the first `count` octets in the room. The octets
/// of a last segment are staged behind them, so that the whole unit is one slice. The run stays open until the unit is
/// delivered.
#[derive(Drop)]
pub struct Run<R: Room> {
    is_open: bool,
    count: u32,
    room: R,
}

impl<R: Room> Model for Run<R> {
    ghost use Rattle.tc_packet.specs.OpenRun.{OpenRun, IsRun};

    ghost Value = { OpenRun };

    ghost view = { λ r. record { is_open = r.is_open; count = r.count; room = R.contents r.room } };

    ghost invariant = { λ r. IsRun (record { is_open = r.is_open; count = r.count; room = R.contents r.room }) };
}

/// The place of the unit that a segment completed: the segment's body, or the whole contents of the run's room. It is
/// `Nothing` if the segment completed no unit.
#[derive(Clone, Copy)]
pub(crate) enum EndedKind {
    Nothing,
    Body,
    Whole,
}

/// The place of the unit that a data field completed.
#[derive(Clone, Copy, Debug, PartialEq, Eq)]
pub enum Ended {
    /// The field completed no unit.
    Nothing,
    /// The unit lies in the field itself, after the given number of octets.
    Lying(usize),
    /// The unit lies in the room of the stream with this place, until the next field of that stream comes.
    /// [`Runs::joined`] lends the unit.
    Joined(usize),
}

/// The open run of each stream, each in a room of its own. If the rooms don't grow, memory is allocated only when the
/// rooms are created.
#[derive(Drop)]
pub struct Runs<R: Room> {
    segmented: bool,
    plain_limit: usize,
    runs: BoxedSlice<Run<R>>,
}

impl<R: Room> Model for Runs<R> {
    ghost use Rattle.std.specs.Box.{boxed_slice_items};
    ghost use Rattle.tc_packet.specs.Store.{Store, IsStore};

    ghost Value = { Store };

    ghost view = { λ r. record { segmented = r.segmented; plain_limit = r.plain_limit; runs = boxed_slice_items r.runs } };

    ghost invariant = { λ r. IsStore (record { segmented = r.segmented; plain_limit = r.plain_limit; runs = boxed_slice_items r.runs }) };
}

impl<R: Room> Run<R> {
    // Creates a run that isn't open, with room for `size` octets.
    fn with_size(alloc: Global, size: usize) -> Result<Run<R>, AllocError>
        requires { size ≤ LARGEST_UNIT }
        ensures { IfOk result (λ r. r ≡ record { is_open = false; count = 0; room = contents_of [] size }) }
    {
        let room: R = Room::with_size(alloc, size)?;
        Ok(Run {
            is_open: false,
            count: 0,
            room,
        })
    }

    // Stages a body behind the open run, and returns true. Returns false, without staging the body, if no run is open
    // or the room has too few octets left behind the run.
    fn extend(&mut self, body: &[u8]) -> Result<bool, AllocError>
        ensures contents_of { IfOk result (λ done. done ≡ true
            → (self.old.is_open ≡ true) × (at_most self.old.room.size (extended (open_in self.old) body.now)
            ≡ Some self.new.room.octets)) }
        ensures none { IfOk result (λ done. done ≡ false → at_most self.old.room.size (extended (open_in self.old) body.now) ≡ None) }
        ensures same { open_in self.new ≡ open_in self.old }
        ensures open { self.new.is_open ≡ self.old.is_open }
        ensures size { self.new.room.size ≡ self.old.room.size }
        ensures small { self.old.room.size ≤ largest_unit }
        ensures answered { R.grows ≡ false → IsOk result }
    {
        if !self.is_open || body.len() > self.room.size() - self.count as usize {
            return Ok(false);
        }
        self.room.cut(self.count as usize);
        self.room.append(body)?;
        Ok(true)
    }

    // Opens the run with the body of a first segment. If the body doesn't fit the room, no run is open afterwards.
    fn begin(&mut self, body: &[u8]) -> Result<(), AllocError>
        ensures run { IfOk result (λ _. open_in self.new ≡ at_most self.old.room.size (bounded body.now)) }
        ensures refused { OnErr result (open_in self.new ≡ open_in self.old) }
        ensures size { self.new.room.size ≡ self.old.room.size }
        ensures small { self.old.room.size ≤ largest_unit }
        ensures answered { R.grows ≡ false → IsOk result }
    {
        if body.len() > self.room.size() {
            self.is_open = false;
            return Ok(());
        }
        self.room.fill(body)?;
        self.is_open = true;
        self.count = body.len() as u32;
        Ok(())
    }

    // Continues the run with the body of a continuing segment. A run that would outgrow its room is dropped.
    fn go_on(&mut self, body: &[u8]) -> Result<(), AllocError>
        ensures run { IfOk result (λ _. open_in self.new ≡ at_most self.old.room.size (extended (open_in self.old) body.now)) }
        ensures refused { OnErr result (open_in self.new ≡ open_in self.old) }
        ensures size { self.new.room.size ≡ self.old.room.size }
        ensures small { self.old.room.size ≤ largest_unit }
        ensures answered { R.grows ≡ false → IsOk result }
    {
        if self.extend(body)? {
            self.count = self.room.as_slice().len() as u32;
        } else {
            self.is_open = false;
        }
        Ok(())
    }

    // Applies a segment with this body to the run. Returns the place of the unit that the segment completes, if any. In
    // that case the run stays unchanged until `close` is called.
    fn follow(&mut self, part: Part, body: &[u8]) -> Result<EndedKind, AllocError>
        ensures unit { IfOk result (λ t. ended_kind t self.new body.now ≡ at_most self.old.room.size (ended_by part (open_in self.old) body.now)) }
        ensures run { IfOk result (λ t. open_in (behind t self.new) ≡ at_most self.old.room.size (next_run part (open_in self.old) body.now)) }
        ensures contents { IfOk result (λ t. (t ≡ EndedKind.Nothing → ⊥) → open_in self.new ≡ open_in self.old) }
        ensures refused { OnErr result (open_in self.new ≡ open_in self.old) }
        ensures size { self.new.room.size ≡ self.old.room.size }
        ensures small { self.old.room.size ≤ largest_unit }
        ensures answered { R.grows ≡ false → IsOk result }
    {
        match part {
            Part::First => {
                self.begin(body)?;
                Ok(EndedKind::Nothing)
            }
            Part::Continuing => {
                self.go_on(body)?;
                Ok(EndedKind::Nothing)
            }
            Part::Last => {
                if self.extend(body)? {
                    return Ok(EndedKind::Whole);
                }
                self.is_open = false;
                Ok(EndedKind::Nothing)
            }
            Part::Unsegmented => {
                if body.len() <= self.room.size() {
                    return Ok(EndedKind::Body);
                }
                self.is_open = false;
                Ok(EndedKind::Nothing)
            }
        }
    }

    fn close(&mut self)
        ensures { self.new ≡ record self.old { is_open = false } }
    {
        self.is_open = false;
    }

    // Lends the octets in the room. They are the completed unit if the last call of `follow` returned
    // `EndedKind::Whole`.
    fn octets(&self) -> &[u8]
        ensures { result.now ≡ self.now.room.octets }
    {
        self.room.as_slice()
    }
}

impl Run<GrowingRoom> {
    // Returns the unit that a segment with this body would complete, if any. The segment is applied to a copy of the
    // run. The copy's block has room for the whole unit and is the only allocation.
    fn unit_after(&self, part: Part, body: &[u8]) -> Result<Option<Vec<u8>>, AllocError>
        ensures unit { IfOk result (λ unit. octets_in unit ≡ at_most self.now.room.size (ended_by part (open_in self.now) body.now)) }
        ensures small { self.now.room.size ≤ largest_unit }
    {
        let mut copy = Run {
            is_open: self.is_open,
            count: self.count,
            room: self.room.copied(body.len())?,
        };
        let ended_kind = copy.follow(part, body)?;
        let Run { mut room, .. } = copy;
        match ended_kind {
            EndedKind::Nothing => return Ok(None),
            EndedKind::Body => room.fill(body)?,
            EndedKind::Whole => {}
        }
        Ok(Some(room.take_block()))
    }
}

// Returns the place of the unit that a segment completed, if any. `place` is the place of the segment's stream.
fn ended_at(ended_kind: EndedKind, place: usize) -> Ended
    ensures { result ≡ ended_by_stream ended_kind place }
{
    match ended_kind {
        EndedKind::Nothing => Ended::Nothing,
        EndedKind::Body => Ended::Lying(1),
        EndedKind::Whole => Ended::Joined(place),
    }
}

// Applies a segment with this body to the run at this place.
fn follow_at<R: Room>(
    runs: &mut BoxedSlice<Run<R>>,
    at: usize,
    part: Part,
    body: &[u8],
) -> Result<EndedKind, AllocError>
    requires { at < length (boxed_slice_items runs.old) }
    ensures followed { IfOk result (IsFollowed at part body.now (boxed_slice_items runs.old) (boxed_slice_items runs.new)) }
    ensures written { IsWritten at (boxed_slice_items runs.old) (boxed_slice_items runs.new) }
    ensures refused { OnErr result (map open_in (boxed_slice_items runs.new) ≡ map open_in (boxed_slice_items runs.old)) }
    ensures answered { R.grows ≡ false → IsOk result }
{
    let run = &mut runs[at];
    run.follow(part, body)
}

// Ends the run at this place, if there is one.
fn close_at<R: Room>(runs: &mut BoxedSlice<Run<R>>, at: usize)
    ensures over { boxed_slice_items runs.new ≡ over_at at (boxed_slice_items runs.old) }
    ensures places { length (boxed_slice_items runs.new) ≡ length (boxed_slice_items runs.old) }
{
    if at < runs.as_slice().len() {
        let run = &mut runs[at];
        run.close();
    }
}

// Returns the place of the unit in a field without a segment header. The unit is the whole field. If the field is over
// the limit, there is no unit.
fn whole_field(field: &[u8], limit: usize) -> Ended
    requires { limit ≤ LARGEST_UNIT }
    ensures unit { (store : Store) → unit_in result store field.now ≡ at_most limit (bounded field.now) }
    ensures there { (store : Store) → IsThere result store field.now }
    ensures shorter { (store : Store) → IsAtMost (length field.now) (unit_in result store field.now) }
{
    if field.len() <= limit {
        return Ended::Lying(0);
    }
    Ended::Nothing
}

// Creates `count` runs that aren't open, each with a room as large as the limit of its MAP.
fn empty_runs<R: Room>(
    alloc: Global,
    count: usize,
    limits: &[usize],
) -> Result<Vec<Run<R>>, AllocError>
    requires maps { length limits.now ≡ 64 }
    requires limits { AllByRecursion (λ n. n ≤ largest_unit) limits.now }
    ensures count { IfOk result (λ v. length v.items ≡ count) }
    ensures runs { IfOk result (λ v. map open_in v.items ≡ replicate count None) }
    ensures sizes { IfOk result (λ v. (place : ℕ) → place < count → get_or (sizes_of v.items) place 0 ≡ get_or limits.now (place % 64) 0) }
{
    let mut runs = Vec::with_capacity(alloc, count)?;
    for place in 0..count {
        let run: Run<R> = Run::with_size(alloc, limits[place % MAPS])?;
        runs.push_reserved(run);
    }
    Ok(runs)
}

// Creates runs that are all closed. With segment headers, each stream has a room as large as the limit of its MAP.
// Without them there are no rooms, and `plain_limit` is the limit.
fn with_rooms<R: Room>(
    alloc: Global,
    segmented: bool,
    plain_limit: usize,
    limits: &[usize],
) -> Result<Runs<R>, AllocError>
    requires plain { plain_limit ≤ LARGEST_UNIT }
    requires maps { length limits.now ≡ 64 }
    requires limits { AllByRecursion (λ n. n ≤ largest_unit) limits.now }
    ensures segmented { IfOk result (λ r. r.segmented ≡ segmented) }
    ensures none { IfOk result (λ r. (place : ℕ) → run_at (open_runs r).runs place ≡ None) }
    ensures limits { IfOk result (λ r. (place : ℕ) → place < 128
        → limit_at r place ≡ (if segmented then get_or limits.now (place % 64) 0 else plain_limit)) }
{
    let count = if segmented { STREAMS } else { 0 };
    let runs = empty_runs(alloc, count, limits)?.into_boxed_slice();
    Ok(Runs {
        segmented,
        plain_limit,
        runs,
    })
}

impl<R: Room> Runs<R> {
    /// Creates runs that are all closed. Units of more than `limit` octets are dropped. With segment headers, the room
    /// of each of the 128 streams is created here. Without them there are no rooms, since each data field is a unit by
    /// itself.
    pub fn new(alloc: Global, segmented: bool, limit: usize) -> Result<Runs<R>, AllocError>
        requires { limit ≤ LARGEST_UNIT }
        ensures segmented { IfOk result (λ r. r.segmented ≡ segmented) }
        ensures none { IfOk result (λ r. (place : ℕ) → run_at (open_runs r).runs place ≡ None) }
        ensures limits { IfOk result (λ r. (place : ℕ) → place < 128 → limit_at r place ≡ limit) }
    {
        with_rooms(alloc, segmented, limit, &[limit; MAPS])
    }

    /// Creates runs that are all closed, for data fields with segment headers. `limits` holds a limit for each of the
    /// 64 MAPs. A MAP's units that exceed its limit are dropped. The room of each of the 128 streams is created here,
    /// as large as the limit of its MAP.
    pub fn by_map(alloc: Global, limits: &[usize]) -> Result<Runs<R>, AllocError>
        requires maps { length limits.now ≡ 64 }
        requires limits { AllByRecursion (λ n. n ≤ largest_unit) limits.now }
        ensures segmented { IfOk result (λ r. r.segmented ≡ true) }
        ensures none { IfOk result (λ r. (place : ℕ) → run_at (open_runs r).runs place ≡ None) }
        ensures limits { IfOk result (λ r. (service : Service) (map_id : ℕ) → map_id < 64
            → limit_at r (place_of service map_id) ≡ get_or limits.now map_id 0) }
    {
        with_rooms(alloc, true, 0, limits)
    }

    /// Processes the next field of its stream, and returns the place of the unit that it completes. A run or a unit
    /// that exceeds the stream's limit is dropped. If the field completes a unit, the run stays unchanged until
    /// [`commit`](Runs::commit) is called, so that nothing is lost if memory runs out in between. In the clauses,
    /// `fields` are any earlier fields that lead to the stream's run before this call.
    #[inline(always)]
    pub fn stage(&mut self, service: Service, field: &[u8]) -> Result<Ended, AllocError>
        requires { 0 < length field.now }
        ensures unit { (fields : List (List ℕ)) → LeaveWithin fields self.old (stream_place service field.now)
            → IfOk result (λ ended. unit_in ended self.new field.now
            ≡ at_most (limit_at self.old (stream_place service field.now)) (unit_ended self.old.segmented fields field.now)) }
        ensures run { (fields : List (List ℕ)) → LeaveWithin fields self.old (stream_place service field.now)
            → IfOk result (λ ended. LeaveWithin (fields ++ field.now ∷ [])
            (committed ended (stream_place service field.now) self.new) (stream_place service field.now)) }
        ensures contents { IfOk result (λ ended. (ended ≡ Ended.Nothing → ⊥) → open_runs self.new ≡ open_runs self.old) }
        ensures refused { OnErr result (open_runs self.new ≡ open_runs self.old) }
        ensures others { (other : ℕ) → (other ≡ stream_place service field.now → ⊥)
            → run_at (open_runs self.new).runs other ≡ run_at (open_runs self.old).runs other }
        ensures other_rooms { (other : ℕ) → (other ≡ stream_place service field.now → ⊥)
            → slice_get self.new.runs other ≡ slice_get self.old.runs other }
        ensures there { IfOk result (λ ended. IsThere ended self.new field.now) }
        ensures within { IfOk result (λ ended. IsAtMost (limit_at self.old (stream_place service field.now)) (unit_in ended self.new field.now)) }
        ensures shorter { self.old.segmented ≡ false → IfOk result (λ ended. IsAtMost (length field.now) (unit_in ended self.new field.now)) }
        ensures limits { (place : ℕ) → limit_at self.new place ≡ limit_at self.old place }
        ensures segmented { self.new.segmented ≡ self.old.segmented }
        ensures answered { R.grows ≡ false → IsOk result }
    {
        if !self.segmented {
            return Ok(whole_field(field, self.plain_limit));
        }
        one_more_field_moves_its_run_on();
        let segment = read_segment(field[0]);
        let at = place(service, segment.map);
        let ended_kind = follow_at(&mut self.runs, at, segment.part, &field[1..])?;
        Ok(ended_at(ended_kind, at))
    }

    /// Ends the run of this stream if its field completed a unit. Call this function once the unit is delivered.
    #[inline(always)]
    pub fn commit(&mut self, service: Service, map: u8, ended: Ended)
        requires { map < 64 }
        ensures { self.new ≡ committed ended (place_of service map) self.old }
    {
        match ended {
            Ended::Nothing => {}
            Ended::Lying(_) => close_at(&mut self.runs, place(service, map)),
            Ended::Joined(_) => close_at(&mut self.runs, place(service, map)),
        }
    }

    /// Lends the octets in the room of the stream with this place. They are the unit if `stage` returned
    /// [`Ended::Joined`] for the last field of that stream.
    pub fn joined(&self, place: usize) -> &[u8]
        requires { place < length self.now.runs }
        ensures { Some result.now ≡ option_map (λ r. r.room.octets) (slice_get self.now.runs place) }
    {
        self.runs[place].octets()
    }
}

impl Runs<GrowingRoom> {
    // Returns a copy of the unit that this field completed, if it completed one.
    pub(crate) fn copied(
        &self,
        alloc: Global,
        ended: Ended,
        field: &[u8],
    ) -> Result<Option<Vec<u8>>, AllocError>
        requires { IsThere ended self.now field.now }
        ensures unit { IfOk result (λ unit. octets_in unit ≡ unit_in ended self.now field.now) }
        ensures refused { OnErr result (ended ≡ Ended.Nothing → ⊥) }
    {
        match ended {
            Ended::Nothing => Ok(None),
            Ended::Lying(from) => Ok(Some(Vec::from_slice(alloc, &field[from..])?)),
            Ended::Joined(at) => Ok(Some(Vec::from_slice(alloc, self.joined(at))?)),
        }
    }

    // Returns the unit that this field would complete, if any, in a block of its own. No more than one block is
    // allocated.
    pub(crate) fn unit_after(
        &self,
        alloc: Global,
        service: Service,
        field: &[u8],
    ) -> Result<Option<Vec<u8>>, AllocError>
        requires { 0 < length field.now }
        ensures { (fields : List (List ℕ)) → LeaveWithin fields self.now (stream_place service field.now)
            → IfOk result (λ unit. octets_in unit ≡ at_most (limit_at self.now (stream_place service field.now))
            (unit_ended self.now.segmented fields field.now)) }
    {
        if !self.segmented {
            return self.copied(alloc, whole_field(field, self.plain_limit), field);
        }
        let segment = read_segment(field[0]);
        let run = &self.runs[place(service, segment.map)];
        run.unit_after(segment.part, &field[1..])
    }
}
