//! FARM-1 on a record that the caller keeps.

ghost use Rattle.std.specs.Prelude.{◌≡◌, ◌<◌, is_some, IsSome, IfOk, IfErr, OnOk};
ghost use Rattle.tc_link.specs.Bits.{bit};
ghost use Rattle.tc_link.specs.Farm.{row_of, number_of, entry, accepts, first_report};
ghost use Rattle.tc_c_base.specs.Status.{code_of};
ghost use Rattle.tc_c.specs.Farm.{no_record, record_of, state_of, flag_of, agrees, report_of, farm_of, first_farm, arrival_of, asked_of, left};

use tc_c_base::{Status, code};
use tc_link::{Arrival, Command, Farm, Kind, Place, Report, State, Window};

/// FARM-1 as C keeps it: the width of its window and its six components (CCSDS 232.1-B, 6.1).
#[repr(C)]
#[derive(Clone, Copy)]
pub struct FarmRecord {
    /// The width of the sliding window, even and 2 to 254.
    pub width: u8,
    /// The state: 1 is Open, 2 is Wait, 3 is Lockout.
    pub state: u8,
    /// The receiver frame sequence number V(R), modulo 256.
    pub vr: u8,
    /// The FARM-B counter, 0 to 3.
    pub farm_b: u8,
    /// The Lockout flag. It is 0 or 1, and so are the two flags after it.
    pub lockout: u8,
    pub wait: u8,
    pub retransmit: u8,
}

/// A status with a record of FARM-1.
#[repr(C)]
#[derive(Clone, Copy)]
pub struct FarmAnswer {
    pub status: u32,
    pub farm: FarmRecord,
}

/// The outcome of an arrival at FARM-1, with its record after the arrival.
#[repr(C)]
#[derive(Clone, Copy)]
pub struct StepAnswer {
    pub status: u32,
    pub farm: FarmRecord,
    /// The number of the event, 1 to 10, or 0 if the call fails.
    pub event: u8,
    /// 1 if the frame's data field was accepted, otherwise 0. It is also 0 for a control command and for a release.
    pub accepted: u8,
}

/// Starts FARM-1 in S1 with this first V(R). Every flag and the FARM-B counter are 0 (CCSDS 232.1-B, 6.1).
///
/// The width is even and 2 to 254. For another width the call fails with BadWidth, and each number of the record is 0.
#[unsafe(no_mangle)]
pub extern "C" fn tcrx_farm_start(width: u8, first: u8) -> FarmAnswer
    ensures started { IfOk (first_farm width first) (λ farm. result ≡ record { status = code_of Status.Done; farm = record_of farm }) }
    ensures refused { IfErr (first_farm width first) (λ fault. result ≡ record { status = code_of fault; farm = no_record }) }
{
    match Window::new(width) {
        Some(window) => FarmAnswer {
            status: code(Status::Done),
            farm: record(width, Farm::new(window, first).report()),
        },
        None => no_farm(Status::BadWidth),
    }
}

/// Returns the record of a call that fails with this status.
pub(crate) fn no_farm(fault: Status) -> FarmAnswer
    ensures { result ≡ record { status = code_of fault; farm = no_record } }
{
    FarmAnswer {
        status: code(fault),
        farm: FarmRecord {
            width: 0,
            state: 0,
            vr: 0,
            farm_b: 0,
            lockout: 0,
            wait: 0,
            retransmit: 0,
        },
    }
}

/// Takes one step of FARM-1, by its state table (CCSDS 232.1-B, 6.3).
///
/// `arrival` is the kind of a frame, 1 to 5 as `tcrx_kind` reports it, or 6 for a buffer release. `number` is the N(S)
/// of an AD frame or the new V(R) of a Set V(R), and has no meaning for other arrivals. `room` is 1 if the buffer has
/// room for an AD frame, otherwise 0.
///
/// The call fails if no FARM-1 has this record, if `arrival` or `room` has another value, or if the table has no entry
/// for the arrival. The only arrival without an entry is an expected AD frame that comes in S2 with `room` 1. Each of
/// these faults has its own status. If the call fails, the record stays as it was.
#[unsafe(no_mangle)]
pub extern "C" fn tcrx_farm_step(
    before: FarmRecord,
    arrival: u8,
    number: u8,
    room: u8,
) -> StepAnswer
    ensures status { OnOk (asked_of before arrival number room) (result.status ≡ code_of Status.Done) }
    ensures farm { IfOk (asked_of before arrival number room) (λ asked. result.farm ≡ record_of (left asked.0 asked.1)) }
    ensures event { IfOk (asked_of before arrival number room) (λ asked. result.event ≡ number_of (row_of asked.0.width asked.0.report.vr asked.1)) }
    ensures accepted { IfOk (asked_of before arrival number room)
        (λ asked. result.accepted ≡ bit (accepts (row_of asked.0.width asked.0.report.vr asked.1) asked.0.report)) }
    ensures refused { IfErr (asked_of before arrival number room)
        (λ fault. result ≡ record { status = code_of fault; farm = before; event = 0; accepted = 0 }) }
{
    match asked(before, arrival, number, room) {
        Ok((mut farm, arrival)) => {
            let act = farm.step(arrival);
            StepAnswer {
                status: code(Status::Done),
                farm: record(before.width, farm.report()),
                event: act.event,
                accepted: u8::from(act.accepted),
            }
        }
        Err(fault) => StepAnswer {
            status: code(fault),
            farm: before,
            event: 0,
            accepted: 0,
        },
    }
}

/// Returns the record of FARM-1 with these components.
pub(crate) fn record(width: u8, report: Report) -> FarmRecord
    ensures { result ≡ record_of (record { width = width; report = report }) }
{
    FarmRecord {
        width,
        state: match report.state {
            State::S1 => 1,
            State::S2 => 2,
            State::S3 => 3,
        },
        vr: report.vr,
        farm_b: report.farm_b,
        lockout: u8::from(report.lockout),
        wait: u8::from(report.wait),
        retransmit: u8::from(report.retransmit),
    }
}

/// Returns the flag that a number stands for, or BadFlag if the number is neither 0 nor 1.
pub(crate) fn flag(number: u8) -> Result<bool, Status>
    ensures flag { result ≡ flag_of number }
    ensures fault { IfErr result (λ fault. fault ≡ Status.BadFlag) }
{
    match number {
        0 => Ok(false),
        1 => Ok(true),
        _ => Err(Status::BadFlag),
    }
}

fn state(number: u8) -> Result<State, Status>
    ensures { result ≡ state_of number }
{
    match number {
        1 => Ok(State::S1),
        2 => Ok(State::S2),
        3 => Ok(State::S3),
        _ => Err(Status::BadState),
    }
}

// Returns whether FARM-1 can be in this state with these flags.
fn agree(state: State, lockout: bool, wait: bool, retransmit: bool) -> bool
    ensures { result ≡ agrees state lockout wait retransmit }
{
    match state {
        State::S1 => !lockout && !wait,
        State::S2 => !lockout && wait && retransmit,
        State::S3 => lockout && (!wait || retransmit),
    }
}

// Returns the components in a record, or the first reason why FARM-1 can't have them.
fn report(kept: FarmRecord) -> Result<Report, Status>
    ensures { result ≡ report_of kept }
{
    let state = state(kept.state)?;
    if kept.farm_b > 3 {
        return Err(Status::BadFarmB);
    }
    let lockout = flag(kept.lockout)?;
    let wait = flag(kept.wait)?;
    let retransmit = flag(kept.retransmit)?;
    if !agree(state, lockout, wait, retransmit) {
        return Err(Status::FlagsDisagree);
    }
    Ok(Report {
        state,
        vr: kept.vr,
        lockout,
        wait,
        retransmit,
        farm_b: kept.farm_b,
    })
}

/// Returns the FARM-1 that a record stands for, or the first reason why no FARM-1 has this record.
pub(crate) fn farm(kept: FarmRecord) -> Result<Farm, Status>
    ensures { result ≡ farm_of kept }
{
    match Window::new(kept.width) {
        Some(window) => Ok(Farm::resumed(window, report(kept)?)),
        None => Err(Status::BadWidth),
    }
}

fn arrival(number: u8, value: u8, room: u8) -> Result<Arrival, Status>
    ensures { result ≡ arrival_of number value room }
{
    let room = flag(room)?;
    let kind = match number {
        1 => Kind::Ad(value),
        2 => Kind::Bd,
        3 => Kind::Bc(Command::Unlock),
        4 => Kind::Bc(Command::SetVr(value)),
        5 => Kind::Invalid,
        6 => return Ok(Arrival::Release),
        _ => return Err(Status::BadArrival),
    };
    Ok(Arrival::Frame { kind, room })
}

// Returns whether the table has an entry for the arrival. An expected AD frame that comes in S2 and finds room has
// none.
fn has_entry(window: &Window, report: &Report, arrival: Arrival) -> bool
    ensures { result ≡ is_some (entry (row_of window.now report.now.vr arrival) report.now) }
{
    match arrival {
        Arrival::Frame {
            kind: Kind::Ad(ns),
            room: true,
        } => report.state != State::S2 || window.place(report.vr, ns) != Place::Expected,
        _ => true,
    }
}

// Reads a FARM-1 and an arrival from the arguments of a call. Returns the first fault of the arguments, or NoEntry if
// they have no fault and the table has no entry for the arrival.
fn asked(kept: FarmRecord, number: u8, value: u8, room: u8) -> Result<(Farm, Arrival), Status>
    ensures asked { result ≡ asked_of kept number value room }
    ensures width { IfOk result (λ asked. asked.0.width ≡ kept.width) }
    ensures entry { IfOk result (λ asked. IsSome (entry (row_of asked.0.width asked.0.report.vr asked.1) asked.0.report)) }
{
    let Some(window) = Window::new(kept.width) else {
        return Err(Status::BadWidth);
    };
    let report = report(kept)?;
    let arrival = arrival(number, value, room)?;
    if !has_entry(&window, &report, arrival) {
        return Err(Status::NoEntry);
    }
    Ok((Farm::resumed(window, report), arrival))
}
