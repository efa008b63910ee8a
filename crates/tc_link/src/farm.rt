//! FARM-1, the receiving side of COP-1.

ghost use Rattle.std.specs.Prelude.{◌≡◌, ◌<◌, true, false, IsSome};
ghost use Rattle.tc_link.specs.Window.{IsWidth};
ghost use Rattle.tc_link.specs.Farm.{E1, E2, E3, E5, E6, E7, E8, E10, row_of, number_of, entry, accepts, after, first_report};

use crate::command::{Command, Kind};
use crate::window::{Place, Window};
use std::marker::Model;

/// The state of FARM-1: S1 is Open, S2 is Wait, and S3 is Lockout (CCSDS 232.1-B, 6.1).
#[derive(Clone, Copy, Debug, PartialEq, Eq)]
pub enum State {
    S1,
    S2,
    S3,
}

/// The six components of FARM-1 (CCSDS 232.1-B, 6.1).
#[derive(Clone, Copy, Debug, PartialEq, Eq)]
pub struct Report {
    pub state: State,
    /// The receiver frame sequence number V(R), modulo 256.
    pub vr: u8,
    pub lockout: bool,
    pub wait: bool,
    pub retransmit: bool,
    /// The FARM-B counter, modulo 4.
    pub farm_b: u8,
}

/// An arrival at FARM-1: a frame, together with whether the buffer has room for it, or a buffer release.
#[derive(Clone, Copy, Debug, PartialEq, Eq)]
pub enum Arrival {
    Frame { kind: Kind, room: bool },
    Release,
}

/// The response of FARM-1 to an arrival.
#[derive(Clone, Copy, Debug, PartialEq, Eq)]
pub struct Act {
    /// The number of the event, 1 to 10.
    pub event: u8,
    /// Whether the frame was accepted.
    pub accepted: bool,
}

// Processes an arrival. Returns the act, and writes only the components that change.
#[inline(always)]
fn stepped(window: &Window, r: &mut Report, arrival: Arrival) -> Act
    requires { IsSome (entry (row_of window.now r.old.vr arrival) r.old) }
    ensures event { result.event ≡ number_of (row_of window.now r.old.vr arrival) }
    ensures accepted { result.accepted ≡ accepts (row_of window.now r.old.vr arrival) r.old }
    ensures report { r.new ≡ after (row_of window.now r.old.vr arrival) r.old }
{
    match arrival {
        Arrival::Frame {
            kind: Kind::Ad(ns),
            room,
        } => match window.place(r.vr, ns) {
            Place::Expected if room => expected(r),
            Place::Expected => {
                full(r);
                discarded(2)
            }
            Place::Ahead => {
                ahead(r);
                discarded(3)
            }
            Place::Behind => discarded(4),
            Place::Outside => {
                outside(r);
                discarded(5)
            }
        },
        Arrival::Frame {
            kind: Kind::Bd,
            room: _,
        } => {
            count(r);
            accepted(6)
        }
        Arrival::Frame {
            kind: Kind::Bc(Command::Unlock),
            room: _,
        } => {
            unlock(r);
            discarded(7)
        }
        Arrival::Frame {
            kind: Kind::Bc(Command::SetVr(x)),
            room: _,
        } => {
            set(r, x);
            discarded(8)
        }
        Arrival::Frame {
            kind: Kind::Invalid,
            room: _,
        } => discarded(9),
        Arrival::Release => {
            release(r);
            discarded(10)
        }
    }
}

fn accepted(event: u8) -> Act
    ensures { result ≡ record { event = event; accepted = true } }
{
    Act {
        event,
        accepted: true,
    }
}

fn discarded(event: u8) -> Act
    ensures { result ≡ record { event = event; accepted = false } }
{
    Act {
        event,
        accepted: false,
    }
}

fn expected(r: &mut Report) -> Act
    requires { IsSome (entry E1 r.old) }
    ensures act { result ≡ record { event = 1; accepted = accepts E1 r.old } }
    ensures report { r.new ≡ after E1 r.old }
{
    match r.state {
        State::S1 => {
            r.vr = r.vr.wrapping_add(1);
            r.retransmit = false;
            accepted(1)
        }
        State::S2 => discarded(1),
        State::S3 => discarded(1),
    }
}

// Most Type-AD frames are expected and find room. Other Type-AD frames are rare, so their transitions are compiled
// apart from the path of an accepted frame.
#[cold]
#[inline(never)]
fn full(r: &mut Report)
    ensures { r.new ≡ after E2 r.old }
{
    match r.state {
        State::S1 => {
            r.state = State::S2;
            r.retransmit = true;
            r.wait = true;
        }
        State::S2 => {}
        State::S3 => {}
    }
}

#[cold]
#[inline(never)]
fn ahead(r: &mut Report)
    ensures { r.new ≡ after E3 r.old }
{
    match r.state {
        State::S1 => r.retransmit = true,
        State::S2 => {}
        State::S3 => {}
    }
}

#[cold]
#[inline(never)]
fn outside(r: &mut Report)
    ensures { r.new ≡ after E5 r.old }
{
    match r.state {
        State::S1 => {
            r.state = State::S3;
            r.lockout = true;
        }
        State::S2 => {
            r.state = State::S3;
            r.lockout = true;
        }
        State::S3 => {}
    }
}

fn count(r: &mut Report)
    ensures { r.new ≡ after E6 r.old }
{
    r.farm_b = r.farm_b.wrapping_add(1) % 4;
}

fn unlock(r: &mut Report)
    ensures { r.new ≡ after E7 r.old }
{
    r.farm_b = r.farm_b.wrapping_add(1) % 4;
    r.retransmit = false;
    match r.state {
        State::S1 => {}
        State::S2 => {
            r.state = State::S1;
            r.wait = false;
        }
        State::S3 => {
            r.state = State::S1;
            r.wait = false;
            r.lockout = false;
        }
    }
}

fn set(r: &mut Report, x: u8)
    ensures { r.new ≡ after (E8 x) r.old }
{
    r.farm_b = r.farm_b.wrapping_add(1) % 4;
    match r.state {
        State::S1 => {
            r.vr = x;
            r.retransmit = false;
        }
        State::S2 => {
            r.state = State::S1;
            r.vr = x;
            r.retransmit = false;
            r.wait = false;
        }
        State::S3 => {} // Set V(R) isn't obeyed in lockout.
    }
}

fn release(r: &mut Report)
    ensures { r.new ≡ after E10 r.old }
{
    match r.state {
        State::S1 => {}
        State::S2 => {
            r.state = State::S1;
            r.wait = false;
        }
        State::S3 => r.wait = false,
    }
}

/// FARM-1 with its window. In contracts, its value is the window's width and the six components.
#[derive(Clone, Copy, Debug)]
pub struct Farm {
    window: Window,
    report: Report,
}

impl Model for Farm {
    ghost use Rattle.std.specs.Prelude.{◌<◌};
    ghost use Rattle.tc_link.specs.Farm.{Machine};

    ghost Value = { Machine };

    ghost view = { λ f. record { width = f.window; report = f.report } };

    ghost inverse = { λ m. record { window = m.width; report = m.report } };

    ghost invariant = { λ f. f.report.farm_b < 4 };
}

impl Farm {
    /// Creates a FARM-1 in S1, with `first` as its V(R), every flag cleared and the FARM-B counter at 0.
    pub fn new(window: Window, first: u8) -> Farm
        ensures width { result.width ≡ window }
        ensures report { result.report ≡ first_report first }
    {
        Farm {
            window,
            report: Report {
                state: State::S1,
                vr: first,
                lockout: false,
                wait: false,
                retransmit: false,
                farm_b: 0,
            },
        }
    }

    /// Creates a FARM-1 that continues from an earlier one. `report` holds the earlier FARM-1's six components, and
    /// `window` is its window.
    ///
    /// The FARM-B counter must be below 4, as it always is in a result of [`Farm::report`]. Nothing is allocated.
    pub fn resumed(window: Window, report: Report) -> Farm
        requires farm_b { report.farm_b < 4 }
        ensures width { result.width ≡ window }
        ensures report { result.report ≡ report }
    {
        Farm { window, report }
    }

    /// Returns the six components. Callers of [`Farm::step`] need them to know whether the state is S2.
    pub fn report(&self) -> Report
        ensures report { result ≡ self.now.report }
        ensures farm_b { result.farm_b < 4 }
        ensures width { IsWidth self.now.width }
    {
        // This call is here only for its contract, which ensures that the window has a valid width.
        let _place = self.window.place(0, 0);
        self.report
    }

    /// Processes one arrival by the state table of FARM-1 (CCSDS 232.1-B, 6.3).
    ///
    /// The table must have an entry for the arrival. Only an expected Type-AD frame that finds room in S2 has none. No
    /// such frame comes if the state is S2 only while the buffer is full.
    #[inline(always)]
    pub fn step(&mut self, arrival: Arrival) -> Act
        requires { IsSome (entry (row_of self.old.width self.old.report.vr arrival) self.old.report) }
        ensures event { result.event ≡ number_of (row_of self.old.width self.old.report.vr arrival) }
        ensures accepted { result.accepted ≡ accepts (row_of self.old.width self.old.report.vr arrival) self.old.report }
        ensures report { self.new.report ≡ after (row_of self.old.width self.old.report.vr arrival) self.old.report }
        ensures width { self.new.width ≡ self.old.width }
    {
        let Farm { window, report } = self;
        stepped(window, report, arrival)
    }
}
