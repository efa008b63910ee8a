//! One frame or release: the components of a unit before and after it.

ghost use Rattle.std.specs.Prelude.{◌≡◌, ◌<◌, Some, None, IsSome, IfSome, true, false};
ghost use Rattle.tc_link.specs.declared.farm.Arrival.TheVariants.{Frame};
ghost use Rattle.tc_link.specs.Farm.{E7, E10, after, counted, row_of, frame_row, entry};
ghost use Rattle.tc_judge.specs.Alternatives.{other_at, usual, other};

use crate::account::{Rules, SentFrame};
use tc_link::{Arrival, Command, Farm, Kind, Place, Report, State, Window};

/// Returns the components after a frame, by this project's table. Returns `None` if the table has no entry.
pub fn dealt(window: Window, r: Report, frame: SentFrame, room: bool) -> Option<Report>
    requires { r.farm_b < 4 }
    ensures entry { result ≡ usual window frame room r }
    ensures counter { IfSome result (λ y. y.farm_b < 4) }
{
    match frame {
        SentFrame::Known(kind) => entered(window, r, kind, room),
        SentFrame::OtherCommand => entered(window, r, Kind::Invalid, room),
    }
}

fn entered(window: Window, r: Report, kind: Kind, room: bool) -> Option<Report>
    requires { r.farm_b < 4 }
    ensures entry { result ≡ entry (frame_row window r.vr kind room) r }
    ensures counter { IfSome result (λ y. y.farm_b < 4) }
{
    let full = match kind {
        Kind::Ad(ns) => {
            room && r.state == State::S2 && window.place(r.vr, ns) == Place::Expected
        }
        _ => false,
    };
    if full {
        None
    } else {
        Some(stepped(window, r, kind, room))
    }
}

fn stepped(window: Window, r: Report, kind: Kind, room: bool) -> Report
    requires counter { r.farm_b < 4 }
    requires entry { IsSome (entry (row_of window r.vr (Frame kind room)) r) }
    ensures after { result ≡ after (row_of window r.vr (Frame kind room)) r }
    ensures counter { result.farm_b < 4 }
{
    let mut farm = Farm::resumed(window, r);
    let _act = farm.step(Arrival::Frame { kind, room });
    farm.report()
}

/// Returns the components after a frame by the other entry of its cell. Returns `None` if the cell has no other entry,
/// or if the unit may not take it by the rules.
pub fn otherwise(rules: &Rules, r: Report, frame: SentFrame) -> Option<Report>
    requires { r.farm_b < 4 }
    ensures profile { rules.now.profile ≡ true → result ≡ None }
    ensures other { rules.now.profile ≡ false → result ≡ other rules.now.window frame r }
    ensures counter { IfSome result (λ y. y.farm_b < 4) }
{
    if rules.profile {
        return None;
    }
    match frame {
        SentFrame::Known(kind) => other_entry(rules.window, r, kind),
        SentFrame::OtherCommand => Some(counted(r)),
    }
}

fn other_entry(window: Window, r: Report, kind: Kind) -> Option<Report>
    requires { r.farm_b < 4 }
    ensures other { result ≡ other_at (frame_row window r.vr kind false) r.state r }
    ensures counter { IfSome result (λ y. y.farm_b < 4) }
{
    match kind {
        Kind::Ad(ns) => match (window.place(r.vr, ns), r.state) {
            (Place::Ahead, State::S2) => Some(Report {
                retransmit: true,
                ..r
            }),
            _ => None,
        },
        Kind::Bc(Command::Unlock) => Some(unlocked(r)),
        Kind::Bc(Command::SetVr(_)) => match r.state {
            State::S3 => Some(r),
            _ => None,
        },
        Kind::Bd => None,
        Kind::Invalid => None,
    }
}

// Returns the components after an Unlock that leaves Retransmit as it is.
fn unlocked(r: Report) -> Report
    requires { r.farm_b < 4 }
    ensures unlocked { Some result ≡ other_at E7 r.state r }
    ensures counter { result.farm_b < 4 }
{
    let r = counted(r);
    match r.state {
        State::S1 => r,
        State::S2 => Report {
            state: State::S1,
            wait: false,
            ..r
        },
        State::S3 => Report {
            state: State::S1,
            wait: false,
            lockout: false,
            ..r
        },
    }
}

fn counted(r: Report) -> Report
    requires { r.farm_b < 4 }
    ensures counted { result ≡ counted r }
    ensures counter { result.farm_b < 4 }
{
    Report {
        farm_b: (r.farm_b + 1) % 4,
        ..r
    }
}

/// Returns the components after a release.
pub fn freed(r: Report) -> Report
    requires { r.farm_b < 4 }
    ensures after { result ≡ after E10 r }
    ensures counter { result.farm_b < 4 }
{
    match r.state {
        State::S1 => r,
        State::S2 => Report {
            state: State::S1,
            wait: false,
            ..r
        },
        State::S3 => Report { wait: false, ..r },
    }
}
