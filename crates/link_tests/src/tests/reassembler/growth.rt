//! Calls that may run out of memory. A call that runs out of memory must change no run, and is then made again.

use super::*;

// The MAP of all fields. All octets of their bodies are this number, too.
const MAP: u8 = 5;

const FIRST: [u8; 4] = [0x40 | MAP, 5, 5, 5];

const CONTINUING: [u8; 40] = [5; 40];

const LAST: [u8; 9] = [0x80 | MAP, 5, 5, 5, 5, 5, 5, 5, 5];

const UNSEGMENTED: [u8; 3] = [0xc0 | MAP, 5, 5];

// The run that `FIRST` opens, this run with the body of `CONTINUING` behind it, and the unit that `LAST` makes of each.
const SHORT_RUN: [u8; 3] = [5; 3];

const LONG_RUN: [u8; 42] = [5; 42];

const SHORT_UNIT: [u8; 11] = [5; 11];

const LONG_UNIT: [u8; 50] = [5; 50];

// Checks the open run of a stream, which is the unit that an empty last segment would end.
fn check_run(
    rt: &impl Abort,
    reassembler: &Reassembler,
    service: Service,
    map: u8,
    expected: Option<&[u8]>,
) {
    let close = [0x80 | (map & 0x3f)];
    let run = match ask(rt, reassembler, service, &close) {
        Ok(run) => run,
        Err(NoMemory) => ask(rt, reassembler, service, &close).expect(rt, "an answer"),
    };
    assert_eq!(rt; run.as_deref(), expected, "{service:?}, MAP {map}");
}

// Checks that the stream of `MAP` on BD has this open run, and that no other stream has one.
fn check_only_run(rt: &impl Abort, reassembler: &Reassembler, expected: Option<&[u8]>) {
    for map in 0..64 {
        check_run(rt, reassembler, Service::Ad, map, None);
        let expected = if map == MAP { expected } else { None };
        check_run(rt, reassembler, Service::Bd, map, expected);
    }
}

fn made(rt: &(impl Abort + Print), alloc: Global, segmented: bool) -> Reassembler {
    let new = || Reassembler::new(alloc, segmented);
    made_again(rt, "Reassembler::new", NoMemory, &new).expect(rt, "an answer")
}

// Prints that memory for the `push` of this field was refused.
fn report_refused(rt: &(impl Abort + Print), field: &[u8]) {
    assert!(rt; !field.is_empty());
    let part = read_segment(field[0]).part;
    let _ = println!(rt; "refused: push, {part:?}");
}

// A field, the unit that it ends, and the open run after it.
type Row = (&'static [u8], Option<&'static [u8]>, Option<&'static [u8]>);

// Pushes a field to the reassembler, and checks the unit and the open runs before and after.
fn check_push(
    rt: &(impl Abort + Print),
    reassembler: &mut Reassembler,
    before: Option<&[u8]>,
    row: &Row,
) {
    let (field, unit, after) = *row;
    check_only_run(rt, reassembler, before);
    let mut answer = push(rt, reassembler, Service::Bd, field);
    if answer.is_err() {
        report_refused(rt, field);
        check_only_run(rt, reassembler, before);
        answer = push(rt, reassembler, Service::Bd, field);
    }
    check_unit(rt, answer, unit);
    check_only_run(rt, reassembler, after);
}

// The row of `FIRST`, which opens `SHORT_RUN`.
const OPENED: Row = (&FIRST, None, Some(&SHORT_RUN));

// Segments of each of the four kinds. A first segment and an unsegmented segment drop the run that is open.
static SEGMENTS: [Row; 8] = [
    OPENED,
    OPENED,
    (&CONTINUING, None, Some(&LONG_RUN)),
    (&LAST, Some(&LONG_UNIT), None),
    OPENED,
    (&LAST, Some(&SHORT_UNIT), None),
    OPENED,
    (&UNSEGMENTED, Some(&[5, 5]), None),
];

#[test]
fn growth_of_units_and_open_runs(rt: HostRuntime) {
    let mut reassembler = made(&rt, rt.alloc(), true);
    check_only_run(&rt, &reassembler, None);
    let mut before = None;
    for row in &SEGMENTS {
        check_push(&rt, &mut reassembler, before, row);
        before = row.2;
    }
}

// Checks that the field would end this unit while `SHORT_RUN` is open, and that the run stays open. `None` stands for
// no unit.
fn check_asked(
    rt: &(impl Abort + Print),
    reassembler: &Reassembler,
    field: &[u8],
    unit: Option<&[u8]>,
) {
    let mut answer = ask(rt, reassembler, Service::Bd, field);
    if answer.is_err() {
        let _ = println!(rt; "refused: unit_after");
        check_only_run(rt, reassembler, Some(&SHORT_RUN));
        answer = ask(rt, reassembler, Service::Bd, field);
    }
    check_unit(rt, answer, unit);
    check_only_run(rt, reassembler, Some(&SHORT_RUN));
}

static ASKED: [(&[u8], Option<&[u8]>); 4] = [
    (&LAST, Some(&SHORT_UNIT)),
    (&UNSEGMENTED, Some(&[5, 5])),
    (&FIRST, None),
    (&CONTINUING, None),
];

#[test]
fn growth_of_a_unit_that_a_segment_would_end(rt: HostRuntime) {
    let mut reassembler = made(&rt, rt.alloc(), true);
    check_push(&rt, &mut reassembler, None, &OPENED);
    for (field, unit) in &ASKED {
        check_asked(&rt, &reassembler, field, *unit)
    }
}

// Checks that `unit_after` and `push` both return a field without a segment header as a unit.
fn check_plain(rt: &(impl Abort + Print), reassembler: &mut Reassembler, field: &[u8]) {
    let would_end = || ask(rt, reassembler, Service::Bd, field);
    let answer = made_again(rt, "unit_after, plain", NoMemory, &would_end);
    check_unit(rt, answer, Some(field));
    let mut answer = push(rt, reassembler, Service::Bd, field);
    if answer.is_err() {
        let _ = println!(rt; "refused: push, plain");
        answer = push(rt, reassembler, Service::Bd, field);
    }
    check_unit(rt, answer, Some(field));
}

// On a channel with segment headers these fields would be a first segment, and the header of a last one.
#[test]
fn growth_of_units_of_a_plain_channel(rt: HostRuntime) {
    let mut reassembler = made(&rt, rt.alloc(), false);
    check_plain(&rt, &mut reassembler, &FIRST);
    check_plain(&rt, &mut reassembler, b"\x80")
}
