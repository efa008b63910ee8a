//! Tests of the status words that watchers read.

ghost use Rattle.std.specs.Prelude.{◌≡◌};
ghost use Rattle.tc_station.specs.Moments.{IsWatcherOf};
ghost use Rattle.tc_station.specs.Tally.{IsOurs, KnowsDesks};

use super::asking::OperatorList;
use super::*;
use tc_channel::SettingsFault;
use tc_link::read_frame;
use tc_station::{Brought, Desk};
use tc_status::Watcher;
use test_parts::BUFFERED;

const BROUGHT: Brought = Brought {
    vcid: 1,
    reply: BUFFERED,
};

// Checks that the watcher reads this word.
fn check_read<J: Journal>(
    rt: &impl Abort,
    operator_list: &OperatorList<J>,
    watcher: &mut Watcher,
    word: u32,
) {
    assert_eq!(rt; operator_list.station.watch(watcher, NO_FLAG), word);
}

#[test]
fn each_watcher_reads_its_own_channel(rt: HostRuntime) {
    let station: Station = station_of_two(&rt, rt.alloc());
    let mut operator_list = OperatorList::new(&rt, station, true);
    let mut first = operator_list
        .station
        .watcher(&rt, 1)
        .expect(&rt, "a watcher");
    let mut second = operator_list
        .station
        .watcher(&rt, 2)
        .expect(&rt, "a watcher");
    assert!(rt; operator_list.bring(&rt, &FRAME) == Ok(BROUGHT));
    check_read(&rt, &operator_list, &mut first, 0x01040001);
    check_read(&rt, &operator_list, &mut second, 0x01080000);
    assert!(rt; operator_list.bring_watched(&rt, &NEXT) == Ok((BROUGHT, 0x01040002)));
    assert!(rt;
        (
            operator_list.operator.count(1),
            operator_list.operator.count(2)
        ) == (Some(2), Some(0))
    );
}

// Brings octets, and then lets the watcher of channel 1 meet that channel through the same operator. This shows that a
// watcher can meet its channel through an operator that has just made a call.
fn bring_and_meet<J: Journal, R: Wait>(
    rt: &R,
    station: &StationOf<J>,
    operator: &mut Operator,
    watcher: &mut Watcher,
    octets: &[u8],
)
    requires ours { IsOurs station.now operator.old }
    requires knows { KnowsDesks station.now operator.old }
    requires watcher { IsWatcherOf station.now 1 watcher.old }
{
    let _ = station.bring(rt, operator, octets);
    station.meet(rt, operator, watcher, 1);
}

#[test]
fn a_watcher_reads_what_it_met(rt: HostRuntime) {
    let mut station: Station = station_of_one(&rt, rt.alloc());
    let mut operators = new_operators(&rt, &mut station, 1);
    let mut watcher = station.watcher(&rt, 1).expect(&rt, "a watcher");
    bring_and_meet(&rt, &station, &mut operators[0], &mut watcher, &FRAME);
    assert_eq!(rt; watcher.read(), 0x01040001);
}

fn new_desk(rt: &impl Abort, alloc: Global) -> Desk {
    let desk: Result<Desk, SettingsFault> = Desk::new(alloc, settings_for(rt, alloc, 1));
    desk.expect(rt, "a desk")
}

fn bring(rt: &impl Abort, desk: &mut Desk, octets: &[u8])
    ensures { desk.new.board ≡ desk.old.board }
{
    let frame = read_frame(octets).expect(rt, "a frame");
    assert!(rt; desk.frame(&frame) == Ok(BUFFERED));
}

// The watcher was created before the first frame.
#[test]
fn a_watcher_that_met_its_desk_reads_the_frame(rt: HostRuntime) {
    let mut desk = new_desk(&rt, rt.alloc());
    let mut watcher = desk.watcher().expect(&rt, "a watcher");
    let before = watcher.read();
    bring(&rt, &mut desk, &FRAME);
    desk.meet(&mut watcher);
    assert!(rt; (before, watcher.read()) == (0x01040000, 0x01040001));
}
