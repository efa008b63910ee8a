//! Two threads, each with an operator of its own, carry out operations on one station.

ghost use Rattle.std.specs.Thread.{IsSync};
ghost use Rattle.tc_station.specs.Tally.{IsOurs};

use super::*;
use std::thread::{Threads, join_mut};
use tc_station::ReleaseRefused;

// Brings a frame, and returns whether it wasn't refused.
fn bring(rt: &impl Wait, station: &Station, operator: &mut Operator, frame: &[u8]) -> bool
    requires { IsOurs station.now operator.old }
    ensures { IsOurs station.now operator.new }
{
    station.bring(rt, operator, frame).is_ok()
}

// Releases a data field of the channel. Returns whether the release succeeded, or was refused because the buffer was
// empty, since the other thread may have emptied it.
fn release(rt: &impl Wait, station: &Station, operator: &mut Operator, vcid: u8) -> bool
    requires { IsOurs station.now operator.old }
    ensures { IsOurs station.now operator.new }
{
    match station.release(rt, operator, vcid) {
        Ok(_) => true,
        Err(refused) => refused == ReleaseRefused::Empty,
    }
}

// Brings the channel's frame with this N(S), and releases a data field of the channel. Returns whether both succeeded,
// as `bring` and `release` define it.
fn turn(rt: &impl Wait, station: &Station, operator: &mut Operator, vcid: u8, ns: u8) -> bool
    requires { IsOurs station.now operator.old }
    ensures { IsOurs station.now operator.new }
{
    let brought = bring(rt, station, operator, &ad_frame(vcid, ns));
    let released = release(rt, station, operator, vcid);
    brought && released
}

// Takes 300 turns, each on channel 1 and then on channel 2. The N(S) of the frames rises from 0, modulo 256. Returns
// whether each turn succeeded.
fn take_turns(rt: &impl Wait, station: &Station, operator: &mut Operator) -> bool
    requires { IsOurs station.now operator.old }
    ensures { IsOurs station.now operator.new }
{
    let mut done = true;
    for number in 0..300u16 {
        let ns = (number % 256) as u8;
        let first = turn(rt, station, operator, 1, ns);
        let second = turn(rt, station, operator, 2, ns);
        done = done && first && second;
    }
    done
}

// Runs the turns of both operators, each in a thread of its own, and returns whether all turns succeeded.
fn share<R: Threads + Wait + Sync>(
    rt: &R,
    station: &Station,
    one: &mut Operator,
    two: &mut Operator,
) -> bool
    requires one { IsOurs station.now one.old }
    requires two { IsOurs station.now two.old }
    ensures one { IsOurs station.now one.new }
    ensures two { IsOurs station.now two.new }
{
    let mut first = || -> bool
        requires { IsSync R.row × IsOurs station.now one.now }
        ensures { IsOurs station.entry.now one.exit.now }
    { take_turns(rt, station, one) };
    let mut second = || -> bool
        requires { IsSync R.row × IsOurs station.now two.now }
        ensures { IsOurs station.entry.now two.exit.now }
    { take_turns(rt, station, two) };
    let (a, b) = join_mut(rt, &mut first, &mut second);
    a && b
}

fn counted_by_both(one: &Operator, two: &Operator, vcid: u8) -> Option<u64> {
    one.count(vcid)?.checked_add(two.count(vcid)?)
}

// Checks that the channel has as many events as the operators counted. There are at least 600 events, since each of the
// 600 frames is one.
fn check_journal(rt: &impl Abort, channel: &Channel, vcid: u8, counted: Option<u64>) {
    assert_eq!(rt; channel.settings().vcid, vcid);
    let events = channel.journal().len() as u64;
    assert!(rt; Some(events) == counted, "{events} events");
    assert!(rt; events >= 600);
}

#[test]
fn two_operators_on_one_station(rt: HostRuntime) {
    // The channels have room for 64 fields.
    let mut station = station_of_two(&rt, rt.alloc(), 64);
    let mut operators = station.operators(2).expect(&rt, "operators");
    let mut two = operators.pop().expect(&rt, "a second operator");
    let mut one = operators.pop().expect(&rt, "a first operator");
    assert!(rt; share(&rt, &station, &mut one, &mut two));
    let first = counted_by_both(&one, &two, 1);
    let second = counted_by_both(&one, &two, 2);
    let others = list_of(rt.alloc(), one).expect(&rt, "a list");
    let channels = close(&rt, station, others, two);
    assert_eq!(rt; channels.len(), 2);
    check_journal(&rt, &channels[0], 1, first);
    check_journal(&rt, &channels[1], 2, second);
}
