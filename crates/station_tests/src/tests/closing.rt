//! Tests that close a station with the operator of another station, whose counts differ, and tests that close counting
//! stations.

ghost use Rattle.std.specs.Prelude.{◌≡◌, All};

use super::asking::OperatorList;
use super::*;
use tc_channel::{Recorded, Unrecorded};
use tc_station::{CountingCloseFault, CountingStation};

// Checks that a close with the operator of another station is refused, and that the channels are returned.
fn check_unbalanced(rt: &impl Abort, station: Station, operators: Vec<Operator>)
    requires { All (λ o. o.vcids ≡ station.vcids) operators.items }
{
    match station.close(operators) {
        Err(CloseFault::Unbalanced(channels, operators)) => {
            check_events(rt, &channels, &[1, 0]);
            assert_eq!(rt; operators.len(), 1);
            assert!(rt; operators[0].count(1) == Some(0));
        }
        _ => panic!(rt; "closed"),
    }
}

#[test]
fn an_operator_of_another_station_is_out_of_balance(rt: HostRuntime) {
    let alloc = rt.alloc();
    let mut operator_list = OperatorList::new(&rt, station_of_two(&rt, alloc), false);
    assert!(rt; operator_list.bring(&rt, &FRAME).is_ok());
    let other: OperatorList<Recorded> = OperatorList::new(&rt, station_of_two(&rt, alloc), false);
    let operators = list_of(alloc, other.operator).expect(&rt, "a list");
    check_unbalanced(&rt, operator_list.station, operators)
}

fn check_unbalanced_counting(rt: &impl Abort, station: CountingStation, operators: Vec<Operator>)
    requires { All (λ o. o.vcids ≡ station.vcids) operators.items }
{
    match station.close(operators) {
        Err(CountingCloseFault::Unbalanced(channels, operators)) => {
            check_events(rt, &channels, &[0]);
            assert_eq!(rt; operators.len(), 1);
            assert!(rt; operators[0].count(1) == Some(1));
        }
        _ => panic!(rt; "closed"),
    }
}

fn close_counting(rt: &impl Abort, station: CountingStation, operators: Vec<Operator>)
    requires { All (λ o. o.vcids ≡ station.vcids) operators.items }
{
    let channels = station.close(operators).expect(rt, "channels");
    check_events(rt, &channels, &[0])
}

#[test]
fn closes_counting(rt: HostRuntime) {
    let alloc = rt.alloc();
    let mut operator_list: OperatorList<Unrecorded> = OperatorList::new(
        &rt,
        station_of_one(&rt, alloc),
        false,
    );
    assert!(rt; operator_list.bring(&rt, &FRAME).is_ok());
    let mut station = station_of_one(&rt, alloc);
    let own = new_operators(&rt, &mut station, 1);
    let operators = list_of(alloc, operator_list.operator).expect(&rt, "a list");
    check_unbalanced_counting(&rt, station_of_one(&rt, alloc), operators);
    close_counting(&rt, station, own)
}
