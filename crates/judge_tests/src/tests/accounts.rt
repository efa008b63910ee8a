//! Accounts of units that receive, and the verdicts on them. If no comment says otherwise, the accounts, the verdicts
//! and the CLCWs that are possible are from a FARM-1 and a judge in Python that were written apart from the sources.

use std::alloc::{AllocError, Global};
use std::process::Abort;
use tc_judge::{
    COMPONENTS, Item, Judge, Rules, Shown, ShownSet, Verdict, is_possible, read_heard, read_sent,
};
use tc_link::{Farm, Report, State, Window};

// The frames that were sent on virtual channel 1 of spacecraft 42, each with at least 6 octets, and the CLCWs that were
// heard, of 4 octets. The unit has a window of 10, room for 3 data fields, and V(R) at 252 at first. Nothing is lost.
const RIGHT: &str =
    "002a0405fcaa 010400fd 010400fd 002a0405fdaa 010400fe 010400fe 002a0405feaa 010400ff 010400ff 002a0405ffaa \
    01040000 01040000 002a040500aa 01040001 01040001 002a040501aa 01040002 01040002 002a040503aa 01040802 \
    302a040700820002 01040202 002a040506aa 01040a02 302a04050000 01040402 002a040501aa 01040402 002a0405fdaa \
    01040402 002a040507aa 01042402 302a040700820005 01042602 302a04050000 01040002 002a0405fcaa 01042002 \
    302a04050000 01040202 002a040582aa 01042202 302a04050000 01040402 202a040500aa 01040602 202a040500aa \
    01040002 102a04050000 01040002 002a040502aa 01040003 002a040503aa 01040004 002a040504aa 01040005 \
    002a040505aa 01041805 002a040505aa 01041805 01040805 002a040505aa 01040006 01040006 01040006 01040006 \
    002a040506aa 01040007 302a040700820007 01040207 002a040507aa 01040208";

// An account of a wrong unit: the first `right` items of `RIGHT`, and then the items `then`, of which only the last is
// impossible.
struct Wrong {
    right: usize,
    then: &'static str,
    // The CLCWs that would have been possible in place of the last item.
    possible: &'static str,
    // True if the last item is impossible even if frames may be lost.
    lossy: bool,
}

const WRONG: [Wrong; 12] = [
    // The window has one number more ahead.
    Wrong {
        right: 31,
        then: "01040c02",
        possible: "01040402 01042402",
        lossy: true,
    },
    // The window has one number fewer ahead.
    Wrong {
        right: 23,
        then: "01042202",
        possible: "01040202 01040a02",
        lossy: true,
    },
    // The window has one number fewer behind.
    Wrong {
        right: 29,
        then: "01042402",
        possible: "01040402",
        lossy: true,
    },
    // Set V(R) leaves Retransmit as it is.
    Wrong {
        right: 21,
        then: "01040a02",
        possible: "01040202 01040802",
        lossy: true,
    },
    // An accepted frame leaves Retransmit as it is.
    Wrong {
        right: 62,
        then: "01040806",
        possible: "01040006 01040805 01041805",
        lossy: true,
    },
    // The counter counts an accepted frame of Type-AD.
    Wrong {
        right: 1,
        then: "010402fd",
        possible: "010400fc 010400fd 010408fc 010418fc",
        lossy: true,
    },
    // The counter is modulo 3.
    Wrong {
        right: 33,
        then: "01042002",
        possible: "01042402 01042602",
        lossy: true,
    },
    // No frame leads to lockout.
    Wrong {
        right: 31,
        then: "01040402 302a040700820005 01040605",
        possible: "01040402 01042402 01042602",
        lossy: false,
    },
    // A release leaves Wait as it is.
    Wrong {
        right: 60,
        then: "01041805 002a040505aa 01041006",
        possible: "01040006 01040805 01041805",
        lossy: true,
    },
    // Set V(R) is obeyed in lockout.
    Wrong {
        right: 33,
        then: "01042605",
        possible: "01042402 01042602",
        lossy: true,
    },
    // Unlock sets V(R) to 0.
    Wrong {
        right: 25,
        then: "01040400",
        possible: "01040402 01040a02",
        lossy: true,
    },
    // A frame behind leads to lockout.
    Wrong {
        right: 27,
        then: "01042402",
        possible: "01040402",
        lossy: true,
    },
];

fn window(rt: &impl Abort) -> Window {
    Window::new(10).expect(rt, "a width")
}

fn rules(rt: &impl Abort, lossy: bool, profile: bool) -> Rules {
    Rules {
        window: window(rt),
        lossy,
        profile,
    }
}

// Returns the components with which a FARM-1 starts.
fn first(rt: &impl Abort, vr: u8) -> Shown {
    Shown::new(Farm::new(window(rt), vr).report()).expect(rt, "shown components")
}

// Creates a judge, even if memory is refused once.
fn judge(
    rt: &(impl Abort + Print),
    alloc: Global,
    lossy: bool,
    profile: bool,
    vr: u8,
    most: usize,
) -> Result<Judge, AllocError> {
    let first = first(rt, vr);
    let made = Judge::new(alloc, rules(rt, lossy, profile), first, most);
    if made.is_err() {
        let _ = println!(rt; "refused: Judge::new");
        return Judge::new(alloc, rules(rt, lossy, profile), first, most);
    }
    made
}

fn read_word(rt: &impl Abort, word: &str) -> Shown {
    let mut octets = [0; 4];
    assert!(rt; hex::decode_to_slice(word, &mut octets).is_ok());
    read_heard(u32::from_be_bytes(octets), 1).expect(rt, "a CLCW")
}

// Notes an item, and returns the verdict on it, which is `Possible` for a frame.
fn note(rt: &impl Abort, judge: &mut Judge, item: &str) -> Verdict {
    match item.len() {
        8 => judge.heard(read_word(rt, item)),
        12 => {
            let mut octets = [0; 6];
            assert!(rt; hex::decode_to_slice(item, &mut octets).is_ok());
            send(rt, judge, &octets)
        }
        _ => {
            let mut octets = [0; 8];
            assert!(rt; hex::decode_to_slice(item, &mut octets).is_ok());
            send(rt, judge, &octets)
        }
    }
}

fn send(rt: &impl Abort, judge: &mut Judge, octets: &[u8]) -> Verdict {
    judge.sent(read_sent(octets, 42, 1, true).expect(rt, "a frame"));
    Verdict::Possible
}

// Notes at most `most` of the items, until one isn't possible, and returns the last verdict.
fn noted(rt: &impl Abort, judge: &mut Judge, items: &str, most: usize) -> Verdict {
    for item in items.split(' ').take(most) {
        match note(rt, judge, item) {
            Verdict::Possible => {}
            other => return other,
        }
    }
    Verdict::Possible
}

// Creates a set, even if memory is refused once.
fn shown_set(rt: &impl Print, alloc: Global) -> Result<ShownSet, AllocError> {
    let made = ShownSet::new(alloc);
    if made.is_err() {
        let _ = println!(rt; "refused: ShownSet::new");
        return ShownSet::new(alloc);
    }
    made
}

// Compares the components that the judge finds possible with those of CLCWs.
fn compare_possible(rt: &impl Abort, judge: &mut Judge, set: &mut ShownSet, words: &str) {
    judge.possible(set);
    for word in words.split(' ') {
        assert!(rt; set.contains(read_word(rt, word)));
    }
    for place in 0..COMPONENTS {
        if let Some(shown) = set.get(place) {
            assert!(rt; is_listed(rt, words, shown));
        }
    }
}

fn is_listed(rt: &impl Abort, words: &str, shown: Shown) -> bool {
    for word in words.split(' ') {
        if read_word(rt, word) == shown {
            return true;
        }
    }
    false
}

#[test]
fn growth_of_a_judge_of_a_right_unit(rt: HostRuntime) {
    for lossy in [false, true] {
        for profile in [false, true] {
            let mut judge = judge(&rt, rt.alloc(), lossy, profile, 252, 8).expect(&rt, "memory");
            assert_eq!(rt; noted(&rt, &mut judge, RIGHT, 72), Verdict::Possible);
        }
    }
}

#[test]
fn units_with_one_fault(rt: HostRuntime) {
    let mut set = shown_set(&rt, rt.alloc()).expect(&rt, "memory");
    for wrong in &WRONG {
        for lossy in [false, true] {
            let mut judge = judge(&rt, rt.alloc(), lossy, true, 252, 8).expect(&rt, "memory");
            let right = noted(&rt, &mut judge, RIGHT, wrong.right);
            assert_eq!(rt; right, Verdict::Possible);
            let expected = if lossy && !wrong.lossy {
                Verdict::Possible
            } else {
                Verdict::Impossible
            };
            assert_eq!(rt; noted(&rt, &mut judge, wrong.then, 9), expected);
            if expected == Verdict::Impossible {
                compare_possible(&rt, &mut judge, &mut set, wrong.possible);
            }
        }
    }
}

// CLCWs, and the components that they show.
#[test]
fn components_of_a_clcw(rt: HostRuntime) {
    let waiting = Report {
        state: State::S2,
        vr: 1,
        lockout: false,
        wait: true,
        retransmit: true,
        farm_b: 0,
    };
    let locked = Report {
        state: State::S3,
        vr: 255,
        lockout: true,
        retransmit: false,
        farm_b: 3,
        ..waiting
    };
    for (word, report) in [(0x01041801, waiting), (0x010436ff, locked)] {
        let shown = read_heard(word, 1).expect(&rt, "a CLCW");
        assert_eq!(rt; shown.report(), report);
        assert_eq!(rt; Shown::new(report), Some(shown));
        for other in [
            Report {
                farm_b: 4,
                ..report
            },
            Report {
                lockout: !report.lockout,
                ..report
            },
            Report {
                state: State::S1,
                ..report
            },
        ] {
            assert_eq!(rt; Shown::new(other), None);
        }
    }
}

// An account of a unit with V(R) at 0, written by hand, in which only the last item is impossible if the unit must take
// the profile.
struct Otherwise {
    items: &'static str,
    last: &'static str,
    // The CLCWs that are possible in place of the last item, under the profile and without it.
    profile: &'static str,
    possible: &'static str,
}

const OTHERWISE: [Otherwise; 3] = [
    // An Unlock leaves Retransmit as it is.
    Otherwise {
        items: "002a040501aa 01040800 302a04050000",
        last: "01040a00",
        profile: "01040200 01040800",
        possible: "01040200 01040800 01040a00",
    },
    // Another control command is counted.
    Otherwise {
        items: "302a04050001",
        last: "01040200",
        profile: "01040000",
        possible: "01040000 01040200",
    },
    // A Set V(R) in lockout isn't counted.
    Otherwise {
        items: "002a040580aa 01042000 302a040700820005 302a04050000",
        last: "01040200",
        profile: "01040400 01042000 01042200",
        possible: "01040200 01040400 01042000 01042200",
    },
];

#[test]
fn units_that_fill_a_cell_otherwise(rt: HostRuntime) {
    let mut set = shown_set(&rt, rt.alloc()).expect(&rt, "memory");
    for account in &OTHERWISE {
        for profile in [false, true] {
            let mut judge = judge(&rt, rt.alloc(), false, profile, 0, 3).expect(&rt, "memory");
            assert_eq!(rt; noted(&rt, &mut judge, account.items, 9), Verdict::Possible);
            let (words, expected) = if profile {
                (account.profile, Verdict::Impossible)
            } else {
                (account.possible, Verdict::Possible)
            };
            compare_possible(&rt, &mut judge, &mut set, words);
            assert_eq!(rt; note(&rt, &mut judge, account.last), expected);
        }
    }
}

// Two frames are on their way: one of Type-BD, and the expected one of Type-AD. Here, too, the CLCWs that are possible
// were found by hand.
#[test]
fn growth_of_a_set_of_possible_components(rt: HostRuntime) {
    let mut set = shown_set(&rt, rt.alloc()).expect(&rt, "memory");
    for (lossy, words) in [
        (false, "01040000 01040200 01040201 01040a00 01041a00"),
        (
            true,
            "01040000 01040001 01040200 01040201 01040800 01040a00 01041800 01041a00",
        ),
    ] {
        let mut judge = judge(&rt, rt.alloc(), lossy, true, 0, 2).expect(&rt, "memory");
        let items = "202a040500aa 002a040500aa";
        assert_eq!(rt; noted(&rt, &mut judge, items, 9), Verdict::Possible);
        compare_possible(&rt, &mut judge, &mut set, words);
        assert!(rt; !set.contains(read_word(&rt, "01040400")));
    }
}

#[test]
fn a_judge_goes_on_after_an_overrun_and_an_impossible_clcw(rt: HostRuntime) {
    let mut judge = judge(&rt, rt.alloc(), false, true, 0, 1).expect(&rt, "memory");
    let items = "202a040500aa 202a040500aa 01040400";
    assert_eq!(rt; noted(&rt, &mut judge, items, 9), Verdict::Unknown);
    let mut set = shown_set(&rt, rt.alloc()).expect(&rt, "memory");
    judge.possible(&mut set);
    for place in 0..COMPONENTS {
        assert_eq!(rt; set.get(place), None);
    }
    judge.restart(read_word(&rt, "01040000"));
    compare_possible(&rt, &mut judge, &mut set, "01040000");
    assert_eq!(rt; note(&rt, &mut judge, "01040005"), Verdict::Impossible);
    judge.go_on(read_word(&rt, "01040005"));
    assert_eq!(rt;
        noted(&rt, &mut judge, "01040005 002a040505aa 01040006", 9),
        Verdict::Possible
    );
}

// Judges a whole account of a unit with V(R) at 0, even if memory is refused once.
fn judge_whole(
    rt: &(impl Abort + Print),
    alloc: Global,
    account: &[Item],
) -> Result<bool, AllocError> {
    let first = first(rt, 0);
    let judged = is_possible(alloc, rules(rt, false, true), first, account);
    if judged.is_err() {
        let _ = println!(rt; "refused: is_possible");
        return is_possible(alloc, rules(rt, false, true), first, account);
    }
    judged
}

#[test]
fn growth_of_the_verdict_on_a_whole_account(rt: HostRuntime) {
    let octets = [0x00, 0x2a, 0x04, 0x05, 0x00, 0xaa];
    let sent = read_sent(&octets, 42, 1, true).expect(&rt, "a frame");
    let shown = read_word(&rt, "01040001");
    let account = [Item::Sent(sent), Item::Heard(shown)];
    let judged = judge_whole(&rt, rt.alloc(), &account).expect(&rt, "memory");
    assert!(rt; judged);
    let account = [Item::Heard(shown), Item::Sent(sent)];
    let judged = judge_whole(&rt, rt.alloc(), &account).expect(&rt, "memory");
    assert!(rt; !judged);
}
