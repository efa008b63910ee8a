//! Accounts of senders, and the verdicts on them, which are from a model in Python that was written apart from the
//! sources. The model follows all histories of a sender.

use std::alloc::{AllocError, Global};
use std::process::Abort;
use tc_sender::{SenderJudge, SenderVerdict, SenderWindow};

// An account: each word has the number in hexadecimal digits, what was noted (`a` for a frame that was accepted, `r` for
// a frame that wasn't, `m` for a CLCW, `s` for a Set V(R)), and the verdict (`e`, `b` or `c`).
struct Account {
    window: u8,
    vr: u8,
    words: &'static str,
}

const ACCOUNTS: [Account; 4] = [
    Account {
        window: 1,
        vr: 255,
        words: "ffme fdrb ffae 00me 01rb 00me ferb 00me 00ae 01ab 02rb 01rb 01me 01me 01ae 03rb 00rb 01re 02me 02ae \
            03ab 03me 03ae 04ab 02rb 04ab 04ab 04ab 04ab 03re 04ab 04me 05rb 04ae 05ab 05ab 03rb 05ab 05me 05ae \
            06me 06ae 07me 07me 07ae 06rb 08ab 08ab 06rb 08me 08ae 09me 0arb 09re 09ae 0aab 0aab 0aab 0ame 0ame",
    },
    Account {
        window: 2,
        vr: 254,
        words: "00rb fbrb feae ffme ffae 00me 00ae ferb 01ae 02ab 01re 02me 02re 02ae 02re 03me adse adme adme adme \
            adme acrb d6se d3rb d4rb d6me d7re d5rb d6me d6me d5rb d6ae d7me d6re d7me d7ae d8ae d9rb d9ab d7re \
            d9ab d9me d9me dare d9ae d7rb dcrb daae dcrb ddrb dbme dbae dbre dcae ddme dfrb ddae dere deae dfme",
    },
    Account {
        window: 10,
        vr: 250,
        words: "fame faae fbae fcme fcme f4rb f2rb f2rb fcme 02re fcme fcae fdme fdme fdae feae ffae 03re 00ae 01ae \
            02me 01re 02ae 03me 03me 03me 03me 03ae 04re 04ae 05me 09re ferb 05ae 02re 06me 06me 06ae 07ae 0dre \
            0bre 0ere 08ae 09me 09me 09me 4dse 55ac 46rb 51re 50re 4dme 51re 4dme 46rb 4brb 4arb 4dae 57rb 49rb",
    },
    Account {
        window: 127,
        vr: 200,
        words: "c8ae c9ae caae cbae ccae cdme cdme 11re b5rb cdae ceme ceme ceme ceae cfae d0ae d1me d1ae d2me 2bse \
            10rb darb 2bme 2bae 35re 2cae ffrb 2dme d9rb 2dme 2dae 70re 2eme 2eme 2eme 2eae 2fme 2fae 30me 30re",
    },
];

// Creates a judge, even if memory is refused once.
fn judge(
    rt: &(impl Abort + Print),
    alloc: Global,
    window: u8,
    vr: u8,
) -> Result<SenderJudge, AllocError> {
    let window = SenderWindow::new(window).expect(rt, "a window");
    let made = SenderJudge::new(alloc, window, vr);
    if made.is_err() {
        let _ = println!(rt; "refused: SenderJudge::new");
        return SenderJudge::new(alloc, window, vr);
    }
    made
}

// Notes what the third octet of a word says about a number, and returns the verdict.
fn note(judge: &mut SenderJudge, number: u8, noted: u8) -> SenderVerdict {
    match noted {
        b'a' => judge.arrived(number, true, &[0]),
        b'r' => judge.arrived(number, false, &[0]),
        b'm' => judge.made(number),
        _ => {
            judge.set(number);
            SenderVerdict::Explained
        }
    }
}

#[test]
fn growth_of_a_judge_of_senders(rt: HostRuntime) {
    for account in &ACCOUNTS {
        let mut judge = judge(&rt, rt.alloc(), account.window, account.vr).expect(&rt, "memory");
        for word in account.words.split(' ') {
            let word = word.as_bytes();
            let mut number = [0; 1];
            assert!(rt; word.len() == 4);
            assert!(rt; hex::decode_to_slice(&word[..2], &mut number).is_ok());
            let expected = match word[3] {
                b'e' => SenderVerdict::Explained,
                b'b' => SenderVerdict::Breach,
                _ => SenderVerdict::Contradictory,
            };
            assert_eq!(rt; note(&mut judge, number[0], word[2]), expected);
        }
    }
}

#[test]
fn windows_of_senders(rt: HostRuntime) {
    for width in 0..=255u8 {
        assert!(rt; SenderWindow::new(width).is_some() == (width >= 1 && width < 128));
    }
}
