//! Tests of sessions, which answer lines as the programs do.

use std::alloc::Global;
use std::process::Abort;
use tc_live::{FrameCheck, FrameEnds};
use tc_make::Ending;
use tc_session::{Engine, Said, Session, live_engine, maker_engine, script_engine};
use tc_text::SpacecraftId;

/// A frame line for channel 1 of spacecraft 42, whose frame has a packet for application 5. The next constant is the
/// line for this frame with its frame error control field.
const FRAME: &[u8] = b"frame 002a040c00c01005c0000000aa";

const FRAME_WITH_FIELD: &[u8] = b"frame 002a040e00c01005c0000000aa6b6e";

fn spacecraft(rt: &impl Abort) -> SpacecraftId {
    SpacecraftId::new(42).expect(rt, "a spacecraft id")
}

/// Creates a session that answers as `tclive` does.
fn live(rt: &impl Abort, alloc: Global) -> Session {
    Session::new(
        alloc,
        live_engine(alloc, spacecraft(rt), FrameCheck::Nothing),
    )
}

/// Creates a session that carries out a script.
fn script(rt: &impl Abort, alloc: Global) -> Session {
    Session::new(alloc, script_engine(alloc, spacecraft(rt)))
}

/// Gives the session a line, and checks the outcome and the text.
fn check_answer(
    rt: &impl Abort,
    alloc: Global,
    session: &mut Session,
    line: &[u8],
    said: Said,
    text: &[u8],
) {
    assert_eq!(rt; session.answer(alloc, line), said);
    assert!(rt; session.text.as_slice() == text);
}

/// Ends the lines of the session, and checks the outcome and the text.
fn check_end(rt: &impl Abort, alloc: Global, session: &mut Session, said: Said, text: &[u8]) {
    assert_eq!(rt; session.end(alloc), said);
    assert!(rt; session.text.as_slice() == text);
}

#[test]
fn a_session_answers_lines_as_tclive_does(rt: HostRuntime) {
    let alloc = rt.alloc();
    let mut session = live(&rt, alloc);
    check_answer(
        &rt,
        alloc,
        &mut session,
        b"channel 1 10 1 0",
        Said::Done,
        b"",
    );
    check_answer(
        &rt,
        alloc,
        &mut session,
        b"link 1 0 0",
        Said::Done,
        b"link 1 0 0\n",
    );
    check_answer(
        &rt,
        alloc,
        &mut session,
        b"queue 1 5 1",
        Said::Done,
        b"bad too late\n",
    );
    check_answer(
        &rt,
        alloc,
        &mut session,
        FRAME,
        Said::Done,
        b"frame 1 E1 accepted 1 queued 0 dropped 0 rest 0\n",
    );
    check_end(
        &rt,
        alloc,
        &mut session,
        Said::Done,
        b"final 1 01040001 events 1 buffered 1\n",
    );
    check_answer(&rt, alloc, &mut session, b"clcw 1", Said::Over, b"");
    check_end(&rt, alloc, &mut session, Said::Over, b"");
}

#[test]
fn a_line_of_a_session_may_have_8192_octets(rt: HostRuntime) {
    let alloc = rt.alloc();
    let mut session = live(&rt, alloc);
    let longest = vec![in alloc; b' '; 8192].expect(&rt, "a line");
    let longer = vec![in alloc; b' '; 8193].expect(&rt, "a line");
    check_answer(
        &rt,
        alloc,
        &mut session,
        longest.as_slice(),
        Said::Done,
        b"",
    );
    check_answer(
        &rt,
        alloc,
        &mut session,
        longer.as_slice(),
        Said::Done,
        b"bad too long\n",
    );
}

#[test]
fn a_session_ends_a_script_at_its_first_bad_line(rt: HostRuntime) {
    let alloc = rt.alloc();
    let mut session = script(&rt, alloc);
    check_answer(
        &rt,
        alloc,
        &mut session,
        b"channel 1 10 1 0",
        Said::Done,
        b"",
    );
    check_answer(&rt, alloc, &mut session, b"", Said::Done, b"");
    check_answer(
        &rt,
        alloc,
        &mut session,
        b"clcw 1",
        Said::Done,
        b"clcw 1 01040000\n",
    );
    check_answer(
        &rt,
        alloc,
        &mut session,
        b"link 1 0 0",
        Said::Bad,
        b"line 4: unknown command\n",
    );
    check_answer(&rt, alloc, &mut session, b"clcw 1", Said::Over, b"");
    check_end(&rt, alloc, &mut session, Said::Over, b"");
}

#[test]
fn a_session_reports_at_the_end_of_a_script(rt: HostRuntime) {
    let alloc = rt.alloc();
    let mut empty = script(&rt, alloc);
    check_end(&rt, alloc, &mut empty, Said::Done, b"");
    let mut session = script(&rt, alloc);
    check_answer(
        &rt,
        alloc,
        &mut session,
        b"channel 1 10 1 0",
        Said::Done,
        b"",
    );
    check_answer(
        &rt,
        alloc,
        &mut session,
        b"channel 0 10 1 0",
        Said::Done,
        b"",
    );
    check_end(
        &rt,
        alloc,
        &mut session,
        Said::Done,
        b"final 0 01000000 events 0 buffered 0\nfinal 1 01040000 events 0 buffered 0\n",
    );
}

#[test]
fn a_session_makes_frames_as_tcmake_does(rt: HostRuntime) {
    let alloc = rt.alloc();
    let engine = maker_engine(alloc, Ending::DataField).expect(&rt, "an engine");
    let mut session = Session::new(alloc, engine);
    check_answer(
        &rt,
        alloc,
        &mut session,
        b"unlock 42 1",
        Said::Done,
        b"frame 302a04050000\n",
    );
    check_answer(
        &rt,
        alloc,
        &mut session,
        b"unlock 42",
        Said::Done,
        b"bad wrong number of words: write unlock SCID VC\n",
    );
    check_end(&rt, alloc, &mut session, Said::Done, b"");
    check_answer(&rt, alloc, &mut session, b"unlock 42 1", Said::Over, b"");
}

/// Returns the `FrameEnds` of a session after this line, and checks that the end of the lines doesn't change it.
fn ends_after(rt: &impl Abort, alloc: Global, line: &[u8]) -> FrameEnds {
    let mut session = script(rt, alloc);
    assert_eq!(rt; session.answer(alloc, b"channel 1 10 1 0"), Said::Done);
    assert_eq!(rt; session.answer(alloc, line), Said::Done);
    let ends = session.ends();
    assert_eq!(rt; session.end(alloc), Said::Done);
    assert_eq!(rt; session.ends(), ends);
    ends
}

#[test]
fn a_session_sees_check_sums_that_nothing_takes_off(rt: HostRuntime) {
    let alloc = rt.alloc();
    assert_eq!(rt; ends_after(&rt, alloc, b"clcw 1"), FrameEnds::NoFrame);
    assert_eq!(rt; ends_after(&rt, alloc, FRAME), FrameEnds::OneWithout);
    assert_eq!(rt;
        ends_after(&rt, alloc, FRAME_WITH_FIELD),
        FrameEnds::EachWithField
    );
}

/// Gives the session a line. If memory runs out at it, gives the session the line again.
fn answered<T: Abort + Print>(rt: &T, alloc: Global, session: &mut Session, line: &[u8]) {
    if session.answer(alloc, line) == Said::NoMemory || session.text.ends_with(b"bad no memory\n") {
        let _ = println!(rt; "refused: answer");
        assert_eq!(rt; session.answer(alloc, line), Said::Done);
    }
}

/// Ends the lines of the session. If memory runs out before anything is done, ends them again.
fn ended<T: Abort + Print>(rt: &T, alloc: Global, session: &mut Session) -> Said {
    let said = session.end(alloc);
    if said == Said::NoMemory {
        let _ = println!(rt; "refused: end");
        return session.end(alloc);
    }
    said
}

#[test]
fn session_growth(rt: HostRuntime) {
    let alloc = rt.alloc();
    let mut session = live(&rt, alloc);
    answered(&rt, alloc, &mut session, b"channel 1 10 1 0");
    answered(&rt, alloc, &mut session, b"queue 1 5 1");
    answered(&rt, alloc, &mut session, FRAME);
    answered(&rt, alloc, &mut session, b"deliver 1");
    assert!(rt;
        session.text.as_slice()
            == b"release 1 queued 1 dropped 0 rest 0\ntake 1 5 1005c0000000aa\nclcw 1 01040001\n".as_slice()
    );
    match ended(&rt, alloc, &mut session) {
        Said::Done => assert!(rt;
            session.text.as_slice()
                == b"final 1 01040001 events 3 buffered 0\nqueue 1 5 0\n".as_slice()
        ),
        said => {
            let _ = println!(rt; "refused: report");
            assert_eq!(rt; said, Said::Bad);
            assert!(rt; session.text.as_slice() == b"no memory\n".as_slice());
        }
    }
}

#[test]
fn ended_session_growth(rt: HostRuntime) {
    let alloc = rt.alloc();
    let mut session = live(&rt, alloc);
    assert_eq!(rt; ended(&rt, alloc, &mut session), Said::Done);
    assert_eq!(rt; session.text.len(), 0);
}

#[test]
fn maker_session_growth(rt: HostRuntime) {
    let alloc = rt.alloc();
    let engine = match maker_engine(alloc, Ending::ErrorControl) {
        Some(engine) => engine,
        None => {
            let _ = println!(rt; "refused: maker_engine");
            maker_engine(alloc, Ending::ErrorControl).expect(&rt, "an engine")
        }
    };
    let mut session = Session::new(alloc, engine);
    answered(&rt, alloc, &mut session, b"unlock 42 1");
    assert!(rt; session.text.as_slice() == b"frame 302a0407000020e7\n".as_slice());
}
