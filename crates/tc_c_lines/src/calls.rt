//! The calls on a session.

ghost use Rattle.std.specs.Prelude.{◌≡◌, ◌≢◌, None, IfNone, IfSome, Some};
ghost use Rattle.tc_c_base.specs.Status.{code_of};
ghost use Rattle.tc_c_base.specs.Written.{no_octets};
ghost use Rattle.tc_c_lines.specs.Calls.{IsAnswerGiven, IsGiven, IsReportGiven, IsStarted, flag_of, live_start, maker_start, outcome_status, script_start};
ghost use Rattle.tc_session.specs.Session.{ends_of};
ghost use Rattle.tc_session.specs.declared.session.Session.{Session as SessionValue};

use crate::seat::Seat;
use crate::start::{live, maker, script};
use std::alloc::Global;
use tc_c_base::{Status, WrittenRecord, code, no_room, not_written, written};
use tc_live::FrameEnds;
use tc_session::{Engine, Said, Session};

/// A status with a flag.
#[repr(C)]
#[derive(Clone, Copy)]
pub struct FlagRecord {
    pub status: u32,
    /// The flag, which is 0 or 1. It is 0 if the call fails.
    pub flag: u8,
}

// Returns the status of an outcome.
fn status_of(said: Said) -> Status
    ensures { result ≡ outcome_status said }
{
    match said {
        Said::Done => Status::Done,
        Said::Bad => Status::BadLine,
        Said::NoMemory => Status::NoMemory,
        Said::Lost => Status::Lost,
        Said::Over => Status::Over,
    }
}

// Puts a session that starts with this engine into a seat that holds none. Returns the number of the status. If the
// engine is a fault, or if memory runs out, the seat stays empty.
fn sit(alloc: Global, seat: &mut Seat, start: Result<Engine, Status>) -> u32
    requires { seat.old.place.session ≡ None }
    ensures { IsStarted start seat.old.place.session seat.new.place.session result }
{
    let engine = match start {
        Ok(engine) => engine,
        Err(fault) => return code(fault),
    };
    match Box::new(alloc, Session::new(alloc, engine)) {
        Ok(held) => {
            seat.put(held);
            code(Status::Done)
        }
        Err(_) => code(Status::NoMemory),
    }
}

/// Creates a session in a seat that holds none. The session answers lines as `tclive` does.
///
/// The call fails with SessionInUse if the seat holds a session, with BadScid for a spacecraft id over 1,023, with
/// BadFlag for a flag that is neither 0 nor 1, and with NoMemory if memory runs out. The seat then stays as it was.
#[unsafe(no_mangle)]
pub extern "C" fn tcrx_lines_live_at(alloc: Global, seat: &mut Seat, scid: u16, fecf: u8) -> u32
    ensures { IsStarted (live_start scid fecf) seat.old.place.session seat.new.place.session result }
{
    if seat.holds() {
        return code(Status::SessionInUse);
    }
    sit(alloc, seat, live(alloc, scid, fecf))
}

/// Creates a session in a seat that holds none. The session carries out a script as `tcrx run` does.
///
/// The call fails with SessionInUse if the seat holds a session, with BadScid for a spacecraft id over 1,023, and with
/// NoMemory if memory runs out. The seat then stays as it was.
#[unsafe(no_mangle)]
pub extern "C" fn tcrx_lines_script_at(alloc: Global, seat: &mut Seat, scid: u16) -> u32
    ensures { IsStarted (script_start scid) seat.old.place.session seat.new.place.session result }
{
    if seat.holds() {
        return code(Status::SessionInUse);
    }
    sit(alloc, seat, script(alloc, scid))
}

/// Creates a session in a seat that holds none. The session answers lines as `tcmake` does.
///
/// The call fails with SessionInUse if the seat holds a session, with BadFlag for a flag that is neither 0 nor 1, and
/// with NoMemory if memory runs out. The seat then stays as it was.
#[unsafe(no_mangle)]
pub extern "C" fn tcrx_lines_make_at(alloc: Global, seat: &mut Seat, fecf: u8) -> u32
    ensures { IsStarted (maker_start fecf) seat.old.place.session seat.new.place.session result }
{
    if seat.holds() {
        return code(Status::SessionInUse);
    }
    sit(alloc, seat, maker(alloc, fecf))
}

// Writes the text of an outcome to the buffer if there is room for it. Otherwise the text waits.
fn give(session: &mut Session, said: Said, buffer: &mut [u8]) -> WrittenRecord
    ensures given { IsGiven said session.old.text.items buffer.old buffer.new session.new.waits result }
    ensures kept { session.new ≡ record session.old { waits = session.new.waits } }
{
    let length = session.text.len();
    if buffer.len() < length {
        session.waits = Some(said);
        return no_room(length);
    }
    let (front, _) = buffer.split_at_mut(length);
    front.copy_from_slice(session.text.as_slice());
    session.waits = None;
    WrittenRecord {
        status: code(status_of(said)),
        length,
    }
}

/// Carries out a line, which is passed without its line feed, and writes the text of its answer to the front of a
/// buffer. If the buffer is too short, the text waits, and the record has the length that it needs.
///
/// The call fails with NoSession if the seat holds no session, and with Waiting if the text of an earlier call waits.
/// The line is then not carried out. Otherwise the status is NoRoom if the buffer is too short, and else the status of
/// the outcome.
#[unsafe(no_mangle)]
pub extern "C" fn tcrx_lines_answer_at(
    alloc: Global,
    seat: &mut Seat,
    line: &[u8],
    buffer: &mut [u8],
) -> WrittenRecord
    ensures answered { IfSome seat.old.place.session
        (λ old. old.waits ≡ None → (new : SessionValue) × (seat.new.place.session ≡ Some new)
        × IsAnswerGiven old line.now new buffer.old buffer.new result) }
    ensures waits { IfSome seat.old.place.session
        (λ old. old.waits ≢ None → (result ≡ no_octets Status.Waiting) × (seat.new.place.session ≡ seat.old.place.session)
        × (buffer.new ≡ buffer.old)) }
    ensures no_session { IfNone seat.old.place.session
        ((result ≡ no_octets Status.NoSession) × (seat.new.place.session ≡ None) × (buffer.new ≡ buffer.old)) }
{
    match seat.lend() {
        Some(session) => answer(alloc, session, line, buffer),
        None => not_written(Status::NoSession),
    }
}

fn answer(alloc: Global, session: &mut Session, line: &[u8], buffer: &mut [u8]) -> WrittenRecord
    ensures answered { session.old.waits ≡ None → IsAnswerGiven session.old line.now session.new buffer.old buffer.new result }
    ensures waits { session.old.waits ≢ None → (result ≡ no_octets Status.Waiting) × (session.new ≡ session.old) × (buffer.new ≡ buffer.old) }
{
    if session.waits.is_some() {
        return not_written(Status::Waiting);
    }
    let said = session.answer(alloc, line);
    give(session, said, buffer)
}

/// Writes the text that waits to the front of a buffer. If no text waits, none is written.
///
/// The call fails with NoSession if the seat holds no session, and with NoRoom if the buffer is too short. After NoRoom
/// the text still waits. Otherwise the status is that of the outcome to which the text belongs.
#[unsafe(no_mangle)]
pub extern "C" fn tcrx_lines_text_at(seat: &mut Seat, buffer: &mut [u8]) -> WrittenRecord
    ensures given { IfSome seat.old.place.session
        (λ old. IfSome old.waits (λ said. (new : SessionValue) × (seat.new.place.session ≡ Some new)
        × (new ≡ record old { waits = new.waits })
        × IsGiven said old.text.items buffer.old buffer.new new.waits result)) }
    ensures none { IfSome seat.old.place.session
        (λ old. old.waits ≡ None → (result ≡ no_octets Status.Done) × (seat.new.place.session ≡ seat.old.place.session)
        × (buffer.new ≡ buffer.old)) }
    ensures no_session { IfNone seat.old.place.session
        ((result ≡ no_octets Status.NoSession) × (seat.new.place.session ≡ None) × (buffer.new ≡ buffer.old)) }
{
    match seat.lend() {
        Some(session) => text(session, buffer),
        None => not_written(Status::NoSession),
    }
}

fn text(session: &mut Session, buffer: &mut [u8]) -> WrittenRecord
    ensures given { IfSome session.old.waits
        (λ said. (session.new ≡ record session.old { waits = session.new.waits })
        × IsGiven said session.old.text.items buffer.old buffer.new session.new.waits result) }
    ensures none { session.old.waits ≡ None → (result ≡ no_octets Status.Done) × (session.new ≡ session.old) × (buffer.new ≡ buffer.old) }
{
    match session.waits {
        Some(said) => give(session, said, buffer),
        None => written(0),
    }
}

/// Ends the lines, and writes the text of the final report to the front of a buffer. If the buffer is too short, the
/// text waits, and the record has the length that it needs.
///
/// The call fails with NoSession if the seat holds no session, and with Waiting if the text of an earlier call waits.
/// The lines then don't end. Otherwise the status is NoRoom if the buffer is too short, and else the status of the
/// outcome.
#[unsafe(no_mangle)]
pub extern "C" fn tcrx_lines_end_at(
    alloc: Global,
    seat: &mut Seat,
    buffer: &mut [u8],
) -> WrittenRecord
    ensures ended { IfSome seat.old.place.session
        (λ old. old.waits ≡ None → (new : SessionValue) × (seat.new.place.session ≡ Some new)
        × IsReportGiven old new buffer.old buffer.new result) }
    ensures waits { IfSome seat.old.place.session
        (λ old. old.waits ≢ None → (result ≡ no_octets Status.Waiting) × (seat.new.place.session ≡ seat.old.place.session)
        × (buffer.new ≡ buffer.old)) }
    ensures no_session { IfNone seat.old.place.session
        ((result ≡ no_octets Status.NoSession) × (seat.new.place.session ≡ None) × (buffer.new ≡ buffer.old)) }
{
    match seat.lend() {
        Some(session) => end(alloc, session, buffer),
        None => not_written(Status::NoSession),
    }
}

fn end(alloc: Global, session: &mut Session, buffer: &mut [u8]) -> WrittenRecord
    ensures ended { session.old.waits ≡ None → IsReportGiven session.old session.new buffer.old buffer.new result }
    ensures waits { session.old.waits ≢ None → (result ≡ no_octets Status.Waiting) × (session.new ≡ session.old) × (buffer.new ≡ buffer.old) }
{
    if session.waits.is_some() {
        return not_written(Status::Waiting);
    }
    let said = session.end(alloc);
    give(session, said, buffer)
}

/// Returns whether frames were brought to a receiver that checks no frame error control fields, and each of these
/// frames ended with a right one. The call fails with NoSession if the seat holds no session.
#[unsafe(no_mangle)]
pub extern "C" fn tcrx_lines_saw_check_sums_at(seat: &mut Seat) -> FlagRecord
    ensures flag { IfSome seat.old.place.session (λ session. result ≡ record { status = code_of Status.Done; flag = flag_of (ends_of session) }) }
    ensures no_session { IfNone seat.old.place.session (result ≡ record { status = code_of Status.NoSession; flag = 0 }) }
    ensures unchanged { seat.new.place.session ≡ seat.old.place.session }
{
    match seat.lend() {
        Some(session) => saw_check_sums(session),
        None => FlagRecord {
            status: code(Status::NoSession),
            flag: 0,
        },
    }
}

fn saw_check_sums(session: &Session) -> FlagRecord
    ensures { result ≡ record { status = code_of Status.Done; flag = flag_of (ends_of session.now) } }
{
    let flag = match session.ends() {
        FrameEnds::EachWithField => 1,
        FrameEnds::NoFrame | FrameEnds::OneWithout => 0,
    };
    FlagRecord {
        status: code(Status::Done),
        flag,
    }
}

/// Frees the session. The seat then holds none. The call fails with NoSession if the seat holds no session.
#[unsafe(no_mangle)]
pub extern "C" fn tcrx_lines_free_at(seat: &mut Seat) -> u32
    ensures freed { IfSome seat.old.place.session (λ _. result ≡ code_of Status.Done) }
    ensures no_session { IfNone seat.old.place.session (result ≡ code_of Status.NoSession) }
    ensures empty { seat.new.place.session ≡ None }
{
    if seat.free() {
        code(Status::Done)
    } else {
        code(Status::NoSession)
    }
}
