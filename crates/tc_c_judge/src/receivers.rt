//! The calls on a judge of a receiver.

ghost use Rattle.std.specs.Prelude.{◌≡◌, ◌↔◌, Bool, List, ℕ, true, false, IsTrue, Some, IfSome, IfNone, IfOk, IfErr};
ghost use Rattle.tc_link.specs.Farm.{first_report};
ghost use Rattle.tc_judge.specs.Judge.{Knowledge};
ghost use Rattle.tc_judge.specs.Layer.{Has};
ghost use Rattle.tc_judge.specs.declared.judge.Verdict.{Verdict as VerdictValue};
ghost use Rattle.tc_c_base.specs.Status.{code_of};
ghost use Rattle.tc_c_judge.specs.declared.held.HeldJudge.TheVariants.{Receiver};
ghost use Rattle.tc_c_judge.specs.Held.{receiver_in};
ghost use Rattle.tc_c_judge.specs.Receivers.{IsSentNoted, IsClcwOf, IsVerdict, IsClcwTaken, IsPossibleSet, IsWordAt, ContinuesFrom, Restarts, no_item_number, shown_by, verdict_number};
ghost use Rattle.tc_c_judge.specs.Records.{flagged, judged, unflagged, no_verdict, no_word};
ghost use Rattle.tc_c_judge.specs.Settings.{bool_of};

use crate::held::ReceiverJudge;
use crate::records::{
    FlagRecord, VerdictRecord, WordRecord, flagged, judged, no_verdict, no_word, unflagged,
    word_found,
};
use crate::seat::Seat;
use crate::settings::flag;
use crate::start::first;
use tc_c_base::{Status, code};
use tc_judge::{Verdict, read_heard, read_sent};
use tc_link::{Link, clcw_word};

/// Notes that a frame was sent to the receiver. Note it before its octets leave.
///
/// The frame is at the front of the octets. `right` is 0 if its check sum is wrong, and otherwise 1. If frames have a
/// frame error control field, pass the frame without that field, as `tcrx_check_fecf_at` writes it. The flag is 1 if the
/// frame was noted. It is 0 if the octets don't begin with a frame for the receiver's spacecraft and virtual channel.
/// If more frames are on their way than the judge has room for, each later verdict is unknown until the judge begins
/// anew.
///
/// The call fails with NoSession if the seat holds no judge of a receiver, and with BadFlag if `right` is neither 0 nor
/// 1. The seat then stays as it was.
#[unsafe(no_mangle)]
pub extern "C" fn tcrx_judge_sent_at(seat: &mut Seat, octets: &[u8], right: u8) -> FlagRecord
    ensures sent { IfSome (receiver_in seat.old.place.judge)
        (λ old. IfOk (bool_of right) (λ right. (noted : Bool) × (new : Knowledge) × (result ≡ flagged noted)
        × IsSentNoted old octets.now right new noted × (seat.new.place.judge ≡ Some (Receiver (record old { judge = new }))))) }
    ensures bad_flag { IfSome (receiver_in seat.old.place.judge)
        (λ old. IfErr (bool_of right) (λ fault. (result ≡ unflagged fault) × (seat.new.place.judge ≡ seat.old.place.judge))) }
    ensures no_session { IfNone (receiver_in seat.old.place.judge)
        ((result ≡ unflagged Status.NoSession) × (seat.new.place.judge ≡ seat.old.place.judge)) }
{
    match seat.lend_receiver() {
        Some(held) => sent(held, octets, right),
        None => unflagged(Status::NoSession),
    }
}

fn sent(held: &mut ReceiverJudge, octets: &[u8], right: u8) -> FlagRecord
    ensures sent { IfOk (bool_of right) (λ right. (noted : Bool) × (result ≡ flagged noted) × IsSentNoted held.old octets.now right held.new.judge noted) }
    ensures kept { held.new ≡ record held.old { judge = held.new.judge } }
    ensures bad_flag { IfErr (bool_of right) (λ fault. (result ≡ unflagged fault) × (held.new ≡ held.old)) }
{
    match flag(right) {
        Ok(right) => flagged(note_sent(held, octets, right)),
        Err(fault) => unflagged(fault),
    }
}

// Notes the frame at the front of the octets, and returns whether there is one for the receiver.
fn note_sent(held: &mut ReceiverJudge, octets: &[u8], right: bool) -> bool
    ensures sent { IsSentNoted held.old octets.now right held.new.judge result }
    ensures kept { held.new ≡ record held.old { judge = held.new.judge } }
{
    match read_sent(octets, held.scid, held.vcid.number(), right) {
        Some(frame) => {
            held.judge.sent(frame);
            true
        }
        None => false,
    }
}

// Returns the number of a verdict.
fn number(verdict: Verdict) -> u8
    ensures { result ≡ verdict_number verdict }
{
    match verdict {
        Verdict::Possible => 1,
        Verdict::Impossible => 2,
        Verdict::Unknown => 3,
    }
}

/// Notes that a CLCW was heard of the receiver, and returns the verdict on it: 1 if it is possible, 2 if it is
/// impossible, 3 if it is unknown because there was an overrun, and 4 if the word isn't a CLCW of COP-1 for the
/// receiver's virtual channel. Unless the verdict is 1, the CLCW isn't noted.
///
/// The call fails with NoSession if the seat holds no judge of a receiver.
#[unsafe(no_mangle)]
pub extern "C" fn tcrx_judge_heard_at(seat: &mut Seat, word: u32) -> VerdictRecord
    ensures heard { IfSome (receiver_in seat.old.place.judge)
        (λ old. IsClcwOf old.vcid word → (verdict : VerdictValue) × (new : Knowledge) × (result ≡ judged (verdict_number verdict))
        × IsVerdict old.judge (shown_by word) new verdict × (seat.new.place.judge ≡ Some (Receiver (record old { judge = new })))) }
    ensures no_item { IfSome (receiver_in seat.old.place.judge)
        (λ old. (IsClcwOf old.vcid word → ⊥) → (result ≡ judged no_item_number) × (seat.new.place.judge ≡ seat.old.place.judge)) }
    ensures no_session { IfNone (receiver_in seat.old.place.judge)
        ((result ≡ no_verdict Status.NoSession) × (seat.new.place.judge ≡ seat.old.place.judge)) }
{
    match seat.lend_receiver() {
        Some(held) => heard(held, word),
        None => no_verdict(Status::NoSession),
    }
}

fn heard(held: &mut ReceiverJudge, word: u32) -> VerdictRecord
    ensures heard { IsClcwOf held.old.vcid word → (verdict : VerdictValue) × (result ≡ judged (verdict_number verdict))
        × IsVerdict held.old.judge (shown_by word) held.new.judge verdict }
    ensures kept { held.new ≡ record held.old { judge = held.new.judge } }
    ensures no_item { (IsClcwOf held.old.vcid word → ⊥) → (result ≡ judged no_item_number) × (held.new ≡ held.old) }
{
    match read_heard(word, held.vcid.number()) {
        Some(shown) => judged(number(held.judge.heard(shown))),
        None => judged(4),
    }
}

/// Goes on from the components that a CLCW shows. This is for a CLCW that is impossible, for the first CLCW that is heard
/// of a receiver to which frames are already on their way, and for a receiver that was reset while frames were on their
/// way. Any number of these frames, from the oldest on, may be gone.
///
/// The flag is 1 if the judge goes on, and 0 if the word isn't a CLCW of COP-1 for the receiver's virtual channel. The
/// call fails with NoSession if the seat holds no judge of a receiver.
#[unsafe(no_mangle)]
pub extern "C" fn tcrx_judge_go_on_at(seat: &mut Seat, word: u32) -> FlagRecord
    ensures taken { IfSome (receiver_in seat.old.place.judge)
        (λ old. (taken : Bool) × (new : Knowledge) × (result ≡ flagged taken) × IsClcwTaken ContinuesFrom old word new taken
        × (seat.new.place.judge ≡ Some (Receiver (record old { judge = new })))) }
    ensures no_session { IfNone (receiver_in seat.old.place.judge)
        ((result ≡ unflagged Status.NoSession) × (seat.new.place.judge ≡ seat.old.place.judge)) }
{
    match seat.lend_receiver() {
        Some(held) => flagged(go_on(held, word)),
        None => unflagged(Status::NoSession),
    }
}

fn go_on(held: &mut ReceiverJudge, word: u32) -> bool
    ensures taken { IsClcwTaken ContinuesFrom held.old word held.new.judge result }
    ensures kept { held.new ≡ record held.old { judge = held.new.judge } }
{
    match read_heard(word, held.vcid.number()) {
        Some(shown) => {
            held.judge.go_on(shown);
            true
        }
        None => false,
    }
}

/// Begins anew with a receiver that was reset: it has the first components of FARM-1 with this V(R), and no frame is on
/// its way to it. This ends an overrun. The call fails with NoSession if the seat holds no judge of a receiver.
#[unsafe(no_mangle)]
pub extern "C" fn tcrx_judge_restart_at(seat: &mut Seat, vr: u8) -> u32
    ensures restarted { IfSome (receiver_in seat.old.place.judge)
        (λ old. (new : Knowledge) × (result ≡ code_of Status.Done) × Restarts old.judge (first_report vr) new
        × (seat.new.place.judge ≡ Some (Receiver (record old { judge = new })))) }
    ensures no_session { IfNone (receiver_in seat.old.place.judge)
        ((result ≡ code_of Status.NoSession) × (seat.new.place.judge ≡ seat.old.place.judge)) }
{
    match seat.lend_receiver() {
        Some(held) => {
            restart(held, vr);
            code(Status::Done)
        }
        None => code(Status::NoSession),
    }
}

fn restart(held: &mut ReceiverJudge, vr: u8)
    ensures restarted { Restarts held.old.judge (first_report vr) held.new.judge }
    ensures kept { held.new ≡ record held.old { judge = held.new.judge } }
{
    held.judge.restart(first(vr));
}

/// Begins anew with a receiver that has the components that a CLCW shows, and to which no frame is on its way. This ends
/// an overrun.
///
/// The flag is 1 if the judge begins anew, and 0 if the word isn't a CLCW of COP-1 for the receiver's virtual channel.
/// The call fails with NoSession if the seat holds no judge of a receiver.
#[unsafe(no_mangle)]
pub extern "C" fn tcrx_judge_restart_from_at(seat: &mut Seat, word: u32) -> FlagRecord
    ensures taken { IfSome (receiver_in seat.old.place.judge)
        (λ old. (taken : Bool) × (new : Knowledge) × (result ≡ flagged taken) × IsClcwTaken Restarts old word new taken
        × (seat.new.place.judge ≡ Some (Receiver (record old { judge = new })))) }
    ensures no_session { IfNone (receiver_in seat.old.place.judge)
        ((result ≡ unflagged Status.NoSession) × (seat.new.place.judge ≡ seat.old.place.judge)) }
{
    match seat.lend_receiver() {
        Some(held) => flagged(restart_from(held, word)),
        None => unflagged(Status::NoSession),
    }
}

fn restart_from(held: &mut ReceiverJudge, word: u32) -> bool
    ensures taken { IsClcwTaken Restarts held.old word held.new.judge result }
    ensures kept { held.new ≡ record held.old { judge = held.new.judge } }
{
    match read_heard(word, held.vcid.number()) {
        Some(shown) => {
            held.judge.restart(shown);
            true
        }
        None => false,
    }
}

/// Finds the CLCWs that would be possible next, and keeps them with the judge until the next such call. After an
/// impossible CLCW, these are the ones that would have been possible in its place. After an overrun there are none. What
/// the judge knows of the receiver stays as it is.
///
/// The call takes longer than `tcrx_judge_heard_at` does. It fails with NoSession if the seat holds no judge of a
/// receiver.
#[unsafe(no_mangle)]
pub extern "C" fn tcrx_judge_possible_at(seat: &mut Seat) -> u32
    ensures possible { IfSome (receiver_in seat.old.place.judge)
        (λ old. (set : List Bool) × (result ≡ code_of Status.Done) × IsPossibleSet old.judge set
        × (seat.new.place.judge ≡ Some (Receiver (record old { set = set })))) }
    ensures no_session { IfNone (receiver_in seat.old.place.judge)
        ((result ≡ code_of Status.NoSession) × (seat.new.place.judge ≡ seat.old.place.judge)) }
{
    match seat.lend_receiver() {
        Some(held) => {
            possible(held);
            code(Status::Done)
        }
        None => code(Status::NoSession),
    }
}

fn possible(held: &mut ReceiverJudge)
    ensures possible { IsPossibleSet held.old.judge held.new.set }
    ensures kept { held.new ≡ record held.old { set = held.new.set } }
{
    held.judge.possible(&mut held.set);
}

/// Returns whether the last call of `tcrx_judge_possible_at` found this CLCW. The flag is also 0 if the word isn't a
/// CLCW of COP-1 for the receiver's virtual channel. The flags of the link and the status field of the CLCW have no
/// meaning for the judge.
///
/// The call fails with NoSession if the seat holds no judge of a receiver. The seat stays as it was.
#[unsafe(no_mangle)]
pub extern "C" fn tcrx_judge_found_at(seat: &mut Seat, word: u32) -> FlagRecord
    ensures found { IfSome (receiver_in seat.old.place.judge)
        (λ old. (found : Bool) × (result ≡ flagged found) × (IsTrue found ↔ (IsClcwOf old.vcid word × Has old.set (shown_by word)))) }
    ensures no_session { IfNone (receiver_in seat.old.place.judge) (result ≡ unflagged Status.NoSession) }
    ensures unchanged { seat.new.place.judge ≡ seat.old.place.judge }
{
    match seat.lend_receiver() {
        Some(held) => flagged(is_found(held, word)),
        None => unflagged(Status::NoSession),
    }
}

fn is_found(held: &ReceiverJudge, word: u32) -> bool
    ensures { IsTrue result ↔ (IsClcwOf held.now.vcid word × Has held.now.set (shown_by word)) }
{
    match read_heard(word, held.vcid.number()) {
        Some(shown) => held.set.contains(shown),
        None => false,
    }
}

/// Returns the CLCW at a place among all that can be possible, if the last call of `tcrx_judge_possible_at` found it.
/// There are 8,192 places, from 0 on, in the order of the CLCWs as numbers. To list all CLCWs that were found, call this
/// for each place. The returned CLCW has the status field 0, and the flags of the link are clear.
///
/// The call fails with NoSession if the seat holds no judge of a receiver. The seat stays as it was.
#[unsafe(no_mangle)]
pub extern "C" fn tcrx_judge_word_at(seat: &mut Seat, place: u32) -> WordRecord
    ensures word { IfSome (receiver_in seat.old.place.judge) (λ old. IsWordAt old place result) }
    ensures no_session { IfNone (receiver_in seat.old.place.judge) (result ≡ no_word Status.NoSession) }
    ensures unchanged { seat.new.place.judge ≡ seat.old.place.judge }
{
    match seat.lend_receiver() {
        Some(held) => word(held, place),
        None => no_word(Status::NoSession),
    }
}

fn word(held: &ReceiverJudge, place: u32) -> WordRecord
    ensures { IsWordAt held.now place result }
{
    match held.set.get(place as usize) {
        Some(shown) => {
            let link = Link {
                no_rf: false,
                no_bit_lock: false,
            };
            word_found(clcw_word(&shown.report(), held.vcid.number(), link))
        }
        None => no_word(Status::Done),
    }
}
