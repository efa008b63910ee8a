//! The calls on a judge of a sender.

ghost use Rattle.std.specs.Prelude.{◌≡◌, ◌≢◌, ◌↔◌, true, Some, IfSome, IfNone, IfOk, IfErr};
ghost use Rattle.tc_sender.specs.Account.{Made, Set, SenderKnowledge};
ghost use Rattle.tc_sender.specs.declared.judge.SenderVerdict.{SenderVerdict as VerdictValue};
ghost use Rattle.tc_sender.specs.declared.judge.SenderVerdict.TheVariants.{Breach, Contradictory};
ghost use Rattle.tc_c_base.specs.Status.{code_of};
ghost use Rattle.tc_c_judge.specs.declared.held.HeldJudge.TheVariants.{Sender};
ghost use Rattle.tc_c_judge.specs.Held.{sender_in};
ghost use Rattle.tc_c_judge.specs.Records.{judged, no_verdict};
ghost use Rattle.tc_c_judge.specs.Senders.{Follows, IsSenderVerdict, arrived, sender_verdict_number};
ghost use Rattle.tc_c_judge.specs.Settings.{bool_of};

use crate::records::{VerdictRecord, judged, no_verdict};
use crate::seat::Seat;
use crate::settings::flag;
use tc_c_base::{Status, code};
use tc_sender::{SenderJudge, SenderVerdict};

// Returns the number of a verdict.
fn number(verdict: SenderVerdict) -> u8
    ensures { result ≡ sender_verdict_number verdict }
{
    match verdict {
        SenderVerdict::Explained => 1,
        SenderVerdict::Breach => 2,
        SenderVerdict::Contradictory => 3,
    }
}

/// Notes that a Type-AD frame with this N(S) arrived, and returns the verdict on it. `accepted` is 1 if the receiver
/// accepted the frame, otherwise 0.
///
/// The verdict is 1 if a history of the sender explains the frame together with everything that was noted before. It is
/// 2 if none does. It is 3 if no right receiver does what was noted, because it accepts only the frame with the number
/// V(R). Unless the verdict is 1, the frame isn't noted. The judge doesn't look at data fields.
///
/// The call fails with NoSession if the seat holds no judge of a sender, and with BadFlag if `accepted` is neither 0 nor
/// 1. The seat then stays as it was.
#[unsafe(no_mangle)]
pub extern "C" fn tcrx_sender_arrived_at(seat: &mut Seat, number: u8, accepted: u8) -> VerdictRecord
    ensures arrived { IfSome (sender_in seat.old.place.judge)
        (λ old. IfOk (bool_of accepted) (λ accepted. (verdict : VerdictValue) × (new : SenderKnowledge)
        × (result ≡ judged (sender_verdict_number verdict)) × IsSenderVerdict old (arrived number accepted) new verdict
        × ((verdict ≡ Contradictory) ↔ ((accepted ≡ true) × (number ≢ old.vr))) × (seat.new.place.judge ≡ Some (Sender new)))) }
    ensures bad_flag { IfSome (sender_in seat.old.place.judge)
        (λ old. IfErr (bool_of accepted) (λ fault. (result ≡ no_verdict fault) × (seat.new.place.judge ≡ seat.old.place.judge))) }
    ensures no_session { IfNone (sender_in seat.old.place.judge)
        ((result ≡ no_verdict Status.NoSession) × (seat.new.place.judge ≡ seat.old.place.judge)) }
{
    match seat.lend_sender() {
        Some(judge) => frame_arrived(judge, number, accepted),
        None => no_verdict(Status::NoSession),
    }
}

fn frame_arrived(judge: &mut SenderJudge, frame: u8, accepted: u8) -> VerdictRecord
    ensures arrived { IfOk (bool_of accepted) (λ accepted. (verdict : VerdictValue) × (result ≡ judged (sender_verdict_number verdict))
        × IsSenderVerdict judge.old (arrived frame accepted) judge.new verdict
        × ((verdict ≡ Contradictory) ↔ ((accepted ≡ true) × (frame ≢ judge.old.vr)))) }
    ensures bad_flag { IfErr (bool_of accepted) (λ fault. (result ≡ no_verdict fault) × (judge.new ≡ judge.old)) }
{
    match flag(accepted) {
        Ok(accepted) => judged(number(judge.arrived(frame, accepted, &[]))),
        Err(fault) => no_verdict(fault),
    }
}

/// Notes that the receiver made a CLCW with this V(R), and returns the verdict on it. The verdict is 1 if a history of
/// the sender explains the CLCW together with everything that was noted before. It is 3 if V(R) is another number, and
/// the CLCW then isn't noted.
///
/// The call fails with NoSession if the seat holds no judge of a sender.
#[unsafe(no_mangle)]
pub extern "C" fn tcrx_sender_made_at(seat: &mut Seat, vr: u8) -> VerdictRecord
    ensures made { IfSome (sender_in seat.old.place.judge)
        (λ old. (verdict : VerdictValue) × (new : SenderKnowledge) × (result ≡ judged (sender_verdict_number verdict))
        × IsSenderVerdict old (Made vr) new verdict × (verdict ≢ Breach)
        × ((verdict ≡ Contradictory) ↔ (vr ≢ old.vr)) × (seat.new.place.judge ≡ Some (Sender new))) }
    ensures no_session { IfNone (sender_in seat.old.place.judge)
        ((result ≡ no_verdict Status.NoSession) × (seat.new.place.judge ≡ seat.old.place.judge)) }
{
    match seat.lend_sender() {
        Some(judge) => clcw_made(judge, vr),
        None => no_verdict(Status::NoSession),
    }
}

fn clcw_made(judge: &mut SenderJudge, vr: u8) -> VerdictRecord
    ensures { (verdict : VerdictValue) × (result ≡ judged (sender_verdict_number verdict))
        × IsSenderVerdict judge.old (Made vr) judge.new verdict × (verdict ≢ Breach)
        × ((verdict ≡ Contradictory) ↔ (vr ≢ judge.old.vr)) }
{
    judged(number(judge.made(vr)))
}

/// Notes that a Set V(R) to this number was obeyed. The sender numbers its frames from this number on. After a breach,
/// this call with the receiver's V(R) lets the judge go on. The call fails with NoSession if the seat holds no judge of
/// a sender.
#[unsafe(no_mangle)]
pub extern "C" fn tcrx_sender_set_at(seat: &mut Seat, vr: u8) -> u32
    ensures set { IfSome (sender_in seat.old.place.judge)
        (λ old. (new : SenderKnowledge) × (result ≡ code_of Status.Done) × Follows old (Set vr) new
        × (seat.new.place.judge ≡ Some (Sender new))) }
    ensures no_session { IfNone (sender_in seat.old.place.judge)
        ((result ≡ code_of Status.NoSession) × (seat.new.place.judge ≡ seat.old.place.judge)) }
{
    match seat.lend_sender() {
        Some(judge) => {
            set(judge, vr);
            code(Status::Done)
        }
        None => code(Status::NoSession),
    }
}

fn set(judge: &mut SenderJudge, vr: u8)
    ensures { Follows judge.old (Set vr) judge.new }
{
    judge.set(vr);
}
