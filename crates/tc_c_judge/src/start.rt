//! The creation of judges in a seat.

ghost use Rattle.std.specs.Prelude.{◌≡◌, ◌<◌, Some, None, Ok, IfOk, IfErr, IfSome, IfNone};
ghost use Rattle.tc_link.specs.Farm.{first_report};
ghost use Rattle.tc_judge.specs.declared.account.Rules.{Rules as RulesValue};
ghost use Rattle.tc_sender.specs.Account.{SenderKnowledge};
ghost use Rattle.tc_c_base.specs.declared.status.Status.{Status as StatusName};
ghost use Rattle.tc_c_base.specs.Status.{code_of};
ghost use Rattle.tc_c_judge.specs.declared.held.HeldJudge.TheVariants.{Receiver, Sender};
ghost use Rattle.tc_c_judge.specs.declared.held.ReceiverJudge.{ReceiverJudge as ReceiverValue};
ghost use Rattle.tc_c_judge.specs.Settings.{rules_of, sender_window_of};
ghost use Rattle.tc_c_judge.specs.Receivers.{IsNew};
ghost use Rattle.tc_c_judge.specs.Senders.{IsNewSender};
ghost use Rattle.tc_c_judge.specs.Start.{IsReasonForNone};

use crate::held::{ChannelId, HeldJudge, ReceiverJudge};
use crate::seat::Seat;
use crate::settings::{JudgeSettings, rules, sender_window};
use std::alloc::Global;
use tc_c_base::{Status, code};
use tc_judge::{Judge, Shown, ShownSet};
use tc_link::{Report, State};
use tc_sender::SenderJudge;

/// Returns the components with which FARM-1 starts.
pub(crate) fn first(vr: u8) -> Shown
    ensures { result ≡ first_report vr }
{
    let report = Report {
        state: State::S1,
        vr,
        lockout: false,
        wait: false,
        retransmit: false,
        farm_b: 0,
    };
    match Shown::new(report) {
        Some(shown) => shown,
        None => unreachable!(), // A CLCW can show these components.
    }
}

// Creates the judge of a receiver.
fn receiver(alloc: Global, settings: JudgeSettings) -> Result<ReceiverJudge, Status>
    ensures made { IfOk result (λ made. (rules : RulesValue) × (rules_of settings ≡ Ok rules) × IsNew settings rules made) }
    ensures fault { IfErr result (λ fault. IsReasonForNone (rules_of settings) fault) }
    ensures refusal { IfErr result (λ fault. 0 < code_of fault) }
{
    let rules = rules(settings)?;
    let Some(vcid) = ChannelId::new(settings.vcid) else {
        return Err(Status::BadVcid);
    };
    let first = first(settings.first);
    let Ok(judge) = Judge::new(alloc, rules, first, settings.most as usize) else {
        return Err(Status::NoMemory);
    };
    let Ok(set) = ShownSet::new(alloc) else {
        return Err(Status::NoMemory);
    };
    Ok(ReceiverJudge {
        judge,
        set,
        scid: settings.scid,
        vcid,
    })
}

// Creates the judge of a sender.
fn sender(alloc: Global, window: u8, vr: u8) -> Result<SenderJudge, Status>
    ensures made { IfOk result (λ made. (sender_window_of window ≡ Ok window) × IsNewSender window vr made) }
    ensures fault { IfErr result (λ fault. IsReasonForNone (sender_window_of window) fault) }
    ensures refusal { IfErr result (λ fault. 0 < code_of fault) }
{
    let window = sender_window(window)?;
    match SenderJudge::new(alloc, window, vr) {
        Ok(judge) => Ok(judge),
        Err(_) => Err(Status::NoMemory),
    }
}

fn boxed_receiver(alloc: Global, settings: JudgeSettings) -> Result<Box<HeldJudge>, Status>
    ensures made { IfOk result (λ held. (rules : RulesValue) × (made : ReceiverValue) × (rules_of settings ≡ Ok rules)
        × IsNew settings rules made × (held.value ≡ Receiver made)) }
    ensures fault { IfErr result (λ fault. IsReasonForNone (rules_of settings) fault) }
    ensures refusal { IfErr result (λ fault. 0 < code_of fault) }
{
    let judge = receiver(alloc, settings)?;
    match Box::new(alloc, HeldJudge::Receiver(judge)) {
        Ok(held) => Ok(held),
        Err(_) => Err(Status::NoMemory),
    }
}

fn boxed_sender(alloc: Global, window: u8, vr: u8) -> Result<Box<HeldJudge>, Status>
    ensures made { IfOk result (λ held. (made : SenderKnowledge) × (sender_window_of window ≡ Ok window)
        × IsNewSender window vr made × (held.value ≡ Sender made)) }
    ensures fault { IfErr result (λ fault. IsReasonForNone (sender_window_of window) fault) }
    ensures refusal { IfErr result (λ fault. 0 < code_of fault) }
{
    let judge = sender(alloc, window, vr)?;
    match Box::new(alloc, HeldJudge::Sender(judge)) {
        Ok(held) => Ok(held),
        Err(_) => Err(Status::NoMemory),
    }
}

/// Creates the judge of a receiver in a seat that holds no judge. The receiver has the first components of FARM-1, and
/// no frame is on its way to it.
///
/// All memory that the judge ever has is requested here, as many bytes as `tcrx_judge_storage` returns.
///
/// The call fails with SessionInUse if the seat holds a judge, and with the status of the first fault of the settings.
/// These are BadScid for a spacecraft id over 1,023, BadVcid for a virtual channel id over 63, BadWidth for a width that
/// isn't even and 2 to 254, and BadFlag for a flag that is neither 0 nor 1. The call fails with NoMemory if the settings
/// have no fault and there is too little memory. If it fails, the seat stays as it was.
#[unsafe(no_mangle)]
pub extern "C" fn tcrx_judge_new_at(alloc: Global, seat: &mut Seat, settings: JudgeSettings) -> u32
    ensures made { IfNone seat.old.place.judge
        (result ≡ 0 → (rules : RulesValue) × (made : ReceiverValue) × (rules_of settings ≡ Ok rules)
        × IsNew settings rules made × (seat.new.place.judge ≡ Some (Receiver made))) }
    ensures fault { IfNone seat.old.place.judge
        (0 < result → (fault : StatusName) × IsReasonForNone (rules_of settings) fault × (result ≡ code_of fault)) }
    ensures in_use { IfSome seat.old.place.judge (λ _. result ≡ code_of Status.SessionInUse) }
    ensures refused { 0 < result → seat.new.place.judge ≡ seat.old.place.judge }
{
    if seat.holds() {
        return code(Status::SessionInUse);
    }
    match boxed_receiver(alloc, settings) {
        Ok(held) => {
            seat.put(held);
            code(Status::Done)
        }
        Err(fault) => code(fault),
    }
}

/// Creates the judge of a sender in a seat that holds no judge. The sender has a window of `window` frames, and numbers
/// its frames from `vr` on, the V(R) of the receiver.
///
/// All memory that the judge ever has is requested here, as many bytes as `tcrx_sender_storage` returns.
///
/// The call fails with SessionInUse if the seat holds a judge, and with BadWidth for a window that isn't 1 to 127. It
/// fails with NoMemory if the window is allowed and there is too little memory. If it fails, the seat stays as it was.
#[unsafe(no_mangle)]
pub extern "C" fn tcrx_sender_new_at(alloc: Global, seat: &mut Seat, window: u8, vr: u8) -> u32
    ensures made { IfNone seat.old.place.judge
        (result ≡ 0 → (made : SenderKnowledge) × (sender_window_of window ≡ Ok window)
        × IsNewSender window vr made × (seat.new.place.judge ≡ Some (Sender made))) }
    ensures fault { IfNone seat.old.place.judge
        (0 < result → (fault : StatusName) × IsReasonForNone (sender_window_of window) fault × (result ≡ code_of fault)) }
    ensures in_use { IfSome seat.old.place.judge (λ _. result ≡ code_of Status.SessionInUse) }
    ensures refused { 0 < result → seat.new.place.judge ≡ seat.old.place.judge }
{
    if seat.holds() {
        return code(Status::SessionInUse);
    }
    match boxed_sender(alloc, window, vr) {
        Ok(held) => {
            seat.put(held);
            code(Status::Done)
        }
        Err(fault) => code(fault),
    }
}

/// Frees the judge, of a receiver or of a sender. The seat then holds none. The call fails with NoSession if the seat
/// holds no judge.
#[unsafe(no_mangle)]
pub extern "C" fn tcrx_judge_free_at(seat: &mut Seat) -> u32
    ensures freed { IfSome seat.old.place.judge (λ _. result ≡ code_of Status.Done) }
    ensures no_session { IfNone seat.old.place.judge (result ≡ code_of Status.NoSession) }
    ensures empty { seat.new.place.judge ≡ None }
{
    if seat.free() {
        code(Status::Done)
    } else {
        code(Status::NoSession)
    }
}
