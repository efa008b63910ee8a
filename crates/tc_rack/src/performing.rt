//! Performing the lines of a script in order. The first lines set channels up. At the first operation the channels are
//! created, and from then on lines operate on them.

ghost use Rattle.std.specs.Prelude.{◌≡◌, ◌≢◌, ◌⊎◌, [], IfOk, IfErr, OnErr, OnOk};
ghost use Rattle.tc_rack.specs.Phase.{Does, IsBad, IsBadOperation, Operates, Setup};
ghost use Rattle.tc_rack.specs.Performing.{IsDoneSo, IsFound, IsInstructionAnswered, IsLeft, IsOperated};
ghost use Rattle.tc_rack.specs.Stage.{phase_of};

use crate::answer::Answer;
use crate::configuration::Configuration;
use crate::instruction::Instruction;
use crate::operation::Operation;
use crate::rack::Rack;
use crate::stage::Stage;
use std::alloc::Global;
use tc_text::Reason;

/// A way to create a script's channels, and to carry out operations on them.
pub trait Backend {
    ghost use Rattle.std.specs.Prelude.{List};
    ghost use Rattle.tc_queues.specs.declared.settings.Settings.{Settings};
    ghost use Rattle.tc_rack.specs.declared.answer.Answer.{Answer};
    ghost use Rattle.tc_rack.specs.declared.operation.Operation.{Operation};

    /// The channels that are created in this way.
    type Founded: Drop;

    // the channels are new, and have these settings
    ghost is_new: { Self → List Settings → Self.Founded → Type 0 };

    // the channels give this answer to an operation, and change in this way
    ghost answers: { Operation → Self.Founded → Answer → Self.Founded → Type 0 };

    // an operation at which memory runs out may change the channels in this way
    ghost spares: { Self.Founded → Self.Founded → Type 0 };

    /// Creates the channels that were set up. Returns `NoChannel` if none was set up, and `NoMemory` if memory runs
    /// out.
    fn found(&self, alloc: Global, list: Configuration) -> Result<Self::Founded, Reason>
        ensures new { IfOk result (is_new self.now list) }
        ensures some { OnOk result (list ≢ []) }
        ensures reason { IfErr result (λ reason. (reason ≡ Reason.NoMemory) ⊎ ((reason ≡ Reason.NoChannel) × (list ≡ []))) };

    /// Carries out an operation on the channels. The only error is `NoMemory`.
    fn operate(&self, founded: &mut Self::Founded, operation: Operation) -> Result<Answer, Reason>
        ensures answer { IfOk result (λ answer. answers operation founded.old answer founded.new) }
        ensures reason { IfErr result (λ reason. reason ≡ Reason.NoMemory) }
        ensures refused { OnErr result (spares founded.old founded.new) };
}

/// A backend for one thread, with the channels of the spacecraft with this id.
#[derive(Clone, Copy, Debug)]
pub struct RackBackend {
    pub scid: u16,
}

impl Backend for RackBackend {
    ghost use Rattle.std.specs.Prelude.{◌≡◌};
    ghost use Rattle.tc_rack.specs.Operation.{IsAnswerOf};
    ghost use Rattle.tc_rack.specs.Progress.{IsNewRack};

    type Founded = Rack;

    ghost is_new = { λ f. IsNewRack f.scid };

    ghost answers = { IsAnswerOf };

    ghost spares = { λ old new. new ≡ old };

    fn found(&self, alloc: Global, list: Configuration) -> Result<Rack, Reason> {
        if list.channels().is_empty() {
            return Err(Reason::NoChannel);
        }
        match Rack::new(alloc, self.scid, list) {
            Ok(rack) => Ok(rack),
            Err(_) => Err(Reason::NoMemory),
        }
    }

    fn operate(&self, rack: &mut Rack, operation: Operation) -> Result<Answer, Reason> {
        match rack.operate(operation) {
            Ok(answer) => Ok(answer),
            Err(_) => Err(Reason::NoMemory),
        }
    }
}

/// Performs a line. Only an operation has an answer. A line that is refused leaves everything as it is, unless memory
/// runs out at an operation. The channels are then left as the backend promises. If it was the first operation, the
/// channels may have been created.
pub fn perform<F: Backend>(
    backend: &F,
    alloc: Global,
    stage: &mut Stage<F::Founded>,
    instruction: Instruction,
) -> Result<Option<Answer>, Reason>
    ensures done { OnOk result (Does (phase_of stage.old) instruction (phase_of stage.new)) }
    ensures answer { IfOk result (IsInstructionAnswered (IsOperated (F.is_new backend.now) F.answers) stage.old instruction stage.new) }
    ensures reason { IfErr result (λ reason. (reason ≡ Reason.NoMemory) ⊎ IsBad (phase_of stage.old) instruction reason) }
    ensures refused { IfErr result (λ reason. IsLeft (F.is_new backend.now) F.spares reason stage.old stage.new) }
{
    match instruction {
        Instruction::Nothing => Ok(None),
        Instruction::Channel(settings) => {
            stage.add_channel(settings)?;
            Ok(None)
        }
        Instruction::Add(vcid, addition) => {
            stage.add_to_channel(alloc, vcid, addition)?;
            Ok(None)
        }
        Instruction::Frame(octets) => operate(backend, alloc, stage, Operation::Frame(octets)),
        Instruction::Release(vcid) => operate(backend, alloc, stage, Operation::Release(vcid)),
        Instruction::Take(vcid, apid) => operate(
            backend,
            alloc,
            stage,
            Operation::Take(vcid, apid),
        ),
        Instruction::Unit(vcid, map) => operate(backend, alloc, stage, Operation::Unit(vcid, map)),
        Instruction::Clcw(vcid) => operate(backend, alloc, stage, Operation::Clcw(vcid)),
    }
}

// Carries out an operation on the channels, which are created first if no operation came before.
fn operate<F: Backend>(
    backend: &F,
    alloc: Global,
    stage: &mut Stage<F::Founded>,
    operation: Operation,
) -> Result<Option<Answer>, Reason>
    ensures done { OnOk result (Operates (phase_of stage.old) (phase_of stage.new)) }
    ensures answer { IfOk result (λ answer. IsDoneSo (IsOperated (F.is_new backend.now) F.answers) operation stage.old answer stage.new) }
    ensures reason { IfErr result (λ reason. (reason ≡ Reason.NoMemory) ⊎ IsBadOperation (phase_of stage.old) reason) }
    ensures refused { IfErr result (λ reason. IsLeft (F.is_new backend.now) F.spares reason stage.old stage.new) }
{
    begin(backend, alloc, stage)?;
    match stage {
        Stage::Operating(founded) => Ok(Some(backend.operate(founded, operation)?)),
        Stage::SettingUp(_) => unreachable!(),
    }
}

/// Creates the channels from a copy of the set-up, if no operation came before. If no channel was set up, or if memory
/// runs out, the call returns the reason, and the stage stays as it was.
#[inline(always)]
pub fn begin<F: Backend>(
    backend: &F,
    alloc: Global,
    stage: &mut Stage<F::Founded>,
) -> Result<(), Reason>
    ensures found { OnOk result ((found : F.Founded) × IsFound (F.is_new backend.now) stage.old found × (stage.new ≡ Stage.Operating found)) }
    ensures some { OnOk result (phase_of stage.old ≢ Setup []) }
    ensures reason { IfErr result (λ reason. (reason ≡ Reason.NoMemory) ⊎ IsBadOperation (phase_of stage.old) reason) }
    ensures refused { OnErr result (stage.new ≡ stage.old) }
{
    match stage {
        Stage::Operating(_) => Ok(()),
        Stage::SettingUp(_) => begin_anew(backend, alloc, stage),
    }
}

// Creates the channels as `begin` does. This function is kept apart from the code that runs for each line.
#[cold]
#[inline(never)]
fn begin_anew<F: Backend>(
    backend: &F,
    alloc: Global,
    stage: &mut Stage<F::Founded>,
) -> Result<(), Reason>
    ensures found { OnOk result ((found : F.Founded) × IsFound (F.is_new backend.now) stage.old found × (stage.new ≡ Stage.Operating found)) }
    ensures some { OnOk result (phase_of stage.old ≢ Setup []) }
    ensures reason { IfErr result (λ reason. (reason ≡ Reason.NoMemory) ⊎ IsBadOperation (phase_of stage.old) reason) }
    ensures refused { OnErr result (stage.new ≡ stage.old) }
{
    match stage {
        Stage::Operating(_) => Ok(()),
        Stage::SettingUp(list) => {
            let copy = list.copy(alloc)?;
            let founded = backend.found(alloc, copy)?;
            *stage = Stage::Operating(founded);
            Ok(())
        }
    }
}

/// Returns the channels, which are created from the set-up if no operation came before. If no channel was set up, or if
/// memory runs out, the call returns the reason.
pub fn start<F: Backend>(
    backend: &F,
    alloc: Global,
    stage: Stage<F::Founded>,
) -> Result<F::Founded, Reason>
    ensures found { IfOk result (IsFound (F.is_new backend.now) stage) }
    ensures some { OnOk result (phase_of stage ≢ Setup []) }
    ensures reason { IfErr result (λ reason. (reason ≡ Reason.NoMemory) ⊎ IsBadOperation (phase_of stage) reason) }
{
    match stage {
        Stage::Operating(founded) => Ok(founded),
        Stage::SettingUp(list) => backend.found(alloc, list),
    }
}
