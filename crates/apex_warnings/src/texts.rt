//! The text of a warning.
ghost use Rattle.std.specs.Prelude.{◌≡◌, ◌+◌, Some};
ghost use Rattle.apex_warnings.specs.Texts.{group_word, process_reason, step_reason, warning_text};

use crate::objects::Group;
use crate::process_warnings::ProcessWarning;
use crate::step_warnings::StepWarning;
use crate::warnings::Warning;
use apex_types::Origin;
use std::fmt;

impl ProcessWarning {
    /// Why a process is warned of.
    pub fn reason(self) -> &'static str
        ensures { result.now ≡ process_reason self }
    {
        match self {
            ProcessWarning::EmptyScript => "its script is empty, so it stops at its first turn",
            ProcessWarning::NotStarted => {
                "no step outside its script starts it, so it stays dormant"
            }
            ProcessWarning::CapacityAbovePeriod => {
                "its time capacity is longer than its period, so its next release comes first"
            }
            ProcessWarning::NoPeriodicWait => {
                "it is periodic and loops without PERIODIC_WAIT, so only a start releases it"
            }
            ProcessWarning::MuchWork => {
                "the work of a job has no fewer units than its period or its time capacity has ticks"
            }
        }
    }
}

impl StepWarning {
    /// Why a step is warned of.
    pub fn reason(self) -> &'static str
        ensures { result.now ≡ step_reason self }
    {
        match self {
            StepWarning::MessageRefused => {
                "the message is empty or too long, so the answer is INVALID_PARAM"
            }
            StepWarning::AperiodicWait => "the process is aperiodic, so the answer is INVALID_MODE",
            StepWarning::SuspendsPeriodic => {
                "a periodic process cannot be suspended, so the call is refused"
            }
            StepWarning::LowCeiling => {
                "the ceiling is below the priority of the process, so the call is refused"
            }
            StepWarning::NotReleased => "the rest of the script does not give the mutex up",
            StepWarning::WaitsAsOwner => {
                "if the process got its mutexes, it owns one here, and the call is refused"
            }
            StepWarning::NeverAnswered => "no step gives what the call waits for",
        }
    }
}

impl Group {
    /// The word of an object of this kind.
    pub fn word(self) -> &'static str
        ensures { result.now ≡ group_word self }
    {
        match self {
            Group::Semaphores => "semaphore",
            Group::Buffers => "buffer",
            Group::Blackboards => "blackboard",
            Group::EventFlags => "event",
            Group::Mutexes => "mutex",
        }
    }
}

impl fmt::Display for Warning {
    ghost output = { λ warning. Some (warning_text warning) };

    fn fmt<W: fmt::Write>(&self, f: &mut fmt::Formatter<W>) -> fmt::Result {
        match *self {
            Warning::Process(warning, process) => {
                let number = process.number();
                let reason = warning.reason();
                write!(f, "process {number}: {reason}")
            }
            Warning::Step(warning, Origin::Init(place)) => {
                let number = u32::from(place) + 1;
                let reason = warning.reason();
                write!(f, "init {number}: {reason}")
            }
            Warning::Step(warning, Origin::Script(process, place)) => {
                let number = process.number();
                let step = u32::from(place) + 1;
                let reason = warning.reason();
                write!(f, "process {number} step {step}: {reason}")
            }
            Warning::UnusedObject(group, place) => {
                let word = group.word();
                let number = u32::from(place) + 1;
                write!(
                    f,
                    "{word} {number}: no step names it, apart from its creation"
                )
            }
            Warning::UnusedCore(core) => {
                let number = core.number();
                write!(f, "core {number}: the init list binds no process to it")
            }
        }
    }
}
