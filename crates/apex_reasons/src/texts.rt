//! The text of a reason.
ghost use Rattle.std.specs.Prelude.{◌≡◌, ◌+◌, ◌≤◌, ◌++◌, codes, length};
ghost use Rattle.arrayvec.specs.ArrayVec.{array_vec_len};
ghost use Rattle.apex_calls.specs.Lines.{code_text};
ghost use Rattle.apex_reasons.specs.Texts.{actor_text, cause_text, head_of, reason_text, step_text, words_of};
ghost use Rattle.apex_reasons.specs.declared.guards.TheConstants.{MOST_SENTENCE};
ghost use Rattle.apex_reasons.specs.declared.texts.TheConstants.{ACTOR_ROOM, TEXT_ROOM};
ghost use Rattle.apex_types.specs.declared.limits.TheConstants.{MOST_NAME};

use crate::guards::MOST_SENTENCE;
use crate::reasons::Reason;
use crate::rules::{Rule, WaitCause};
use apex_configs::Table;
use apex_names::process_name;
use apex_texts::{put, put_bytes, put_long_number};
use apex_types::{Caller, MOST_NAME, ReturnCode};
use arrayvec::ArrayVec;

/// Room for a caller and its step: a name, a number, and the words around them.
const ACTOR_ROOM: usize = MOST_NAME + 20 + 8;

/// Room for a code and a sentence.
const RULE_ROOM: usize = 16 + MOST_SENTENCE;

/// Room for the text of a reason.
const TEXT_ROOM: usize = ACTOR_ROOM + RULE_ROOM;

/// The text of a reason, without a line feed.
pub type ReasonText = ArrayVec<u8, TEXT_ROOM>;

/// A code, and what stands between it and a guard's sentence.
fn code_head(code: ReturnCode) -> &'static str
    ensures value { result.now ≡ code_text code ++ codes ": " }
    ensures short { length result.now ≤ 16 }
{
    match code {
        ReturnCode::NoError => "NO_ERROR: ",
        ReturnCode::NoAction => "NO_ACTION: ",
        ReturnCode::NotAvailable => "NOT_AVAILABLE: ",
        ReturnCode::InvalidParam => "INVALID_PARAM: ",
        ReturnCode::InvalidConfig => "INVALID_CONFIG: ",
        ReturnCode::InvalidMode => "INVALID_MODE: ",
        ReturnCode::TimedOut => "TIMED_OUT: ",
    }
}

/// Puts the place of a step, counted from 0.
fn put_step(text: &mut ReasonText, step: Option<usize>)
    requires { array_vec_len text.old + 26 ≤ TEXT_ROOM }
    ensures text { text.new.items ≡ text.old.items ++ step_text step }
    ensures short { array_vec_len text.new ≤ array_vec_len text.old + 26 }
{
    if let Some(step) = step {
        put(text, " step ");
        put_long_number(text, step as u64);
    }
}

/// Puts the caller and its step.
fn put_actor(text: &mut ReasonText, table: &Table, caller: &Caller, step: Option<usize>)
    requires { array_vec_len text.old + ACTOR_ROOM ≤ TEXT_ROOM }
    ensures text { text.new.items ≡ text.old.items ++ actor_text table.now caller.now step }
    ensures short { array_vec_len text.new ≤ array_vec_len text.old + ACTOR_ROOM }
{
    match caller {
        Caller::Process(process) => put_bytes(text, process_name(table, *process)),
        Caller::Init => put(text, "init"),
        Caller::Nobody => return,
    }
    put_step(text, step);
    put(text, ": ");
}

impl WaitCause {
    /// The cause in words, without a full stop.
    pub fn sentence(self) -> &'static str
        ensures value { result.now ≡ cause_text self }
        ensures short { length result.now ≤ MOST_SENTENCE }
    {
        match self {
            WaitCause::SemaphoreIsAtZero => "the value of the semaphore is 0",
            WaitCause::BufferIsFull => "the buffer is full",
            WaitCause::BufferIsEmpty => "the buffer holds no message",
            WaitCause::BlackboardIsEmpty => "the blackboard holds no message",
            WaitCause::EventFlagIsDown => "the event flag is down",
            WaitCause::MutexIsOwned => "another process owns the mutex",
            WaitCause::AsksForTime => "the caller asks to wait",
            WaitCause::AsksForRelease => "the caller asks to wait for its next release",
            WaitCause::AsksForSuspension => "the caller asks to be suspended",
        }
    }
}

/// The words of a rule.
fn words_of(rule: &Rule) -> &'static str
    ensures value { result.now ≡ words_of rule.now }
    ensures short { length result.now ≤ MOST_SENTENCE }
{
    match rule {
        Rule::Refused(guard) => guard.sentence(),
        Rule::Served => "no guard of the service holds",
        Rule::Waits(cause) | Rule::WouldWait(cause) => cause.sentence(),
        Rule::WorkWasKept => "the process has kept the core since the work began",
        Rule::WorkWasBroken => "the process has lost the core since the work began",
        Rule::ModeIsIdle => "the mode is IDLE",
        Rule::NoInitStepIsDue => "the mode is COLD_START and no init step is due on the core",
        Rule::NobodyIsEligible => "no eligible process is bound to the core",
        Rule::TickStops => "a wait ends or a deadline passes before the tick is over",
        Rule::TickGoesWhole => "no wait ends and no deadline passes before the tick is over",
    }
}

/// What stands before the words of a rule: the beginning of the reply, if the rule gives it.
fn head_of(rule: &Rule) -> &'static str
    ensures value { result.now ≡ head_of rule.now }
    ensures short { length result.now ≤ 16 }
{
    match rule {
        Rule::Refused(guard) => code_head(guard.code()),
        Rule::Served => "",
        Rule::Waits(_) => "BLOCKED: ",
        Rule::WouldWait(_) => "NOT_AVAILABLE: ",
        Rule::WorkWasKept => "DONE: ",
        Rule::WorkWasBroken => "LOST: ",
        Rule::ModeIsIdle | Rule::NoInitStepIsDue | Rule::NobodyIsEligible => "IDLE: ",
        Rule::TickStops | Rule::TickGoesWhole => "ADVANCED: ",
    }
}

impl Reason {
    /// The text of the reason, as `WRITER step 3: INVALID_MODE: the caller owns a mutex and the
    /// timeout is not 0` (this profile). The table is that of the situation. Takes no memory.
    pub fn text(&self, table: &Table) -> ReasonText
        ensures { result.items ≡ reason_text table.now self.now }
    {
        let mut text = ReasonText::new();
        put_actor(&mut text, table, &self.caller, self.step);
        put(&mut text, head_of(&self.rule));
        put(&mut text, words_of(&self.rule));
        text
    }
}
