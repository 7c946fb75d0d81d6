//! The reason of an event, read off the situation before it.
ghost use Rattle.std.specs.Prelude.{◌≡◌};
ghost use Rattle.apex_machine.specs.processes.Dues.{HasTime};
ghost use Rattle.apex_types.specs.declared.entries.Event.TheVariants.{Turn};
ghost use Rattle.apex_machine.specs.Events.{IsWithin};
ghost use Rattle.apex_machine.specs.Machine.{situation_of};
ghost use Rattle.apex_machine.specs.Situations.{deed};
ghost use Rattle.apex_machine.specs.services.Callers.{IsReady, IsReadyCaller};
ghost use Rattle.apex_machine.specs.table.Table.{IsKnown};
ghost use Rattle.apex_dispatch.specs.Situations.{situation_in};
ghost use Rattle.apex_reasons.specs.Premises.{AreOfTable};
ghost use Rattle.apex_reasons.specs.Reasons.{asked, call_rule, chosen_reason, ended_reason, tick_rule, without_caller, IsReasonOf};
ghost use Rattle.apex_reasons.specs.Reasons as reasons;

use crate::effects::effect_of_call;
use crate::rows::first_guard;
use crate::rules::{Rule, idle_rule};
use apex_configs::Table;
use apex_dispatch::{Kernel, Situation};
use apex_machine::OpenWork;
use apex_services::Objects;
use apex_store::Store;
use apex_types::{Call, Caller, CallerCall, CoreId, Event, ProcessId};

/// The reason of an event's entry: the caller, its call, and the rule of the reply.
#[derive(Clone, Copy)]
pub struct Reason {
    /// The process or the init list that asks for the call. Nobody at an idle turn and a tick.
    pub caller: Caller,
    /// The call that is carried out. None at an idle turn and a tick.
    pub call: Option<Call>,
    /// The place of the call's step in its script or in the init list, counted from 0; past the
    /// last step of a script at its end. None if work ends, at an idle turn and at a tick.
    pub step: Option<usize>,
    /// The guard or the rule that decides the reply.
    pub rule: Rule,
}

fn without_caller(rule: Rule) -> Reason
    ensures { result ≡ without_caller rule }
{
    Reason {
        caller: Caller::Nobody,
        call: None,
        step: None,
        rule,
    }
}

/// Work that the core has begun ends.
fn ended_reason(begun: &OpenWork) -> Reason
    ensures { result ≡ ended_reason begun.now }
{
    Reason {
        caller: Caller::Process(begun.work.process),
        call: Some(Call::Work(begun.work.amount)),
        step: None,
        rule: if begun.unbroken {
            Rule::WorkWasKept
        } else {
            Rule::WorkWasBroken
        },
    }
}

/// The first guard of the call's row that holds, or else what the call does.
fn call_rule<S: Store>(
    table: &Table,
    store: &S,
    objects: &Objects,
    caller: &Caller,
    call: &Call,
) -> Rule
    requires all { AreOfTable table.now (S.roster store.now) objects.now }
    requires known { IsKnown table.now call.now }
    requires caller { IsReadyCaller (S.roster store.now) caller.now }
    ensures { result ≡ call_rule (S.roster store.now) objects.now caller.now call.now }
{
    match first_guard(table, store, objects, caller, call) {
        Some(guard) => Rule::Refused(guard),
        None => effect_of_call(table, store, objects, caller, call),
    }
}

/// The caller asks for the call, by the step at this place.
fn asked<S: Store>(
    table: &Table,
    store: &S,
    objects: &Objects,
    caller: Caller,
    step: usize,
    call: Call,
) -> Reason
    requires all { AreOfTable table.now (S.roster store.now) objects.now }
    requires known { IsKnown table.now call }
    requires caller { IsReadyCaller (S.roster store.now) caller }
    ensures { result ≡ asked (S.roster store.now) objects.now caller step call }
{
    Reason {
        caller,
        call: Some(call),
        step: Some(step),
        rule: call_rule(table, store, objects, &caller, &call),
    }
}

/// The process carries out its step.
#[tactic(auto, using(apex_laws::proofs::Known::known_script_step))]
fn script_reason<S: Store>(
    table: &Table,
    store: &S,
    objects: &Objects,
    process: ProcessId,
) -> Reason
    requires all { AreOfTable table.now (S.roster store.now) objects.now }
    requires ready { IsReady (S.roster store.now) process }
    ensures { result ≡ chosen_reason table.now (S.roster store.now) objects.now (Some process) }
{
    table.lawful();
    let step = usize::from(store.record(process).step);
    let caller = Caller::Process(process);
    match table.step_call(process, step) {
        Some(call) => asked(table, store, objects, caller, step, call),
        None => {
            let call = Call::Caller(CallerCall::StopSelf);
            asked(table, store, objects, caller, step, call)
        }
    }
}

/// The reason of a turn of the core.
#[tactic(auto, using(apex_laws::proofs::Known::known_due, apex_machine::proofs::Starts::chosen_ready))]
fn turn_reason<S: Store>(table: &Table, situation: &Situation<S>, core: CoreId) -> Reason
    requires { AreOfTable table.now situation.now.roster situation.now.objects }
    ensures { result ≡ reasons.reason_of table.now (situation_in situation.now) (Turn core) }
{
    table.lawful();
    if let Some(begun) = situation.work(core) {
        return ended_reason(&begun);
    }
    let (store, objects) = (situation.store(), situation.objects());
    if let Some(call) = situation.due_call(table, core) {
        let made = situation.init_steps_made();
        return asked(table, store, objects, Caller::Init, made, call);
    }
    match store.chosen(core) {
        Some(process) => script_reason(table, store, objects, process),
        None => without_caller(idle_rule(store.mode())),
    }
}

/// The ticks by which a tick of n would go on.
fn tick_rule<S: Store>(store: &S, n: u32) -> Rule
    requires { HasTime (S.roster store.now) }
    ensures { result ≡ tick_rule (S.roster store.now) n }
{
    let end = store.now() + u64::from(n);
    match store.next_instant() {
        Some(next) if next < end => Rule::TickStops,
        _ => Rule::TickGoesWhole,
    }
}

/// The reason of an event in this situation, which is one of the table.
#[tactic(auto, using(crate::proofs::Reasoned::reason_is))]
pub(crate) fn reason_for<S: Store>(table: &Table, situation: &Situation<S>, event: Event) -> Reason
    requires all { AreOfTable table.now situation.now.roster situation.now.objects }
    requires event { IsWithin table.now.cores event }
    ensures value { result ≡ reasons.reason_of table.now (situation_in situation.now) event }
    ensures deed { IsReasonOf (situation_in situation.now) event result
        (deed table.now (situation_in situation.now) event) }
{
    match event {
        Event::Turn(core) => turn_reason(table, situation, core),
        Event::Tick(n) => without_caller(tick_rule(situation.store(), n)),
    }
}

/// The reason of the entry that an event would add to the history of the kernel. It changes
/// nothing, and does not look at the room that the history has.
///
/// The caller and the call are those of the entry. A guard that is named is the first one of the
/// call's row that holds, and the reply is its code. If no guard holds, the rule says whether the
/// caller waits, and why: the reply is BLOCKED exactly if it does, and NOT_AVAILABLE exactly if its
/// timeout of 0 keeps it from that (this profile).
pub fn reason_of<S: Store>(kernel: &Kernel<S>, event: Event) -> Reason
    requires { IsWithin kernel.now.table.cores event }
    ensures value { result ≡ reasons.reason_of kernel.now.table
        (situation_of kernel.now.table kernel.now.machine) event }
    ensures deed { IsReasonOf (situation_of kernel.now.table kernel.now.machine) event result
        (deed kernel.now.table (situation_of kernel.now.table kernel.now.machine) event) }
{
    kernel.holds();
    reason_for(kernel.table(), kernel.situation(), event)
}
