//! The effect of a turn: an init step, the step of the chosen process, the end of its work, or
//! nothing.
ghost use Rattle.std.specs.Prelude.{◌≡◌, ◌<◌, ◌≤◌, length, None, Some, IfNone, IfSome};
ghost use Rattle.apex_types.specs.declared.limits.TheConstants.{MOST_STEPS};
ghost use Rattle.std.specs.Option.{ForSome};
ghost use Rattle.apex_machine.specs.services.Calls.{is_work};
ghost use Rattle.apex_machine.specs.services.Callers.{IsReady, IsReadyCaller};
ghost use Rattle.apex_machine.specs.services.Premises.{CanServe};
ghost use Rattle.apex_types.specs.declared.entries.Caller.TheVariants.{Nobody, Process as ByProcess};
ghost use Rattle.apex_types.specs.declared.entries.Reply.TheVariants.{Begun, Idle};
ghost use Rattle.apex_machine.specs.Deeds.{chosen_deed, move_on, next_place, served, step_deed, turn_deed};
ghost use Rattle.apex_machine.specs.processes.Running.{chosen};
ghost use Rattle.apex_machine.specs.processes.Periods.{HasNoFutureRelease};
ghost use Rattle.apex_machine.specs.processes.Stamps.{HasOrderlyStarts};
ghost use Rattle.apex_machine.specs.table.Table.{IsKnown};
ghost use Rattle.apex_machine.specs.Works.{work_begun};
ghost use Rattle.apex_dispatch.specs.Deeds.{Asks, Does};
ghost use Rattle.apex_laws.specs.Premises.{AreOf, IsKnownTo};

use apex_configs::{ProcessConfig, Table};
use apex_machine::{OpenWork, Work};
use apex_services::{Objects, serve};
use apex_store::Store;
use apex_types::{Call, Caller, CallerCall, CoreId, Notices, ProcessId, Reply};

/// The deed of an event that was carried out: its caller and its call, if any, and the reply.
///
/// The notices are handed out beside it.
#[derive(Drop)]
pub struct Deed {
    /// The process or the init list that asked for the call. Nobody at an idle turn and a tick.
    pub caller: Caller,
    /// The call that was carried out. None at an idle turn and a tick.
    pub call: Option<Call>,
    /// The reply to the call, or the result of an idle turn or a tick.
    pub reply: Reply,
}

/// The work that the caller asks for, if it does.
// In a function of its own, so that only a turn that begins work looks at its caller and call.
#[inline(never)]
fn work_asked(caller: &Caller, call: &Option<Call>) -> Option<Work>
    ensures { result ≡ work_begun caller.now call.now Begun }
{
    let Caller::Process(process) = *caller else {
        return None;
    };
    let Some(Call::Work(amount)) = *call else {
        return None;
    };
    Some(Work { process, amount })
}

impl Deed {
    /// The deed of an idle turn.
    #[inline(always)]
    pub(crate) fn idle() -> Deed
        ensures caller { result.caller ≡ Nobody }
        ensures call { result.call ≡ None }
        ensures reply { result.reply ≡ Idle }
    {
        Deed {
            caller: Caller::Nobody,
            call: None,
            reply: Reply::Idle,
        }
    }

    /// The work that the call began.
    #[inline(always)]
    pub(crate) fn begun(&self) -> Option<Work>
        ensures { result ≡ work_begun self.now.caller self.now.call self.now.reply }
    {
        match self.reply {
            Reply::Begun => {
                // Copies, so that the deed itself need not lie in memory.
                let (caller, call) = (self.caller, self.call);
                work_asked(&caller, &call)
            }
            _ => None,
        }
    }
}

/// A call that is to be carried out, and its caller.
#[derive(Drop)]
struct Asked {
    caller: Caller,
    call: Call,
}

/// Carries out the caller's call.
// Inlined, as its callers are, so that no deed is copied on its way to the log.
#[inline(always)]
fn ask<S: Store>(store: &mut S, objects: &mut Objects, asked: Asked, notices: &mut Notices) -> Deed
    requires many { length objects.old.processes ≡ length (S.roster store.old).records }
    requires caller { IsReadyCaller (S.roster store.old) asked.caller }
    requires known { IsKnownTo objects.old asked.call }
    requires starts { HasOrderlyStarts (S.roster store.old) }
    requires can { CanServe (S.roster store.old) notices.old }
    requires releases { HasNoFutureRelease (S.roster store.old) }
    ensures { Does (served (S.roster store.old) objects.old asked.caller asked.call)
        result.caller result.call result.reply
        (S.roster store.new) objects.new notices.old notices.new }
{
    let Asked { caller, call } = asked;
    let reply = serve(store, objects, &caller, &call, notices);
    Deed {
        caller,
        call: Some(call),
        reply,
    }
}

/// The place after this one; after its last step a looping script goes to the first one, any other
/// to its end.
fn next_place(process: &ProcessConfig, step: u8) -> u8
    requires { length process.now.script ≤ MOST_STEPS }
    ensures { result ≡ next_place process.now step }
{
    if usize::from(step) + 1 < process.step_count() {
        step + 1
    } else if process.loops() {
        0
    } else {
        process.step_count() as u8
    }
}

/// The process goes on to its next step.
fn move_on<S: Store>(table: &Table, store: &mut S, process: ProcessId)
    requires records { length (S.roster store.old).records ≡ length table.now.processes }
    requires known { process < length (S.roster store.old).records }
    ensures { S.roster store.new ≡ move_on table.now (S.roster store.old) process }
{
    table.lawful();
    let step = store.record(process).step;
    store.set_step(process, next_place(table.process(process), step));
}

fn is_work(call: &Call) -> bool
    ensures { result ≡ is_work call.now }
{
    matches!(call, Call::Work(_))
}

/// The call of the process's step, before which the process moves on, except for work, which two
/// turns carry out; the end of its script is STOP_SELF.
#[inline(always)]
fn take_step<S: Store>(table: &Table, store: &mut S, process: ProcessId) -> Call
    requires process { process < length table.now.processes }
    requires ready { IsReady (S.roster store.old) process }
    requires records { length (S.roster store.old).records ≡ length table.now.processes }
    requires starts { HasOrderlyStarts (S.roster store.old) }
    requires releases { HasNoFutureRelease (S.roster store.old) }
    ensures { Asks table.now
        (λ objects. chosen_deed table.now (S.roster store.old) objects (Some process))
        (S.roster store.old) (ByProcess process) result (S.roster store.new) }
{
    table.lawful();
    let step = store.record(process).step;
    let config = table.process(process);
    match config.call(usize::from(step)) {
        Some(call) if is_work(&call) => call,
        Some(call) => {
            store.set_step(process, next_place(config, step));
            call
        }
        None => Call::Caller(CallerCall::StopSelf),
    }
}

/// The init step that is due, else the step of the core's chosen process, else nothing.
#[inline(always)]
fn next_call<S: Store>(
    table: &Table,
    store: &mut S,
    core: CoreId,
    due: Option<Call>,
) -> Option<Asked>
    requires due { ForSome due (IsKnown table.now) }
    requires records { length (S.roster store.old).records ≡ length table.now.processes }
    requires starts { HasOrderlyStarts (S.roster store.old) }
    requires releases { HasNoFutureRelease (S.roster store.old) }
    ensures asked { IfSome result (λ asked. Asks table.now
        (λ objects. step_deed table.now (S.roster store.old) objects core due)
        (S.roster store.old) asked.caller asked.call (S.roster store.new)) }
    ensures due { IfNone result (due ≡ None) }
    ensures idle { IfNone result (chosen (S.roster store.old) core ≡ None) }
    ensures same { IfNone result (S.roster store.new ≡ S.roster store.old) }
{
    if let Some(call) = due {
        return Some(Asked {
            caller: Caller::Init,
            call,
        });
    }
    let process = store.chosen(core)?;
    let call = take_step(table, store, process);
    Some(Asked {
        caller: Caller::Process(process),
        call,
    })
}

/// Ends the work that the core has begun; else carries out the init step that is due, else the step
/// of the core's chosen process. None if the turn is idle.
#[inline(always)]
pub(crate) fn carry_out<S: Store>(
    table: &Table,
    store: &mut S,
    objects: &mut Objects,
    core: CoreId,
    begun: Option<OpenWork>,
    due: Option<Call>,
    notices: &mut Notices,
) -> Option<Deed>
    requires begun { ForSome begun (λ o. o.work.process < length (S.roster store.old).records) }
    requires due { ForSome due (IsKnown table.now) }
    requires records { length (S.roster store.old).records ≡ length table.now.processes }
    requires objects { AreOf table.now objects.old }
    requires starts { HasOrderlyStarts (S.roster store.old) }
    requires can { CanServe (S.roster store.old) notices.old }
    requires releases { HasNoFutureRelease (S.roster store.old) }
    ensures done { IfSome result (λ done. Does
        (turn_deed table.now (S.roster store.old) objects.old core begun due)
        done.caller done.call done.reply
        (S.roster store.new) objects.new notices.old notices.new) }
    ensures idle { IfNone result (Does
        (turn_deed table.now (S.roster store.old) objects.old core begun due)
        Nobody None Idle (S.roster store.new) objects.new notices.old notices.new) }
{
    if let Some(begun) = begun {
        let process = begun.work.process;
        let caller = Caller::Process(process);
        let call = Some(Call::Work(begun.work.amount));
        if begun.unbroken {
            move_on(table, store, process);
            return Some(Deed {
                caller,
                call,
                reply: Reply::Done,
            });
        }
        return Some(Deed {
            caller,
            call,
            reply: Reply::Lost,
        });
    }
    let asked = next_call(table, store, core, due)?;
    Some(ask(store, objects, asked, notices))
}
