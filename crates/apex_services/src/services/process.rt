//! The services of process management for a process that is named.

ghost use Rattle.std.specs.Prelude.{◌≡◌, ◌<◌, ◌≤◌, [], ◌++◌, length, false, is_some, not, IfSome};
ghost use Rattle.apex_types.specs.declared.limits.TheConstants.{MOST_NOTICES, MOST_OWNED, MOST_PROCESSES};
ghost use Rattle.apex_machine.specs.services.Callers.{IsReadyCaller, is_by_process};
ghost use Rattle.apex_machine.specs.processes.Dues.{HasTime};
ghost use Rattle.apex_machine.specs.processes.Periods.{is_period_long};
ghost use Rattle.apex_machine.specs.services.ProcessServices as services;
ghost use Rattle.apex_machine.specs.services.Rows.{Leaves};
ghost use Rattle.apex_machine.specs.services.Premises.{CanServe};
ghost use Rattle.apex_machine.specs.processes.Stamps.{HasStamps, HasStampsFor};

use apex_machine::Record;
use apex_store::{Object, Store, halt};
use apex_types::{
    Caller, CoreId, MOST_PRIORITY, Notice, Notices, ProcessId, ProcessKind, ProcessService, Reply,
    ReturnCode, Span, State, Timeout,
};
use std::marker::Model;

/// A process as its services see it, besides its record.
#[derive(Clone, Copy)]
pub struct ProcessObject {
    created: bool,
}

impl Model for ProcessObject {
    ghost use Rattle.apex_machine.specs.services.ProcessServices.{ProcessObject};

    ghost Value = { ProcessObject };

    ghost view = { λ p. record { created = p.created } };

    ghost inverse = { λ p. record { created = p.created } };
}

/// The process is the caller.
fn is_by_process(process: ProcessId, caller: &Caller) -> bool
    ensures { result ≡ is_by_process process caller.now }
{
    match caller {
        Caller::Process(other) => process == *other,
        Caller::Init | Caller::Nobody => false,
    }
}

/// The number of a state (ARINC 653 Part 1).
fn state_number(state: State) -> u32
    ensures { result ≡ services.state_number state }
{
    match state {
        State::Dormant => 0,
        State::Ready => 1,
        State::Running => 2,
        State::Waiting => 3,
    }
}

/// The process, of this record, can't be suspended: it is dormant or periodic.
fn is_unsuspendable(fields: &Record) -> bool
    ensures { result ≡ services.is_unsuspendable fields.now }
{
    !fields.started || fields.attributes.period.is_some()
}

/// There is a period, and the delay, in ticks, is not below it.
fn is_period_long(period: Option<Span>, delay: u32) -> bool
    ensures { result ≡ is_period_long period delay }
{
    match period {
        Some(period) => delay >= period.ticks(),
        None => false,
    }
}

/// The ticks of a delay with which the process, of this record, may start. None for an infinite
/// delay, and for one that is not below the period.
fn fit_delay(fields: &Record, delay: Timeout) -> Option<u32>
    ensures fit { is_some result ≡ not (services.is_unfit_delay fields.now delay) }
    ensures ticks { IfSome result (λ ticks. ticks ≡ services.delay_ticks delay) }
{
    let ticks = match delay {
        Timeout::Poll => 0,
        Timeout::Ticks(ticks) => ticks,
        Timeout::Infinite => return None,
    };
    if is_period_long(fields.attributes.period, ticks) {
        return None;
    }
    Some(ticks)
}

impl ProcessObject {
    /// A process that isn't created yet.
    pub fn new() -> ProcessObject
        ensures { result ≡ record { created = false } }
    {
        ProcessObject { created: false }
    }

    /// INITIALIZE_PROCESS_CORE_AFFINITY: INVALID_MODE in NORMAL, INVALID_PARAM if the process isn't
    /// created, INVALID_CONFIG if the partition has no such core.
    #[tactic(auto, using(apex_machine::proofs::Starts::early_ineligible))]
    fn initialize_core_affinity<S: Store>(&self, store: &mut S, id: ProcessId, core: u8) -> Reply
        requires known { id < length (S.roster store.old).records }
        ensures { Leaves (services.initialize_core_affinity (S.roster store.old) self.now id core)
            (S.roster store.new) self.now result [] [] }
    {
        if store.mode().is_normal() {
            return Reply::Code(ReturnCode::InvalidMode);
        }
        if !self.created {
            return Reply::Code(ReturnCode::InvalidParam);
        }
        if core >= store.cores() {
            return Reply::Code(ReturnCode::InvalidConfig);
        }
        store.set_core(id, CoreId::new(core));
        Reply::Code(ReturnCode::NoError)
    }

    /// SET_PRIORITY: INVALID_PARAM if the process isn't created or the priority is not from 1 to
    /// 239, INVALID_MODE if the process is dormant.
    fn set_priority<S: Store>(&self, store: &mut S, id: ProcessId, priority: u16) -> Reply
        requires known { id < length (S.roster store.old).records }
        requires stamps { HasStamps (S.roster store.old) }
        ensures { Leaves (services.set_priority (S.roster store.old) self.now id priority)
            (S.roster store.new) self.now result [] [] }
    {
        if !self.created || !(1..=MOST_PRIORITY as u16).contains(&priority) {
            return Reply::Code(ReturnCode::InvalidParam);
        }
        if !store.record(id).started {
            return Reply::Code(ReturnCode::InvalidMode);
        }
        store.set_priority(id, priority as u8);
        Reply::Code(ReturnCode::NoError)
    }

    /// DELAYED_START, and START, whose delay is 0: INVALID_PARAM if the process isn't created,
    /// NO_ACTION if it is started, INVALID_PARAM if the delay is infinite or not below the period.
    fn start<S: Store>(
        &self,
        store: &mut S,
        id: ProcessId,
        delay: Timeout,
        notices: &mut Notices,
    ) -> Reply
        requires known { id < length (S.roster store.old).records }
        requires stamps { HasStamps (S.roster store.old) }
        requires time { HasTime (S.roster store.old) }
        requires room { length notices.old < MOST_NOTICES }
        ensures { Leaves (services.start_process (S.roster store.old) self.now id delay)
            (S.roster store.new) self.now result notices.old notices.new }
    {
        if !self.created {
            return Reply::Code(ReturnCode::InvalidParam);
        }
        let fields = store.record(id);
        if fields.started {
            return Reply::Code(ReturnCode::NoAction);
        }
        let Some(ticks) = fit_delay(fields, delay) else {
            return Reply::Code(ReturnCode::InvalidParam);
        };
        if store.mode().is_normal() && ticks == 0 {
            notices.push(Notice::Released(id));
        }
        store.start(id, ticks);
        Reply::Code(ReturnCode::NoError)
    }

    /// STOP of another process, whose mutexes go to their first waiters. INVALID_PARAM if it is the
    /// caller or isn't created, NO_ACTION if it is dormant.
    #[tactic(auto, using(apex_machine::proofs::Handovers::few_halted))]
    fn stop<S: Store>(
        &self,
        store: &mut S,
        id: ProcessId,
        caller: &Caller,
        notices: &mut Notices,
    ) -> Reply
        requires known { id < length (S.roster store.old).records }
        requires stamps { HasStampsFor MOST_OWNED (S.roster store.old) }
        requires room { length notices.old ≤ MOST_PROCESSES }
        ensures { Leaves (services.stop_process (S.roster store.old) self.now id caller.now)
            (S.roster store.new) self.now result notices.old notices.new }
    {
        if is_by_process(id, caller) || !self.created {
            return Reply::Code(ReturnCode::InvalidParam);
        }
        let fields = store.record(id);
        if !fields.started {
            return Reply::Code(ReturnCode::NoAction);
        }
        // Each of its mutexes wakes at most one process.
        let _few = fields.owned.as_slice();
        halt(store, id, notices);
        Reply::Code(ReturnCode::NoError)
    }

    /// SUSPEND of another process: INVALID_PARAM if the process is the caller or isn't created,
    /// INVALID_MODE if it is dormant or periodic, NO_ACTION if it is suspended, INVALID_MODE if it
    /// owns a mutex.
    fn suspend<S: Store>(&self, store: &mut S, id: ProcessId, caller: &Caller) -> Reply
        requires known { id < length (S.roster store.old).records }
        ensures { Leaves (services.suspend_process (S.roster store.old) self.now id caller.now)
            (S.roster store.new) self.now result [] [] }
    {
        if is_by_process(id, caller) || !self.created {
            return Reply::Code(ReturnCode::InvalidParam);
        }
        let fields = store.record(id);
        if is_unsuspendable(fields) {
            return Reply::Code(ReturnCode::InvalidMode);
        }
        if fields.suspended.is_some() {
            return Reply::Code(ReturnCode::NoAction);
        }
        if fields.owns_some() {
            return Reply::Code(ReturnCode::InvalidMode);
        }
        store.suspend(id);
        Reply::Code(ReturnCode::NoError)
    }

    /// RESUME of another process, which is woken if it had suspended itself: INVALID_PARAM if the
    /// process is the caller or isn't created, INVALID_MODE if it is dormant or periodic, NO_ACTION
    /// if it is not suspended.
    fn resume<S: Store>(
        &self,
        store: &mut S,
        id: ProcessId,
        caller: &Caller,
        notices: &mut Notices,
    ) -> Reply
        requires known { id < length (S.roster store.old).records }
        requires stamps { HasStamps (S.roster store.old) }
        requires room { length notices.old < MOST_NOTICES }
        ensures { Leaves (services.resume_process (S.roster store.old) self.now id caller.now)
            (S.roster store.new) self.now result notices.old notices.new }
    {
        if is_by_process(id, caller) || !self.created {
            return Reply::Code(ReturnCode::InvalidParam);
        }
        let fields = store.record(id);
        if is_unsuspendable(fields) {
            return Reply::Code(ReturnCode::InvalidMode);
        }
        if fields.suspended.is_none() {
            return Reply::Code(ReturnCode::NoAction);
        }
        if fields.is_suspended_by_itself() {
            notices.push(Notice::Woken(id, ReturnCode::NoError));
        }
        store.resume(id);
        Reply::Code(ReturnCode::NoError)
    }
}

impl Object for ProcessObject {
    type IdKind = ProcessKind;

    type KindService = ProcessService;

    ghost use Rattle.std.specs.Prelude.{◌<◌, length};
    ghost use Rattle.apex_machine.specs.services.ProcessServices.{process_kind};
    ghost use Rattle.apex_machine.specs.table.Table.{ProcessConfig};

    ghost Config = { ProcessConfig };

    ghost kind = { process_kind };

    ghost IsThere = { λ roster p. p < length roster.records };

    fn is_created(&self) -> bool {
        self.created
    }

    fn make(&mut self) {
        self.created = true;
    }

    fn status<S: Store>(&self, store: &S, id: ProcessId) -> Reply
        requires there { id < length (S.roster store.now).records }
        ensures { result ≡ services.process_status (S.roster store.now) self.now id }
    {
        let state = state_number(store.state(id));
        Reply::Status(state, u32::from(store.record(id).current_priority()))
    }

    fn serve<S: Store>(
        &mut self,
        store: &mut S,
        id: ProcessId,
        caller: &Caller,
        service: &ProcessService,
        notices: &mut Notices,
    ) -> Reply
        requires there { id < length (S.roster store.old).records }
        requires caller { IsReadyCaller (S.roster store.old) caller.now }
        requires can { CanServe (S.roster store.old) notices.old }
        ensures { Leaves (services.process_service
            (S.roster store.old) self.old id caller.now service.now)
            (S.roster store.new) self.new result notices.old notices.new }
    {
        match service {
            ProcessService::InitializeCoreAffinity(core) => {
                self.initialize_core_affinity(store, id, *core)
            }
            ProcessService::SetPriority(priority) => self.set_priority(store, id, *priority),
            ProcessService::Start => self.start(store, id, Timeout::Poll, notices),
            ProcessService::DelayedStart(delay) => self.start(store, id, *delay, notices),
            ProcessService::Stop => self.stop(store, id, caller, notices),
            ProcessService::Suspend => self.suspend(store, id, caller),
            ProcessService::Resume => self.resume(store, id, caller, notices),
        }
    }
}
