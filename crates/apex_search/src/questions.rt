//! What a search looks for in an entry: one of some facts, of a process and of a service.
ghost use Rattle.std.specs.Prelude.{◌≡◌, ◌≤◌, ◌&&◌};
ghost use Rattle.std.specs.List.{list_any};
ghost use Rattle.apex_types.specs.declared.limits.TheConstants.{MOST_CORES};
ghost use Rattle.apex_search.specs.Facts.{has_chosen, has_one, has_some, has_started, is_about, is_about_caller, is_age, is_answer, is_blocked, is_caller_aged, is_gone, is_hard_miss, is_lost, is_miss, is_of_any_or, is_of_service, is_periodic_wait, is_released_for, is_started, is_timeout, shown, some_passes, stands_still};

use apex_calls::{Service, parts_of, row_of};
use apex_dispatch::Deed;
use apex_machine::{Record, Wait};
use apex_questions::{Fact, Facts};
use apex_store::Store;
use apex_types::{
    Call, Caller, CoreId, DeadlineType, Notice, Notices, ProcessId, Reply, ReturnCode, Span,
    TimeCall,
};

/// Some facts, of this process or of any, and of the calls of this service or of any.
///
/// A process narrows each fact: the one that missed its deadline, whose wait timed out, that called,
/// or that is started at a standstill. A service narrows the facts of a reply: work that was lost, an
/// end, a refusal, and a response. It doesn't narrow those of a notice, since the call of a process
/// that waits is that of an earlier entry, and it doesn't narrow a standstill, which is no call's.
#[derive(Drop)]
pub struct Question {
    /// The facts, of which one is enough.
    pub facts: Facts,
    /// The process that is meant. None if any is.
    pub process: Option<ProcessId>,
    /// The service that is meant. None if any is.
    pub service: Option<Service>,
}

/// The reply is that the work is lost.
fn is_lost(reply: Reply) -> bool
    ensures { result ≡ is_lost reply }
{
    reply == Reply::Lost
}

/// The reply is GONE.
fn is_gone(reply: Reply) -> bool
    ensures { result ≡ is_gone reply }
{
    reply == Reply::Gone
}

/// The reply is this code.
fn is_answer(code: ReturnCode, reply: Reply) -> bool
    ensures { result ≡ is_answer code reply }
{
    match reply {
        Reply::Code(answer) => answer == code,
        _ => false,
    }
}

/// The call, if there is one, is of this service.
fn is_of_service(service: Service, call: &Option<Call>) -> bool
    ensures { result ≡ is_of_service service call.now }
{
    match call {
        Some(call) => row_of(parts_of(call).0).word == row_of(service).word,
        None => false,
    }
}

/// The call is PERIODIC_WAIT, and its caller is blocked.
fn is_job_end(deed: &Deed) -> bool
    ensures { result ≡ (is_periodic_wait deed.now.call && is_blocked deed.now.reply) }
{
    matches!(&deed.call, Some(Call::Time(TimeCall::PeriodicWait))) && deed.reply == Reply::Blocked
}

/// The age is this many ticks or more, or more than the period.
fn is_age(ticks: u64, period: Option<Span>, age: u64) -> bool
    ensures { result ≡ is_age ticks period age }
{
    match period {
        Some(period) => ticks.min(u64::from(period.ticks()) + 1) <= age,
        None => false,
    }
}

/// The process has been released, and its last release is this many ticks ago or more, or more than
/// a period ago.
fn is_released_for(ticks: u64, now: u64, fields: &Record) -> bool
    ensures { result ≡ is_released_for ticks now fields.now }
{
    if !fields.started || matches!(&fields.wait, Some(Wait::Normal(_)) | Some(Wait::Start)) {
        return false;
    }
    is_age(
        ticks,
        fields.attributes.period,
        now.saturating_sub(fields.release),
    )
}

/// The caller's last release is so.
fn is_caller_aged<S: Store>(ticks: u64, store: &S, caller: &Caller) -> bool
    ensures { result ≡ is_caller_aged ticks (S.roster store.now) caller.now }
{
    match caller {
        Caller::Process(process) if process.place() < store.process_count() => {
            is_released_for(ticks, store.now(), store.record(*process))
        }
        _ => false,
    }
}

/// The process is started.
fn is_started<S: Store>(store: &S, process: ProcessId) -> bool
    ensures { result ≡ is_started (S.roster store.now) process }
{
    process.place() < store.process_count() && store.record(process).started
}

/// One of the first `n` processes is started.
fn starts_some<S: Store>(store: &S, n: u8) -> bool
    ensures { result ≡ some_passes (is_started (S.roster store.now)) n }
{
    n > 0 && (is_started(store, ProcessId::at(n - 1)) || starts_some(store, n - 1))
}

/// The process that is asked for is started, or else any.
fn has_started<S: Store>(asked: Option<ProcessId>, store: &S) -> bool
    ensures { result ≡ has_started asked (S.roster store.now) }
{
    match asked {
        Some(process) => is_started(store, process),
        None => starts_some(store, store.process_count() as u8),
    }
}

/// One of the first `n` cores has a process to run.
fn runs_some<S: Store>(store: &S, n: u8) -> bool
    requires { n ≤ MOST_CORES }
    ensures { result ≡ some_passes (has_chosen (S.roster store.now)) n }
{
    n > 0 && (store.chosen(CoreId::new(n - 1)).is_some() || runs_some(store, n - 1))
}

/// In NORMAL the process is started, but no core has a process to run, and no instant is awaited.
fn stands_still<S: Store>(asked: Option<ProcessId>, store: &S) -> bool
    ensures { result ≡ stands_still asked (S.roster store.now) }
{
    store.mode().is_normal()
        && store.next_instant().is_none()
        && !runs_some(store, store.cores())
        && has_started(asked, store)
}

impl Question {
    /// The question is about this process.
    fn is_about(&self, process: ProcessId) -> bool
        ensures { result ≡ is_about self.now process }
    {
        match self.process {
            Some(asked) => asked == process,
            None => true,
        }
    }

    /// The question is about this caller: any, if it names no process.
    fn is_about_caller(&self, caller: &Caller) -> bool
        ensures { result ≡ is_about_caller self.now caller.now }
    {
        match caller {
            Caller::Process(process) => self.is_about(*process),
            Caller::Init | Caller::Nobody => self.process.is_none(),
        }
    }

    /// The call is of the service that is asked for, if one is.
    fn is_of_service(&self, call: &Option<Call>) -> bool
        ensures { result ≡ is_of_any_or self.now.service call.now }
    {
        match self.service {
            Some(service) => is_of_service(service, call),
            None => true,
        }
    }

    /// The process missed its deadline.
    fn is_miss(&self, notice: &Notice) -> bool
        ensures { result ≡ is_miss self.now notice.now }
    {
        match *notice {
            Notice::Missed(process, _) => self.is_about(process),
            _ => false,
        }
    }

    /// The process missed its hard deadline.
    fn is_hard_miss(&self, notice: &Notice) -> bool
        ensures { result ≡ is_hard_miss self.now notice.now }
    {
        match *notice {
            Notice::Missed(process, kind) => kind == DeadlineType::Hard && self.is_about(process),
            _ => false,
        }
    }

    /// The wait of the process ended with TIMED_OUT.
    fn is_timeout(&self, notice: &Notice) -> bool
        ensures { result ≡ is_timeout self.now notice.now }
    {
        match *notice {
            Notice::Woken(process, code) => code == ReturnCode::TimedOut && self.is_about(process),
            _ => false,
        }
    }

    /// One of the notices tells that the process missed its deadline.
    fn is_missed(&self, notices: &[Notice]) -> bool
        ensures { result ≡ list_any (is_miss self.now) notices.now }
    {
        notices.iter().any(|notice| self.is_miss(notice))
    }

    /// One of the notices tells that the process missed its hard deadline.
    fn is_hard_missed(&self, notices: &[Notice]) -> bool
        ensures { result ≡ list_any (is_hard_miss self.now) notices.now }
    {
        notices.iter().any(|notice| self.is_hard_miss(notice))
    }

    /// One of the notices tells that the wait of the process ended with TIMED_OUT.
    fn is_timed_out(&self, notices: &[Notice]) -> bool
        ensures { result ≡ list_any (is_timeout self.now) notices.now }
    {
        notices.iter().any(|notice| self.is_timeout(notice))
    }

    /// The question is about the caller, and about the service of its call.
    fn is_about_call(&self, deed: &Deed) -> bool
        ensures { result
            ≡ (is_about_caller self.now deed.now.caller
            && is_of_any_or self.now.service deed.now.call) }
    {
        self.is_about_caller(&deed.caller) && self.is_of_service(&deed.call)
    }

    /// The entry of the deed has the fact; the store is that of the processes after it.
    fn has<S: Store>(&self, fact: Fact, deed: &Deed, notices: &[Notice], store: &S) -> bool
        ensures { result ≡ has_one self.now
            (shown deed.now.caller deed.now.call deed.now.reply notices.now (S.roster store.now))
            fact }
    {
        match fact {
            Fact::Missed => self.is_missed(notices),
            Fact::HardMissed => self.is_hard_missed(notices),
            Fact::TimedOut => self.is_timed_out(notices),
            Fact::Lost => is_lost(deed.reply) && self.is_about_call(deed),
            Fact::Ended => is_gone(deed.reply) && self.is_about_call(deed),
            Fact::Refused(code) => is_answer(code, deed.reply) && self.is_about_call(deed),
            Fact::Response(ticks) => {
                is_job_end(deed)
                    && is_caller_aged(ticks, store, &deed.caller)
                    && self.is_about_call(deed)
            }
            Fact::Standstill => stands_still(self.process, store),
        }
    }

    /// The entry of the deed has one of the facts; the store is that of the processes after it.
    pub(crate) fn is_in<S: Store>(&self, deed: &Deed, notices: &Notices, store: &S) -> bool
        ensures { result ≡ has_some self.now
            (shown deed.now.caller deed.now.call deed.now.reply notices.now (S.roster store.now)) }
    {
        let notices = notices.as_slice();
        let facts = self.facts.as_slice();
        facts
            .iter()
            .any(|fact| self.has(*fact, deed, notices, store))
    }
}
