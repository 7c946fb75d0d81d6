//! The latest call of each process, its wait in the queue of an object, and the processes that an
//! entry wakes.
ghost use Rattle.std.specs.Prelude.{◌≡◌, ◌<◌, ◌≤◌, [], ◌∷◌, ◌++◌, None, length, option_to_list, slice_index_or, IfOk};
ghost use Rattle.apex_types.specs.declared.limits.TheConstants.{MOST_NOTICES};
ghost use Rattle.apex_report.specs.Latest.{latest_calls, latest_set, Finds, FindsOne};
ghost use Rattle.apex_report.specs.declared.waits.TheConstants.{ID_PLACES};
ghost use Rattle.apex_report.specs.Waits.{is_woken, is_woken_by, queue_after, queue_joined};

use crate::jobs::{is_by_process, stops};
use crate::queues::queue_named;
use apex_machine::Queue;
use apex_types::{
    BlackboardCall, BlackboardService, BufferCall, BufferService, Call, Caller, CallerCall,
    EventFlagCall, EventFlagService, LentEntry, MOST_NOTICES, Message, MutexCall, MutexService,
    Named, Notice, Origin, PartitionCall, ProcessCall, ProcessId, ProcessService, Reply,
    RequestedMode, ReturnCode, SemaphoreCall, SemaphoreService, Span, TimeCall, Timeout,
};
use std::alloc::{AllocError, Global};
use std::marker::Model;

/// The places that the id of a process can have.
pub(crate) const ID_PLACES: usize = 256;

// The types of a call's parts. The prover finds them only if a function that makes a list of calls
// names them.
type CallParts = (
    (PartitionCall, RequestedMode, ProcessCall, ProcessService),
    (CallerCall, TimeCall, Timeout, Span, Origin, Message),
    (SemaphoreCall, SemaphoreService, BufferCall, BufferService),
    (BlackboardCall, BlackboardService, EventFlagCall),
    (EventFlagService, MutexCall, MutexService, Named<ProcessId>),
    (Option<Call>, ReturnCode),
);

/// A process that an entry wakes.
#[derive(Clone, Copy)]
pub struct Waking {
    /// The process that is woken.
    pub process: ProcessId,
    /// The code with which its wait, or its suspension of itself, ended.
    pub code: ReturnCode,
    /// The latest call of the process, which made it wait.
    pub call: Option<Call>,
}

impl Default for Waking {
    fn default() -> Waking {
        Waking {
            process: ProcessId::at(0),
            code: ReturnCode::NoError,
            call: None,
        }
    }
}

/// The processes that an entry wakes, in order. It takes all its memory when it is made.
#[derive(Drop)]
pub(crate) struct Wakings {
    places: Vec<Waking>,
    count: usize,
}

impl Model for Wakings {
    ghost use Rattle.std.specs.Prelude.{◌≡◌, ◌≤◌, List, length, take};
    ghost use Rattle.apex_types.specs.declared.limits.TheConstants.{MOST_NOTICES};
    ghost use Rattle.apex_report.specs.declared.waits.Waking.{Waking};

    ghost Value = { List Waking };

    ghost view = { λ w. take w.count w.places.items };

    ghost invariant = { λ w. (length w.places.items ≡ MOST_NOTICES) × (w.count ≤ MOST_NOTICES) };
}

impl Wakings {
    /// No process is woken.
    pub(crate) fn none(alloc: Global) -> Result<Wakings, AllocError>
        ensures { IfOk result (λ made. made ≡ []) }
    {
        let _parts: Option<CallParts> = None;
        Ok(Wakings {
            places: vec![in alloc; Waking::default(); MOST_NOTICES]?,
            count: 0,
        })
    }

    fn clear(&mut self)
        ensures { self.new ≡ [] }
    {
        self.count = 0;
    }

    /// Puts the process last, if there is one.
    #[tactic(auto, using(std::proofs::lemmas::List::take_more_set))]
    fn push(&mut self, waking: Option<Waking>)
        requires { length self.old < MOST_NOTICES }
        ensures { self.new ≡ self.old ++ option_to_list waking }
    {
        if let Some(waking) = waking {
            self.places[self.count] = waking;
            self.count += 1;
        }
    }

    pub(crate) fn as_slice(&self) -> &[Waking]
        ensures value { result.now ≡ self.now }
        ensures few { length result.now ≤ MOST_NOTICES }
    {
        &self.places[..self.count]
    }
}

/// The latest call of each process.
#[derive(Drop)]
pub(crate) struct LatestCalls {
    calls: Vec<Option<Call>>,
}

impl Model for LatestCalls {
    ghost use Rattle.std.specs.Prelude.{◌≡◌, List, Option, length};
    ghost use Rattle.apex_types.specs.declared.calls.Call.{Call};
    ghost use Rattle.apex_report.specs.declared.waits.TheConstants.{ID_PLACES};

    ghost Value = { List (Option Call) };

    ghost view = { λ l. l.calls.items };

    ghost invariant = { λ l. length l.calls.items ≡ ID_PLACES };
}

impl LatestCalls {
    /// No process has called.
    pub(crate) fn none(alloc: Global) -> Result<LatestCalls, AllocError>
        ensures { IfOk result (λ made. made ≡ latest_calls []) }
    {
        let _parts: Option<CallParts> = None;
        let mut calls = Vec::with_capacity(alloc, ID_PLACES)?;
        for place in 0..ID_PLACES {
            calls.push(None)?;
        }
        Ok(LatestCalls { calls })
    }

    /// Notes the call of the entry.
    pub(crate) fn note(&mut self, entry: &LentEntry<'_>)
        ensures { self.new ≡ latest_set entry.entry.now self.old }
    {
        if let Caller::Process(process) = entry.process {
            self.calls[process.place()] = entry.call;
        }
    }

    /// The latest call of the process.
    fn latest(&self, process: ProcessId) -> Option<Call>
        ensures value { result ≡ slice_index_or self.now process None }
        ensures range { process < ID_PLACES }
    {
        self.calls[process.place()]
    }

    /// The process that the notice wakes, if it wakes one.
    fn waking_by(&self, notice: &Notice) -> Option<Waking>
        ensures { FindsOne self.now notice.now result }
    {
        match notice {
            Notice::Woken(process, code) => Some(Waking {
                process: *process,
                code: *code,
                call: self.latest(*process),
            }),
            Notice::Released(_) | Notice::Missed(_, _) => None,
        }
    }

    /// Finds the processes that the entry wakes.
    pub(crate) fn find(&self, entry: &LentEntry<'_>, wakings: &mut Wakings)
        ensures { Finds self.now entry.entry.now wakings.new }
    {
        wakings.clear();
        for notice in entry.notices {
            wakings.push(self.waking_by(notice));
        }
    }
}

fn is_woken_by(process: ProcessId, notice: &Notice) -> bool
    ensures { result ≡ is_woken_by process notice.now }
{
    match notice {
        Notice::Woken(woken, _) => process == *woken,
        Notice::Released(_) | Notice::Missed(_, _) => false,
    }
}

/// The entry wakes the process.
fn is_woken(process: ProcessId, entry: &LentEntry<'_>) -> bool
    ensures { result ≡ is_woken process entry.entry.now }
{
    entry
        .notices
        .iter()
        .any(|notice| is_woken_by(process, notice))
}

/// The queue that the caller joins if it is blocked.
fn queue_joined(call: &Option<Call>, reply: &Reply) -> Option<Queue>
    ensures { result ≡ queue_joined call.now reply.now }
{
    match (call, reply) {
        (Some(call), Reply::Blocked) => queue_named(call),
        _ => None,
    }
}

/// The queue in which the process waits after the entry, by the one before.
pub(crate) fn queue_after(
    process: ProcessId,
    before: Option<Queue>,
    entry: &LentEntry<'_>,
) -> Option<Queue>
    ensures { result ≡ queue_after process before entry.entry.now }
{
    if is_woken(process, entry) || stops(process, entry) {
        None
    } else if is_by_process(process, &entry.process) {
        queue_joined(&entry.call, &entry.reply)
    } else {
        before
    }
}
