//! The ownerships of a mutex.
ghost use Rattle.std.specs.Prelude.{◌≡◌, ◌≤◌, None};
ghost use Rattle.apex_types.specs.declared.limits.TheConstants.{MOST_ENTRIES};
ghost use Rattle.apex_report.specs.Concerned.{is_owner_stopped};
ghost use Rattle.apex_report.specs.ObjectSteps.{IsOwnerUpTo};
ghost use Rattle.apex_report.specs.Ownerships.{acquires, calling, depth_after, ended_with, gives_up, heir, heir_after, held_ticks, inherits, is_acquire, is_acquired, is_release, is_released, is_stopped, next_owner, owner_after, releases_mutex, taker};

use crate::jobs::{is_accepted, is_by_process, stops};
use crate::queues::names;
use crate::waits::Waking;
use apex_machine::Queue;
use apex_types::{Call, Caller, LentEntry, MutexService, ObjectCall, ProcessId, Reply, ReturnCode};

/// The owner of a mutex (this profile).
#[derive(Clone, Copy)]
pub struct Owner {
    /// The process that owns the mutex.
    pub process: ProcessId,
    /// The time in ticks at which it got the mutex.
    pub since: u64,
    /// The number of times that the process acquired it and has not released it yet.
    pub depth: u32,
}

/// The ownership of a mutex that has ended (this profile).
#[derive(Clone, Copy)]
pub struct Ownership {
    /// The process that owned the mutex.
    pub process: ProcessId,
    /// The time in ticks at which the process got the mutex.
    pub since: u64,
    /// The time of the entry that ended it, in ticks.
    pub ended: u64,
    /// The number of that entry in the history, counted from 1.
    pub number: u32,
}

impl Ownership {
    /// Its length, in ticks.
    pub fn held_ticks(&self) -> u64
        ensures { result ≡ held_ticks self.now }
    {
        self.ended.saturating_sub(self.since)
    }
}

fn is_acquire(call: &Call) -> bool
    ensures { result ≡ is_acquire call.now }
{
    match call {
        Call::Mutex(ObjectCall::KindService(_, MutexService::Acquire(_))) => true,
        _ => false,
    }
}

fn is_release(call: &Call) -> bool
    ensures { result ≡ is_release call.now }
{
    match call {
        Call::Mutex(ObjectCall::KindService(_, MutexService::Release)) => true,
        _ => false,
    }
}

fn acquires(queue: &Queue, call: &Option<Call>) -> bool
    ensures { result ≡ acquires queue.now call.now }
{
    match call {
        Some(call) => names(queue, call) && is_acquire(call),
        None => false,
    }
}

fn releases_mutex(queue: &Queue, call: &Option<Call>) -> bool
    ensures { result ≡ releases_mutex queue.now call.now }
{
    match call {
        Some(call) => names(queue, call) && is_release(call),
        None => false,
    }
}

/// The process is stopped with the entry, by itself or by others.
fn is_stopped(process: ProcessId, entry: &LentEntry<'_>) -> bool
    ensures { result ≡ is_stopped process entry.entry.now }
{
    let is_gone = entry.reply == Reply::Gone;
    is_by_process(process, &entry.process) && is_gone || stops(process, entry)
}

/// There is an owner, and it is stopped with the entry.
pub(crate) fn is_owner_stopped(owner: &Option<Owner>, entry: &LentEntry<'_>) -> bool
    ensures { result ≡ is_owner_stopped owner.now entry.entry.now }
{
    match owner {
        Some(owner) => is_stopped(owner.process, entry),
        None => false,
    }
}

fn calling(caller: &Caller) -> Option<ProcessId>
    ensures { result ≡ calling caller.now }
{
    match caller {
        Caller::Process(process) => Some(*process),
        Caller::Init | Caller::Nobody => None,
    }
}

fn is_acquired(queue: &Queue, entry: &LentEntry<'_>) -> bool
    ensures { result ≡ is_acquired queue.now entry.entry.now }
{
    acquires(queue, &entry.call) && is_accepted(&entry.reply)
}

fn is_released(queue: &Queue, entry: &LentEntry<'_>) -> bool
    ensures { result ≡ is_released queue.now entry.entry.now }
{
    releases_mutex(queue, &entry.call) && is_accepted(&entry.reply)
}

/// The process is woken with the mutex, and is not stopped with the entry.
fn inherits(queue: &Queue, entry: &LentEntry<'_>, waking: &Waking) -> bool
    ensures { result ≡ inherits queue.now entry.entry.now waking.now }
{
    let is_no_error = waking.code == ReturnCode::NoError;
    is_no_error && acquires(queue, &waking.call) && !is_stopped(waking.process, entry)
}

/// The process that acquires the mutex by its own call.
fn taker(queue: &Queue, entry: &LentEntry<'_>) -> Option<ProcessId>
    ensures { result ≡ taker queue.now entry.entry.now }
{
    if is_acquired(queue, entry) {
        return calling(&entry.process);
    }
    None
}

/// The process that is woken with the mutex, by those that were woken before it.
fn heir_after(
    queue: &Queue,
    entry: &LentEntry<'_>,
    before: Option<ProcessId>,
    waking: &Waking,
) -> Option<ProcessId>
    ensures { result ≡ heir_after queue.now entry.entry.now before waking.now }
{
    if inherits(queue, entry, waking) {
        Some(waking.process)
    } else {
        before
    }
}

/// The last process that is woken with the mutex.
fn heir(queue: &Queue, entry: &LentEntry<'_>, wakings: &[Waking]) -> Option<ProcessId>
    ensures { result ≡ heir queue.now entry.entry.now wakings.now }
{
    let mut heir = None;
    for waking in wakings {
        heir = heir_after(queue, entry, heir, waking);
    }
    heir
}

/// The process that gets a free mutex with the entry, which wakes these.
fn next_owner(queue: &Queue, entry: &LentEntry<'_>, wakings: &[Waking]) -> Option<ProcessId>
    ensures { result ≡ next_owner queue.now entry.entry.now wakings.now }
{
    match taker(queue, entry) {
        Some(process) => Some(process),
        None => heir(queue, entry, wakings),
    }
}

/// The owner gives the mutex up with the entry.
fn gives_up(queue: &Queue, entry: &LentEntry<'_>, owner: &Owner) -> bool
    ensures { result ≡ gives_up queue.now entry.entry.now owner.now }
{
    is_released(queue, entry) && owner.depth <= 1 || is_stopped(owner.process, entry)
}

/// The next owner, from the entry on.
fn new_owner(queue: &Queue, entry: &LentEntry<'_>, wakings: &[Waking]) -> Option<Owner>
    ensures { result ≡ owner_after queue.now entry.entry.now wakings.now None }
{
    let process = next_owner(queue, entry, wakings)?;
    Some(Owner {
        process,
        since: entry.now,
        depth: 1,
    })
}

/// The owner after the entry, which wakes these, by the one before.
pub(crate) fn owner_after(
    queue: &Queue,
    entry: &LentEntry<'_>,
    wakings: &[Waking],
    before: &Option<Owner>,
) -> Option<Owner>
    requires { IsOwnerUpTo MOST_ENTRIES before.now }
    ensures { result ≡ owner_after queue.now entry.entry.now wakings.now before.now }
{
    match before {
        Some(owner) if !gives_up(queue, entry, owner) => Some(Owner {
            process: owner.process,
            since: owner.since,
            depth: depth_after(queue, entry, owner.depth),
        }),
        _ => new_owner(queue, entry, wakings),
    }
}

/// The depth of an ownership that goes on, after the entry.
fn depth_after(queue: &Queue, entry: &LentEntry<'_>, depth: u32) -> u32
    requires { depth ≤ MOST_ENTRIES }
    ensures { result ≡ depth_after queue.now entry.entry.now depth }
{
    if is_acquired(queue, entry) {
        depth + 1
    } else if is_released(queue, entry) {
        depth.saturating_sub(1)
    } else {
        depth
    }
}

/// The ownership that ends with the entry, if the owner gives the mutex up.
pub(crate) fn ended_with(
    queue: &Queue,
    entry: &LentEntry<'_>,
    owner: &Option<Owner>,
) -> Option<Ownership>
    ensures { result ≡ ended_with queue.now entry.entry.now owner.now }
{
    match owner {
        Some(owner) if gives_up(queue, entry, owner) => Some(Ownership {
            process: owner.process,
            since: owner.since,
            ended: entry.now,
            number: entry.number,
        }),
        _ => None,
    }
}
