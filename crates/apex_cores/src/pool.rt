//! The threads of a run: one for each core, and one for the ticker.
ghost use Rattle.std.specs.Prelude.{IfSome, IsSome, ◌≡◌, ℕ, ◌+◌, ◌≤◌, [], IfErr, IfOk, OnErr, OnOk, length, vec_len};
ghost use Rattle.std.specs.Vec.{vec_capacity};
ghost use Rattle.apex_types.specs.declared.entries.Who.TheVariants.{Core, Ticker as ToTicker};
ghost use Rattle.apex_receipts.specs.Receipts.{unspoken, unspoken_cores};
ghost use Rattle.apex_cores.specs.Starts.{AreAsked, HaveAgreed, IsAskedFor, LacksThread};
ghost use Rattle.apex_cores.specs.declared.faults.RunFault.TheVariants.{NoThread};
ghost use Rattle.apex_cores.specs.Threads.{AreNew, EachFrom, HasWorked, HaveWorked, IsTaskOf};

use crate::cores::{CoreReport, run_worker};
use crate::faults::RunFault;
use crate::gates::Gate;
use crate::plans::RunPlan;
use crate::starts::{Starts, ask};
use crate::ticking::{TickerReport, run_ticker};
use apex_partition::{Naming, Seat, Shared, Ticker};
use apex_types::CoreId;
use std::alloc::Global;
use std::sync::Wait;
use std::thread::{Promise, PromisedHandle, Scope, Threads};
use std::{mem, thread};

/// A worker with a new seat of this core will make `turns` turns, if the history has room.
#[derive(Clone, Copy)]
struct WillRun {
    core: CoreId,
    turns: u32,
}

impl<P: Naming> Promise<CoreReport<P>> for WillRun {
    ghost use Rattle.apex_types.specs.declared.entries.Who.TheVariants.{Core};
    ghost use Rattle.apex_receipts.specs.Receipts.{unspoken};
    ghost use Rattle.apex_cores.specs.Runs.{HasRun};

    ghost kept_by = { λ will report.
        HasRun (unspoken (Core will.core)) will.turns report.seat report.turns report.full };
}

/// A worker with a new ticker will make `ticks` ticks, if the history has room.
#[derive(Clone, Copy)]
struct WillTick {
    ticks: u32,
}

impl<P: Naming> Promise<TickerReport<P>> for WillTick {
    ghost use Rattle.apex_types.specs.declared.entries.Who.TheVariants.{Ticker};
    ghost use Rattle.apex_receipts.specs.Receipts.{unspoken};
    ghost use Rattle.apex_cores.specs.Runs.{HasTicked};

    ghost kept_by = { λ will report.
        HasTicked (unspoken Ticker) will.ticks report.ticker report.ticks report.full };
}

/// What is the same for all workers of a run.
#[derive(Drop)]
pub struct Setting<'s, G, R> {
    /// What starts the threads, and waits for them.
    pub rt: &'s R,
    /// Where the run has its memory.
    pub alloc: Global,
    /// The turns of each core, and the ticks of the ticker.
    pub plan: RunPlan,
    /// The gate, which all cores share.
    pub gate: &'s G,
}

/// Starts the worker of a core, whose seat is new, if `starts` lets it.
fn start_core<'s, E, P: Naming + Send + Sync, S: Starts, G: Gate + Sync, R: Threads + Wait + Sync>(
    run: &Setting<'s, G, R>,
    scope: &'s Scope<'s, E>,
    shared: &'s Shared<P>,
    seat: Seat<P>,
    starts: &mut S,
) -> Result<PromisedHandle<CoreReport<P>, WillRun>, RunFault>
    requires { seat ≡ unspoken seat.who }
    ensures core { IfOk result (λ handle. seat.who ≡ Core handle.promise.core) }
    ensures turns { IfOk result (λ handle. handle.promise.turns ≡ run.now.plan.turns) }
    ensures asked { (k : ℕ) → seat.who ≡ Core k → IsAskedFor S.asks k result starts.old starts.new }
    ensures refused { IfErr result (λ fault. fault ≡ NoThread) }
{
    let core = seat.core();
    ask(starts, u32::from(core.number()))?;
    let (rt, gate, turns) = (run.rt, run.gate, run.plan.turns);
    match scope.spawn_with(WillRun { core, turns }, move || {
        run_worker(rt, shared, seat, turns, gate)
    }) {
        Ok(handle) => Ok(handle),
        Err(_refused) => Err(RunFault::NoThread),
    }
}

/// Starts the worker of the ticker, which is new, if `starts` lets it. Its thread has this number.
fn start_ticker<'s, E, P: Naming + Send + Sync, S: Starts, G, R: Threads + Wait + Sync>(
    run: &Setting<'s, G, R>,
    scope: &'s Scope<'s, E>,
    shared: &'s Shared<P>,
    ticker: Ticker<P>,
    starts: &mut S,
    thread: u32,
) -> Result<PromisedHandle<TickerReport<P>, WillTick>, RunFault>
    requires { ticker ≡ unspoken ToTicker }
    ensures ticks { IfOk result (λ handle. handle.promise.ticks ≡ run.now.plan.ticks) }
    ensures asked { IsAskedFor S.asks thread result starts.old starts.new }
    ensures refused { IfErr result (λ fault. fault ≡ NoThread) }
{
    ask(starts, thread)?;
    let (rt, ticks) = (run.rt, run.plan.ticks);
    match scope.spawn_with(WillTick { ticks }, move || {
        run_ticker(rt, shared, ticker, ticks)
    }) {
        Ok(handle) => Ok(handle),
        Err(_refused) => Err(RunFault::NoThread),
    }
}

/// Starts the worker of each core, one after the other. If a thread is refused, it starts no other.
fn start_cores<'s, E, P: Naming + Send + Sync, S: Starts, G: Gate + Sync, R: Threads + Wait + Sync>(
    run: &Setting<'s, G, R>,
    scope: &'s Scope<'s, E>,
    shared: &'s Shared<P>,
    seats: Vec<Seat<P>>,
    starts: &mut S,
    mut started: Vec<PromisedHandle<CoreReport<P>, WillRun>>,
) -> Result<Vec<PromisedHandle<CoreReport<P>, WillRun>>, RunFault>
    requires seats { seats.items ≡ unspoken_cores (vec_len seats) }
    requires none { started.items ≡ [] }
    requires room { vec_len seats ≤ vec_capacity started }
    ensures started { IfOk result (λ all.
        EachFrom (λ core handle. IsTaskOf run.now.plan.turns core handle.promise) 0 all.items) }
    ensures each { IfOk result (λ all. vec_len all ≡ vec_len seats) }
    ensures agreed { OnOk result (HaveAgreed S.asks 0 (vec_len seats) starts.old starts.new) }
    ensures lacks { OnErr result (LacksThread S.asks (vec_len seats) starts.old starts.new) }
    ensures refused { IfErr result (λ fault. fault ≡ NoThread) }
{
    for seat in seats {
        started.push_reserved(start_core(run, scope, shared, seat, starts)?);
    }
    Ok(started)
}

/// The seats of the workers when all have come to an end.
fn join_cores<P: Naming, R: Threads>(
    rt: &R,
    started: Vec<PromisedHandle<CoreReport<P>, WillRun>>,
    turns: u32,
    mut seats: Vec<Seat<P>>,
) -> Vec<Seat<P>>
    requires started { EachFrom
        (λ core handle. IsTaskOf turns core handle.promise) 0 started.items }
    requires none { seats.items ≡ [] }
    requires room { vec_len started ≤ vec_capacity seats }
    ensures worked { EachFrom (HasWorked turns) 0 result.items }
    ensures each { vec_len result ≡ vec_len started }
{
    for handle in started {
        seats.push_reserved(handle.join(rt).seat);
    }
    seats
}

/// The seats, in the order of their cores, and the ticker, which the workers of a run give back.
#[derive(Drop)]
pub struct Workers<P: Naming> {
    /// The seats, of which each core has one.
    pub seats: Vec<Seat<P>>,
    /// The ticker, which makes the ticks of the run.
    pub ticker: Ticker<P>,
}

/// The threads of all workers.
struct Started<P: Naming> {
    cores: Vec<PromisedHandle<CoreReport<P>, WillRun>>,
    ticker: PromisedHandle<TickerReport<P>, WillTick>,
}

/// Starts the worker of each core, and then that of the ticker.
fn start_workers<
    's,
    E,
    P: Naming + Send + Sync,
    S: Starts,
    G: Gate + Sync,
    R: Threads + Wait + Sync,
>(
    run: &Setting<'s, G, R>,
    scope: &'s Scope<'s, E>,
    shared: &'s Shared<P>,
    workers: Workers<P>,
    starts: &mut S,
    started: Vec<PromisedHandle<CoreReport<P>, WillRun>>,
) -> Result<Started<P>, RunFault>
    requires workers { AreNew (vec_len workers.seats) workers.seats.items workers.ticker }
    requires none { started.items ≡ [] }
    requires room { vec_len workers.seats ≤ vec_capacity started }
    ensures started { IfOk result (λ all. EachFrom
        (λ core handle. IsTaskOf run.now.plan.turns core handle.promise) 0 all.cores.items) }
    ensures each { IfOk result (λ all. vec_len all.cores ≡ vec_len workers.seats) }
    ensures ticks { IfOk result (λ all. all.ticker.promise.ticks ≡ run.now.plan.ticks) }
    ensures agreed { OnOk result
        (HaveAgreed S.asks 0 (vec_len workers.seats + 1) starts.old starts.new) }
    ensures lacks { OnErr result
        (LacksThread S.asks (vec_len workers.seats + 1) starts.old starts.new) }
    ensures refused { IfErr result (λ fault. fault ≡ NoThread) }
{
    let Workers { seats, ticker } = workers;
    let thread = seats.len() as u32;
    let cores = start_cores(run, scope, shared, seats, starts, started)?;
    let ticker = start_ticker(run, scope, shared, ticker, starts, thread)?;
    Ok(Started { cores, ticker })
}

/// Starts all workers in this scope, and joins them. If a thread is refused, the scope joins those
/// that have begun.
fn run_workers<'s, E, P: Naming + Send + Sync, S: Starts, G: Gate + Sync, R: Threads + Wait + Sync>(
    run: &Setting<'s, G, R>,
    scope: &'s Scope<'s, E>,
    shared: &'s Shared<P>,
    workers: Workers<P>,
    starts: &mut S,
) -> Result<Workers<P>, RunFault>
    requires { AreNew (vec_len workers.seats) workers.seats.items workers.ticker }
    ensures done { IfOk result (λ done.
        HaveWorked run.now.plan (vec_len workers.seats) done.seats.items done.ticker) }
    ensures asked { AreAsked S.asks (vec_len workers.seats + 1) result starts.old starts.new }
{
    let room = workers.seats.len();
    let started = Vec::with_capacity(run.alloc, room)?;
    let back = Vec::with_capacity(run.alloc, room)?;
    let Started { cores, ticker } = start_workers(run, scope, shared, workers, starts, started)?;
    let seats = join_cores(run.rt, cores, run.plan.turns, back);
    let ticker = ticker.join(run.rt).ticker;
    Ok(Workers { seats, ticker })
}

/// What is lent to a scope and comes back from it: the value that is asked for the threads, and the
/// place of the workers' result. A result that is moved out beside it would leave `starts` without
/// an end that a contract knows.
#[derive(Drop)]
struct Asked<'a, 'b, P: Naming, S> {
    starts: &'a mut S,
    outcome: &'b mut Option<Result<Workers<P>, RunFault>>,
}

/// Runs all workers in this scope.
fn run_scope<
    's,
    'a,
    'b,
    E,
    P: Naming + Send + Sync,
    S: Starts,
    G: Gate + Sync,
    R: Threads + Wait + Sync,
>(
    run: &Setting<'s, G, R>,
    scope: &'s Scope<'s, E>,
    shared: &'s Shared<P>,
    workers: Workers<P>,
    starts: &'a mut S,
    outcome: &'b mut Option<Result<Workers<P>, RunFault>>,
) -> Asked<'a, 'b, P, S>
    requires { AreNew (vec_len workers.seats) workers.seats.items workers.ticker }
    ensures done { IfSome result.outcome.now (λ ended. IfOk ended (λ done.
        HaveWorked run.now.plan (vec_len workers.seats) done.seats.items done.ticker)) }
    ensures asked { IfSome result.outcome.now (λ ended. AreAsked S.asks
        (vec_len workers.seats + 1) ended starts.entry.now result.starts.now) }
    ensures some { IsSome result.outcome.now }
    ensures same { result.starts.ghost_name ≡ starts.entry.ghost_name }
    ensures same_outcome { result.outcome.ghost_name ≡ outcome.entry.ghost_name }
{
    let ended = run_workers(run, scope, shared, workers, starts);
    *outcome = Some(ended);
    Asked { starts, outcome }
}

/// Runs all workers, each in a thread of its own.
fn run_scoped<
    'x,
    'a,
    'b,
    P: Naming + Send + Sync,
    S: Starts,
    G: Gate + Sync,
    R: Threads + Wait + Sync,
>(
    run: &'x Setting<'x, G, R>,
    shared: &'x Shared<P>,
    workers: Workers<P>,
    starts: &'a mut S,
    outcome: &'b mut Option<Result<Workers<P>, RunFault>>,
) -> Asked<'a, 'b, P, S>
    requires { AreNew (vec_len workers.seats) workers.seats.items workers.ticker }
    ensures done { IfSome result.outcome.now (λ ended. IfOk ended (λ done.
        HaveWorked run.now.plan (vec_len workers.seats) done.seats.items done.ticker)) }
    ensures asked { IfSome result.outcome.now (λ ended. AreAsked S.asks
        (vec_len workers.seats + 1) ended starts.entry.now result.starts.now) }
    ensures some { IsSome result.outcome.now }
    ensures same { result.starts.ghost_name ≡ starts.entry.ghost_name }
    ensures same_outcome { result.outcome.ghost_name ≡ outcome.entry.ghost_name }
{
    thread::scope(
        thread::scope_env(),
        run.rt,
        move |scope|
            requires { AreNew (vec_len workers.seats) workers.seats.items workers.ticker }
        { run_scope(run, scope, shared, workers, starts, outcome) },
    )
}

/// Starts all workers of a partition, each in a thread of its own, and waits until the last one has
/// come to an end. `NoThread` if `starts` or the system refuses a thread, `Memory` if memory was
/// refused; the threads that have begun are joined before.
pub fn run_all<'x, P: Naming + Send + Sync, S: Starts, G: Gate + Sync, R: Threads + Wait + Sync>(
    run: &'x Setting<'x, G, R>,
    shared: &'x Shared<P>,
    workers: Workers<P>,
    starts: &mut S,
) -> Result<Workers<P>, RunFault>
    requires { AreNew (vec_len workers.seats) workers.seats.items workers.ticker }
    ensures done { IfOk result (λ done.
        HaveWorked run.now.plan (vec_len workers.seats) done.seats.items done.ticker) }
    ensures asked { AreAsked S.asks (vec_len workers.seats + 1) result starts.old starts.new }
{
    let mut outcome = None;
    let _asked = run_scoped(run, shared, workers, starts, &mut outcome);
    match outcome {
        Some(ended) => ended,
        None => unreachable!(),
    }
}
