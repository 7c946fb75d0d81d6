//! The processes and the counts after an entry, as pictures show them.
ghost use Rattle.std.specs.Prelude.{◌≡◌, ◌<◌, ◌≤◌, length, not, if◌then◌else◌, slice_index_or, None};
ghost use Rattle.apex_types.specs.declared.limits.TheConstants.{MOST_CORES, MOST_PROCESSES};
ghost use Rattle.apex_machine.specs.processes.Running.{chosen, is_eligible, is_process};
ghost use Rattle.apex_types.specs.declared.modes.State.TheVariants.{Dormant, Ready, Running, Waiting};
ghost use Rattle.apex_dispatch.specs.Situations.{situation_in};
ghost use Rattle.apex_moments.specs.Moments.{cell_of, moment_at, moment_of, no_cell, running_in, same_process};

use crate::counts::{Counts, counts_of};
use apex_configs::Table;
use apex_dispatch::Situation;
use apex_machine::{Holdings, Record, Wait};
use apex_store::Store;
use apex_types::{CoreId, MOST_CORE_PLACES, MOST_CORES, MOST_PROCESSES, Mode, ProcessId, State};
use arrayvec::ArrayVec;
use std::marker::Model;

/// A process after an entry, as a picture shows it.
#[derive(Clone, Copy)]
pub struct Cell {
    /// Its state after the entry.
    pub state: State,
    /// Its wait, if it waits.
    pub wait: Option<Wait>,
    /// The mutexes that it owns.
    pub owned: Holdings,
}

impl Default for Cell {
    fn default() -> Cell
        ensures { result ≡ no_cell }
    {
        Cell {
            state: State::Dormant,
            wait: None,
            owned: Holdings::none(),
        }
    }
}

/// All processes after an entry, as a picture shows them: a cell for each of them, and the process
/// that each core runs. It has the counts of the objects too.
#[derive(Drop)]
pub struct Moment {
    cells: ArrayVec<Cell, MOST_PROCESSES>,
    running: ArrayVec<Option<ProcessId>, MOST_CORE_PLACES>,
    counts: Counts,
}

impl Model for Moment {
    ghost use Rattle.apex_moments.specs.Moments.{Shown};

    ghost Value = { Shown };

    ghost view = { λ m. record {
      cells = m.cells.items;
      running = m.running.items;
      counts = m.counts;
    } };
}

/// The process is this one.
#[inline(always)]
pub fn is_process(process: ProcessId, chosen: Option<ProcessId>) -> bool
    ensures { result ≡ is_process process chosen }
{
    match chosen {
        Some(other) => process == other,
        None => false,
    }
}

/// The state of a process, by its record and the process that each core runs. It looks at the
/// latter only for an eligible process.
#[inline(always)]
pub fn state_of(
    process: ProcessId,
    fields: &Record,
    mode: Mode,
    running: &[Option<ProcessId>],
) -> State
    ensures { result ≡ (if not fields.now.started then Dormant
        else if not (is_eligible mode fields.now) then Waiting
        else if is_process process (slice_index_or running.now fields.now.core None) then Running
        else Ready) }
{
    if !fields.started {
        State::Dormant
    } else if !fields.is_eligible(mode) {
        State::Waiting
    } else if is_process(process, running_at(running, fields.core)) {
        State::Running
    } else {
        State::Ready
    }
}

/// The process that each core runs.
pub fn running_of<S: Store>(store: &S) -> ArrayVec<Option<ProcessId>, MOST_CORE_PLACES>
    ensures { result.items ≡ running_in (S.roster store.now) }
{
    let mut running = ArrayVec::new();
    for core in 0..MOST_CORE_PLACES as u8 {
        running.push(store.chosen(CoreId::new(core)));
    }
    running
}

/// The process that a core runs, out of those of all cores.
pub fn running_at(running: &[Option<ProcessId>], core: CoreId) -> Option<ProcessId>
    ensures value { result ≡ slice_index_or running.now core None }
    ensures range { core < MOST_CORES }
{
    match running.get(usize::from(core.number())) {
        Some(running) => *running,
        None => None,
    }
}

/// Whether two processes are the same, or both are none.
#[inline(always)]
pub fn is_same_process(before: &Option<ProcessId>, after: &Option<ProcessId>) -> bool
    ensures { result ≡ same_process before.now after.now }
{
    match before {
        Some(before) => match after {
            Some(after) => before == after,
            None => false,
        },
        None => after.is_none(),
    }
}

/// The cell of a process, given the process that each core runs.
fn cell_of<S: Store>(store: &S, process: ProcessId, running: &[Option<ProcessId>]) -> Cell
    requires known { process < length (S.roster store.now).records }
    requires running { running.now ≡ running_in (S.roster store.now) }
    ensures { result ≡ cell_of (S.roster store.now) process }
{
    let fields = store.record(process);
    prove!(u32::from(fields.core.number()) < MOST_CORES);
    Cell {
        state: state_of(process, fields, store.mode(), running),
        wait: fields.wait,
        owned: fields.owned,
    }
}

/// The moment of the processes of a store, and of these counts.
fn moment_of<S: Store>(store: &S, counts: Counts) -> Moment
    requires { length (S.roster store.now).records ≤ MOST_PROCESSES }
    ensures { result ≡ moment_of (S.roster store.now) counts }
{
    let running = running_of(store);
    let mut cells = ArrayVec::new();
    for place in 0..store.process_count() {
        cells.push(cell_of(store, ProcessId::at(place as u8), running.as_slice()));
    }
    Moment {
        cells,
        running,
        counts,
    }
}

/// The moment of a situation of this table.
pub fn moment_in<S: Store>(table: &Table, situation: &Situation<S>) -> Moment
    requires { length situation.now.roster.records ≤ MOST_PROCESSES }
    ensures { result ≡ moment_at table.now (situation_in situation.now) }
{
    let store = situation.store();
    moment_of(store, counts_of(table, situation.objects(), store))
}

impl Moment {
    /// The number of processes that are shown.
    pub fn count(&self) -> usize
        ensures { result ≡ length self.now.cells }
    {
        self.cells.len()
    }

    /// The cell of a process; an empty one if there is no such process.
    pub fn cell(&self, process: ProcessId) -> Cell
        ensures { result ≡ slice_index_or self.now.cells process no_cell }
    {
        match self.cells.as_slice().get(process.place()) {
            Some(cell) => *cell,
            None => Cell::default(),
        }
    }

    /// The process that a core runs.
    pub fn running(&self, core: CoreId) -> Option<ProcessId>
        ensures { result ≡ slice_index_or self.now.running core None }
    {
        running_at(self.running.as_slice(), core)
    }

    /// The counts of the objects.
    pub fn counts(&self) -> &Counts
        ensures { result.now ≡ self.now.counts }
    {
        &self.counts
    }
}
