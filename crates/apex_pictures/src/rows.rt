//! The rows of a picture: the processes that have one, and the places of the rows and of the cores'
//! headings.
ghost use Rattle.std.specs.Prelude.{◌≡◌, ◌+◌, ◌≤◌, Option, length, option_map};
ghost use Rattle.arrayvec.specs.ArrayVec.{array_vec_len};
ghost use Rattle.apex_types.specs.declared.limits.TheConstants.{MOST_CORES, MOST_PROCESSES};
ghost use Rattle.apex_pictures.specs.Rows.{HasRows, bound_core, core_by, core_of, cores_of, headings_at, heading_at, is_chosen, many_chosen, row_at, rows_at, rows_before, rows_chosen, rows_of_core, selection_of};

use apex_configs::Table;
use apex_types::{
    Call, MOST_CORE_PLACES, MOST_INIT_STEPS, MOST_PROCESSES, ObjectCall, ProcessId, ProcessService,
};
use arrayvec::ArrayVec;

/// The distance from one row to the next, in pixels.
pub(crate) const ROW: u32 = 24;

/// The core of a process without a row. It is the number of no core.
const NO_CORE: u8 = u8::MAX;

/// The number of processes that have a row, of which some have none.
#[derive(Clone, Copy)]
pub struct Selection {
    /// The number of processes that have a row.
    pub shown: usize,
    /// The number of processes.
    pub all: usize,
}

/// The rows of a picture.
#[derive(Drop)]
pub struct Rows {
    /// The height at which the calls end and the rows begin.
    pub(crate) top: u32,
    /// Whether each process has a row.
    pub(crate) chosen: ArrayVec<bool, MOST_PROCESSES>,
    /// The place of each process's row.
    pub(crate) places: ArrayVec<u32, MOST_PROCESSES>,
    /// The place of each core's heading.
    pub(crate) headings: ArrayVec<u32, MOST_CORE_PLACES>,
}

/// Whether a process has a row: it is one of these, or none are named.
fn is_chosen(only: Option<&[ProcessId]>, process: ProcessId) -> bool
    ensures { result ≡ is_chosen (option_map (λ list. list.now) only.entry) process }
{
    match only {
        Some(only) => only.contains(&process),
        None => true,
    }
}

/// Whether each process of a table has a row.
fn rows_chosen(table: &Table, only: Option<&[ProcessId]>) -> ArrayVec<bool, MOST_PROCESSES>
    ensures { result.items ≡ rows_chosen table.now (option_map (λ list. list.now) only.entry) }
{
    let mut rows = ArrayVec::new();
    for place in 0..table.process_count() {
        rows.push(is_chosen(only, ProcessId::at(place as u8)));
    }
    rows
}

/// How many processes have a row. None if all have one.
fn selection_of(rows: &[bool]) -> Option<Selection>
    ensures { result ≡ selection_of rows.now }
{
    let shown = rows.iter().filter(|row| **row).count();
    if shown == rows.len() {
        return None;
    }
    Some(Selection {
        shown,
        all: rows.len(),
    })
}

/// The core to which a call binds this process, if it binds it to a core of the table; or else the
/// other one.
fn core_by(table: &Table, process: ProcessId, call: Option<Call>, other: u8) -> u8
    ensures { result ≡ core_by table.now process call other }
{
    match call {
        Some(
            Call::Process(
                ObjectCall::KindService(bound, ProcessService::InitializeCoreAffinity(core)),
            ),
        ) => {
            if bound == process && core < table.cores() {
                core
            } else {
                other
            }
        }
        _ => other,
    }
}

/// The core to which the init list binds the process: the last one named for it, or core 0.
fn bound_core(table: &Table, process: ProcessId) -> u8
    ensures { result ≡ bound_core table.now process }
{
    let mut core = 0;
    for place in 0..MOST_INIT_STEPS {
        core = core_by(table, process, table.init_call(place), core);
    }
    core
}

/// The core in whose part of a picture a process has its row, and [`NO_CORE`] if it has none.
fn core_of(table: &Table, only: Option<&[ProcessId]>, process: ProcessId) -> u8
    ensures { result ≡ core_of table.now (option_map (λ list. list.now) only.entry) process }
{
    if is_chosen(only, process) {
        bound_core(table, process)
    } else {
        NO_CORE
    }
}

/// The cores of all processes.
fn cores_of(table: &Table, only: Option<&[ProcessId]>) -> ArrayVec<u8, MOST_PROCESSES>
    ensures items { result.items
        ≡ cores_of table.now (option_map (λ list. list.now) only.entry) }
    ensures few { array_vec_len result ≤ MOST_PROCESSES }
{
    let mut cores = ArrayVec::new();
    for place in 0..table.process_count() {
        cores.push(core_of(table, only, ProcessId::at(place as u8)));
    }
    cores
}

/// The number of rows in the parts of the cores before this one.
fn rows_before(cores: &[u8], core: u8) -> u32
    requires { length cores.now ≤ MOST_PROCESSES }
    ensures value { result ≡ rows_before cores.now core }
    ensures range { result ≤ MOST_PROCESSES }
{
    cores.iter().filter(|other| **other < core).count() as u32
}

/// The number of rows in the part of this core.
fn rows_of_core(cores: &[u8], core: u8) -> u32
    requires { length cores.now ≤ MOST_PROCESSES }
    ensures value { result ≡ rows_of_core cores.now core }
    ensures range { result ≤ MOST_PROCESSES }
{
    cores.iter().filter(|other| **other == core).count() as u32
}

/// The place of the row of the process at this place, by the cores of the processes.
fn row_at(cores: &[u8], top: u32, place: usize) -> u32
    requires few { length cores.now ≤ MOST_PROCESSES }
    requires within { place + 1 ≤ length cores.now }
    requires range { top ≤ 30000 }
    ensures { result ≡ row_at cores.now top place }
{
    let core = cores[place];
    let above = rows_before(cores, core) + rows_of_core(&cores[..place], core);
    top + ROW * (above + u32::from(core) + 1)
}

/// The places of the rows of all processes, by their cores.
fn rows_at(cores: &[u8], top: u32) -> ArrayVec<u32, MOST_PROCESSES>
    requires few { length cores.now ≤ MOST_PROCESSES }
    requires range { top ≤ 30000 }
    ensures { result.items ≡ rows_at cores.now top }
{
    let mut rows = ArrayVec::new();
    for place in 0..cores.len() {
        rows.push(row_at(cores, top, place));
    }
    rows
}

/// The place of the heading of a core, by the cores of the processes.
fn heading_at(cores: &[u8], top: u32, core: u8) -> u32
    requires few { length cores.now ≤ MOST_PROCESSES }
    requires range { top ≤ 30000 }
    ensures { result ≡ heading_at cores.now top core }
{
    top + ROW * (rows_before(cores, core) + u32::from(core))
}

/// The places of the headings of `count` cores, by the cores of the processes.
fn headings_at(cores: &[u8], top: u32, count: u8) -> ArrayVec<u32, MOST_CORE_PLACES>
    requires few { length cores.now ≤ MOST_PROCESSES }
    requires cores { count ≤ MOST_CORES }
    requires range { top ≤ 30000 }
    ensures { result.items ≡ headings_at cores.now top count }
{
    let mut headings = ArrayVec::new();
    for core in 0..count {
        headings.push(heading_at(cores, top, core));
    }
    headings
}

impl Rows {
    /// The rows of these processes of a table, or of all, below `top`.
    pub(crate) fn new(table: &Table, only: Option<&[ProcessId]>, top: u32) -> Rows
        requires { top ≤ 30000 }
        ensures has { HasRows table.now (option_map (λ list. list.now) only.entry) result }
        ensures top { result.top ≡ top }
    {
        let cores = cores_of(table, only);
        Rows {
            top,
            chosen: rows_chosen(table, only),
            places: rows_at(cores.as_slice(), top),
            headings: headings_at(cores.as_slice(), top, table.cores()),
        }
    }

    /// How many processes have a row. None if all have one.
    pub(crate) fn selection(&self) -> Option<Selection>
        ensures { result ≡ selection_of self.now.chosen.items }
    {
        selection_of(self.chosen.as_slice())
    }

    /// The number of rows and headings.
    pub(crate) fn lines(&self) -> u32
        ensures value { result
            ≡ many_chosen self.now.chosen.items + length self.now.headings.items }
        ensures range { result ≤ MOST_PROCESSES + MOST_CORES }
    {
        let rows = self.chosen.iter().filter(|row| **row).count();
        (rows + self.headings.len()) as u32
    }
}
