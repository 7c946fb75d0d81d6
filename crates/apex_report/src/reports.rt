//! The report of a history.
ghost use Rattle.std.specs.Prelude.{◌≡◌, ◌+◌, ◌<◌, ◌≤◌, [], ◌++◌, length, map, IfOk, OnOk};
ghost use Rattle.std.specs.List.{range_with_len, AllByRecursion};
ghost use Rattle.apex_types.specs.declared.limits.TheConstants.{MOST_ENTRIES, MOST_NOTICES, MOST_OBJECTS, MOST_PROCESSES};
ghost use Rattle.apex_report.specs.Concerned.{IsLevel};
ghost use Rattle.apex_report.specs.Cores.{core_figures, ticks_in, units};
ghost use Rattle.apex_report.specs.Objects.{object_figures, objects_of, queues_of};
ghost use Rattle.apex_report.specs.ObjectSteps.{object_after, IsObjectUpTo};
ghost use Rattle.apex_report.specs.Processes.{process_figures};
ghost use Rattle.apex_report.specs.Report.{report, Grows};
ghost use Rattle.apex_report.specs.Steps.{core_after, process_after, IsCoreUpTo, IsProcessUpTo};

use crate::cores::{CoreFigures, ticks_in, units};
use crate::objects::{Kind, ObjectFigures, ObjectList};
use crate::processes::{ProcessFigures, ProcessList};
use crate::services::{ServiceFigures, note_services, services_before};
use crate::waits::{LatestCalls, Waking, Wakings};
use apex_configs::Table;
use apex_history::Entries;
use apex_types::{CoreId, LentEntry, ProcessId};
use std::alloc::{AllocError, Global};
use std::marker::Model;

/// The figures of each process, each core, each object and each service of a partition over a history (this
/// profile). A report is made beforehand, and notes the entries one by one.
#[derive(Drop)]
pub struct Report {
    entries: u32,
    processes: Vec<ProcessFigures>,
    cores: Vec<CoreFigures>,
    objects: Vec<ObjectFigures>,
    services: Vec<ServiceFigures>,
    latest: LatestCalls,
    wakings: Wakings,
}

impl Model for Report {
    ghost use Rattle.apex_report.specs.Report.{Report};
    ghost use Rattle.apex_report.specs.ReportSteps.{AreCounted};

    ghost Value = { Report };

    ghost view = { λ r. record {
      entries = r.entries;
      processes = r.processes.items;
      cores = r.cores.items;
      objects = r.objects.items;
      services = r.services.items;
      latest = r.latest;
    } };

    ghost invariant = { λ r. AreCounted r.entries r.processes.items r.cores.items
        r.objects.items r.services.items };
}

/// Puts the figures of the first processes before any entry.
fn put_processes(count: usize, list: &mut ProcessList) -> Result<(), AllocError>
    requires few { count ≤ MOST_PROCESSES }
    requires none { list.old ≡ [] }
    ensures { OnOk result (list.new ≡ map (process_figures []) (range_with_len 0 count)) }
{
    for place in 0..count {
        list.push(ProcessFigures::before(ProcessId::at(place as u8)))?;
    }
    Ok(())
}

/// The figures of each process before any entry.
fn processes_before(alloc: Global, table: &Table) -> Result<Vec<ProcessFigures>, AllocError>
    ensures { IfOk result (λ processes. processes.items
        ≡ map (process_figures []) (range_with_len 0 (length table.now.processes))) }
{
    let count = table.process_count();
    let mut list = ProcessList::with_capacity(alloc, count)?;
    put_processes(count, &mut list)?;
    Ok(list.into_vec())
}

/// The figures of each core before any entry.
fn cores_before(alloc: Global, table: &Table) -> Result<Vec<CoreFigures>, AllocError>
    ensures { IfOk result (λ cores. cores.items
        ≡ map (core_figures []) (range_with_len 0 table.now.cores)) }
{
    let count = table.cores();
    let mut cores = Vec::with_capacity(alloc, usize::from(count))?;
    for core in 0..count {
        cores.push(CoreFigures::before(CoreId::new(core)))?;
    }
    Ok(cores)
}

/// Notes what the entry, whose work has these units, says of each process.
fn note_processes(processes: &mut Vec<ProcessFigures>, entry: &LentEntry<'_>, amount: u32)
    requires up_to { AllByRecursion (IsProcessUpTo MOST_ENTRIES) processes.old.items }
    requires amount { amount ≡ units entry.now.call }
    ensures { processes.new.items ≡ map (process_after entry.entry.now) processes.old.items }
{
    for figures in processes.iter_mut() {
        figures.note(entry, amount);
    }
}

/// Notes what the entry, whose work has these units and whose reply these ticks, says of each core.
fn note_cores(cores: &mut Vec<CoreFigures>, entry: &LentEntry<'_>, amount: u32, ticks: u32)
    requires up_to { AllByRecursion (IsCoreUpTo MOST_ENTRIES) cores.old.items }
    requires amount { amount ≡ units entry.now.call }
    requires ticks { ticks ≡ ticks_in entry.now.reply }
    ensures { cores.new.items ≡ map (core_after entry.entry.now) cores.old.items }
{
    for figures in cores.iter_mut() {
        figures.note(entry, amount, ticks);
    }
}

/// Puts the figures of the first objects of a kind before any entry.
fn put_objects(
    table: &Table,
    kind: Kind,
    count: usize,
    objects: &mut ObjectList,
) -> Result<(), AllocError>
    requires { count ≤ MOST_OBJECTS }
    ensures { OnOk result (objects.new
        ≡ objects.old ++ map (object_figures table.now []) (queues_of kind count)) }
{
    for place in 0..count {
        objects.push(ObjectFigures::before(table, kind.queue_at(place as u8)))?;
    }
    Ok(())
}

/// The figures of each object before any entry.
#[tactic(auto, using(crate::proofs::ObjectGrowth::kinds_joined))]
fn objects_before(alloc: Global, table: &Table) -> Result<Vec<ObjectFigures>, AllocError>
    ensures { IfOk result (λ objects. objects.items
        ≡ map (object_figures table.now []) (objects_of table.now)) }
{
    let mut objects = ObjectList::new(alloc);
    put_objects(
        table,
        Kind::Semaphore,
        table.semaphore_count(),
        &mut objects,
    )?;
    put_objects(table, Kind::Buffer, table.buffer_count(), &mut objects)?;
    put_objects(
        table,
        Kind::Blackboard,
        table.blackboard_count(),
        &mut objects,
    )?;
    put_objects(
        table,
        Kind::EventFlag,
        table.event_flag_count(),
        &mut objects,
    )?;
    put_objects(table, Kind::Mutex, table.mutex_count(), &mut objects)?;
    Ok(objects.into_vec())
}

/// Notes what the entry, which wakes these processes, says of each object. The figures of the processes
/// are those after the entry.
fn note_objects(
    objects: &mut Vec<ObjectFigures>,
    entry: &LentEntry<'_>,
    wakings: &[Waking],
    processes: &[ProcessFigures],
)
    requires up_to { AllByRecursion (IsObjectUpTo MOST_ENTRIES) objects.old.items }
    requires few { length wakings.now ≤ MOST_NOTICES }
    requires level { AllByRecursion (IsLevel entry.now processes.now) objects.old.items }
    ensures { objects.new.items
        ≡ map (object_after entry.entry.now wakings.now processes.now) objects.old.items }
{
    for figures in objects.iter_mut() {
        figures.note(entry, wakings, processes);
    }
}

impl Report {
    /// The report of no entry, which takes all its memory at once. It fails only for want of memory.
    pub fn new(alloc: Global, table: &Table) -> Result<Report, AllocError>
        ensures { IfOk result (λ made. made ≡ report table.now []) }
    {
        let processes = processes_before(alloc, table)?;
        let cores = cores_before(alloc, table)?;
        let objects = objects_before(alloc, table)?;
        let services = services_before(alloc)?;
        let latest = LatestCalls::none(alloc)?;
        let wakings = Wakings::none(alloc)?;
        Ok(Report {
            entries: 0,
            processes,
            cores,
            objects,
            services,
            latest,
            wakings,
        })
    }

    /// Notes one entry more: the report of a history becomes that of the history with this entry
    /// behind it. Takes no memory.
    pub fn note(&mut self, entry: &LentEntry<'_>)
        requires { self.old.entries < MOST_ENTRIES }
        ensures report { Grows self.old entry.entry.now self.new }
        ensures entries { self.new.entries ≡ self.old.entries + 1 }
    {
        let amount = units(&entry.call);
        let ticks = ticks_in(&entry.reply);
        self.latest.find(entry, &mut self.wakings);
        note_processes(&mut self.processes, entry, amount);
        note_cores(&mut self.cores, entry, amount, ticks);
        let processes = self.processes.as_slice();
        note_objects(&mut self.objects, entry, self.wakings.as_slice(), processes);
        note_services(&mut self.services, entry);
        self.latest.note(entry);
        self.entries += 1;
    }

    /// The number of entries that were noted.
    pub fn entries(&self) -> u32
        ensures value { result ≡ self.now.entries }
        ensures range { result ≤ MOST_ENTRIES }
    {
        self.entries
    }

    /// The figures of each process, in the order of the table.
    pub fn processes(&self) -> &[ProcessFigures]
        ensures { result.now ≡ self.now.processes }
    {
        self.processes.as_slice()
    }

    /// The figures of each core.
    pub fn cores(&self) -> &[CoreFigures]
        ensures { result.now ≡ self.now.cores }
    {
        self.cores.as_slice()
    }

    /// The figures of each object: the semaphores, buffers, blackboards, event flags and mutexes, each
    /// in the order of the table.
    pub fn objects(&self) -> &[ObjectFigures]
        ensures { result.now ≡ self.now.objects }
    {
        self.objects.as_slice()
    }

    /// The figures of each service, in the order of the catalogue.
    pub fn services(&self) -> &[ServiceFigures]
        ensures { result.now ≡ self.now.services }
    {
        self.services.as_slice()
    }
}

/// The report of a history, computed in one pass. It fails only for want of memory, and takes none
/// once it reads the entries.
pub fn report_of(alloc: Global, table: &Table, entries: Entries<'_>) -> Result<Report, AllocError>
    requires { length entries ≤ MOST_ENTRIES }
    ensures { IfOk result (λ made. made ≡ report table.now entries.entry) }
{
    let mut made = Report::new(alloc, table)?;
    for entry in entries {
        made.note(&entry);
    }
    Ok(made)
}
