//! The records of a table's processes before any event.
ghost use Rattle.std.specs.Prelude.{◌≡◌, ◌+◌, ◌<◌, ◌≤◌, [], ◌∷◌, ◌++◌, length, map, vec_capacity, vec_len, IfOk};
ghost use Rattle.apex_types.specs.declared.limits.TheConstants.{MOST_PROCESSES};
ghost use Rattle.apex_types.specs.Places.{map_places};
ghost use Rattle.apex_machine.specs.processes.Roster.{ceilings_of, opening_record};
ghost use Rattle.apex_machine.specs.table.Table.{BufferConfig, MutexConfig, SemaphoreConfig};

use apex_configs::{ProcessConfig, Table};
use apex_machine::{Holdings, Record};
use apex_types::{BufferId, CoreId, Discipline, MutexId, ProcessId, SemaphoreId};
use std::alloc::{AllocError, Global};

/// Adds the record of a process before any event: dormant on core 0, with the stamp of its place.
fn push_opening(records: &mut Vec<Record>, place: usize, process: &ProcessConfig)
    requires few_processes { place < MOST_PROCESSES }
    requires room { vec_len records.old < vec_capacity records.old }
    ensures records { records.new.items ≡ records.old.items ++ opening_record place process.now
        ∷ [] }
    ensures many { vec_len records.new ≡ vec_len records.old + 1 }
    ensures room { vec_capacity records.new ≡ vec_capacity records.old }
{
    let base = process.attributes().priority;
    let fields = Record {
        attributes: process.attributes(),
        core: CoreId::new(0),
        base,
        started: false,
        suspended: None,
        wait: None,
        since: place as i64 + 1,
        due: None,
        deadline: None,
        release: 0,
        owned: Holdings::none(),
        step: 0,
        inbox: None,
    };
    // The push copies the record, and the types of its fields are wanted by name here.
    let _period = &fields.attributes.period;
    let _suspended = &fields.suspended;
    let _wait = &fields.wait;
    if let Some(message) = &fields.inbox {
        let _origin = &message.origin;
    }
    records.push_reserved(fields);
}

/// The records before any event.
pub fn opening_records(alloc: Global, table: &Table) -> Result<Vec<Record>, AllocError>
    ensures records { IfOk result (λ records. records.items
        ≡ map_places opening_record 0 table.now.processes) }
    ensures many { IfOk result (λ records. vec_len records ≡ length table.now.processes) }
    ensures few_processes { IfOk result (λ records. vec_len records ≤ MOST_PROCESSES) }
{
    let count = table.process_count();
    let mut records = Vec::with_capacity(alloc, count)?;
    for place in 0..count {
        let process = table.process(ProcessId::at(place as u8));
        push_opening(&mut records, place, process);
    }
    Ok(records)
}

/// The discipline of each buffer's queue.
pub fn buffer_disciplines(alloc: Global, table: &Table) -> Result<Vec<Discipline>, AllocError>
    ensures { IfOk result (λ disciplines. disciplines.items
        ≡ map (λ (b : BufferConfig). b.discipline) table.now.buffers) }
{
    let count = table.buffer_count();
    let mut disciplines = Vec::with_capacity(alloc, count)?;
    for place in 0..count {
        disciplines.push(table.buffer(BufferId::at(place as u8)).discipline())?;
    }
    Ok(disciplines)
}

/// The discipline of each semaphore's queue.
pub fn semaphore_disciplines(alloc: Global, table: &Table) -> Result<Vec<Discipline>, AllocError>
    ensures { IfOk result (λ disciplines. disciplines.items
        ≡ map (λ (s : SemaphoreConfig). s.discipline) table.now.semaphores) }
{
    let count = table.semaphore_count();
    let mut disciplines = Vec::with_capacity(alloc, count)?;
    for place in 0..count {
        disciplines.push(table.semaphore(SemaphoreId::at(place as u8)).discipline())?;
    }
    Ok(disciplines)
}

/// The discipline of each mutex's queue.
pub fn mutex_disciplines(alloc: Global, table: &Table) -> Result<Vec<Discipline>, AllocError>
    ensures { IfOk result (λ disciplines. disciplines.items
        ≡ map (λ (m : MutexConfig). m.discipline) table.now.mutexes) }
{
    let count = table.mutex_count();
    let mut disciplines = Vec::with_capacity(alloc, count)?;
    for place in 0..count {
        disciplines.push(table.mutex(MutexId::at(place as u8)).discipline())?;
    }
    Ok(disciplines)
}

/// The ceiling of each mutex.
pub fn ceilings(alloc: Global, table: &Table) -> Result<Vec<u8>, AllocError>
    ensures { IfOk result (λ ceilings. ceilings.items ≡ ceilings_of table.now) }
{
    let count = table.mutex_count();
    let mut ceilings = Vec::with_capacity(alloc, count)?;
    for place in 0..count {
        ceilings.push(table.mutex(MutexId::at(place as u8)).ceiling())?;
    }
    Ok(ceilings)
}
