//! The running values of a partition's objects.
ghost use Rattle.std.specs.Prelude.{◌≡◌, [], IfOk, false};
ghost use Rattle.apex_machine.specs.Machine.{objects_after};

use crate::services::ProcessObject;
use apex_buffer::Buffer;
use apex_configs::Table;
use apex_flags::{Blackboard, EventFlag};
use apex_mutex::Mutex;
use apex_semaphore::Semaphore;
use apex_types::{BlackboardId, BufferId, SemaphoreId};
use std::alloc::{AllocError, Global};
use std::marker::Model;

/// The objects, which the services see besides the processes' records: one for each entry of the
/// table, in its order, with its running value, which the history gives too.
#[derive(Drop)]
pub struct Objects {
    pub processes: Vec<ProcessObject>,
    pub semaphores: Vec<Semaphore>,
    pub buffers: Vec<Buffer>,
    pub blackboards: Vec<Blackboard>,
    pub event_flags: Vec<EventFlag>,
    pub mutexes: Vec<Mutex>,
}

impl Model for Objects {
    ghost use Rattle.apex_machine.specs.Deeds.{Objects};

    ghost Value = { Objects };

    ghost view = { λ o. record {
      processes = o.processes.items;
      semaphores = o.semaphores.items;
      buffers = o.buffers.items;
      blackboards = o.blackboards.items;
      event_flags = o.event_flags.items;
      mutexes = o.mutexes.items;
    } };
}

fn processes_before(alloc: Global, table: &Table) -> Result<Vec<ProcessObject>, AllocError>
    ensures { IfOk result (λ v. v.items ≡ (objects_after table.now []).processes) }
{
    let mut processes = Vec::with_capacity(alloc, table.process_count())?;
    for place in 0..table.process_count() {
        processes.push(ProcessObject::new())?;
    }
    Ok(processes)
}

fn semaphores_before(alloc: Global, table: &Table) -> Result<Vec<Semaphore>, AllocError>
    ensures { IfOk result (λ v. v.items ≡ (objects_after table.now []).semaphores) }
{
    let mut semaphores = Vec::with_capacity(alloc, table.semaphore_count())?;
    for place in 0..table.semaphore_count() {
        let entry = table.semaphore(SemaphoreId::at(place as u8));
        semaphores.push(Semaphore::new(entry.maximum(), entry.initial()))?;
    }
    Ok(semaphores)
}

fn buffers_before(alloc: Global, table: &Table) -> Result<Vec<Buffer>, AllocError>
    ensures { IfOk result (λ v. v.items ≡ (objects_after table.now []).buffers) }
{
    table.lawful();
    let mut buffers = Vec::with_capacity(alloc, table.buffer_count())?;
    for place in 0..table.buffer_count() {
        let entry = table.buffer(BufferId::at(place as u8));
        buffers.push(Buffer::new(entry.length(), entry.capacity()))?;
    }
    Ok(buffers)
}

fn blackboards_before(alloc: Global, table: &Table) -> Result<Vec<Blackboard>, AllocError>
    ensures { IfOk result (λ v. v.items ≡ (objects_after table.now []).blackboards) }
{
    let mut blackboards = Vec::with_capacity(alloc, table.blackboard_count())?;
    for place in 0..table.blackboard_count() {
        let entry = table.blackboard(BlackboardId::at(place as u8));
        blackboards.push(Blackboard::new(entry.length()))?;
    }
    Ok(blackboards)
}

fn event_flags_before(alloc: Global, table: &Table) -> Result<Vec<EventFlag>, AllocError>
    ensures { IfOk result (λ v. v.items ≡ (objects_after table.now []).event_flags) }
{
    let mut event_flags = Vec::with_capacity(alloc, table.event_flag_count())?;
    for place in 0..table.event_flag_count() {
        event_flags.push(EventFlag::new())?;
    }
    Ok(event_flags)
}

fn mutexes_before(alloc: Global, table: &Table) -> Result<Vec<Mutex>, AllocError>
    ensures { IfOk result (λ v. v.items ≡ (objects_after table.now []).mutexes) }
{
    let mut mutexes = Vec::with_capacity(alloc, table.mutex_count())?;
    for place in 0..table.mutex_count() {
        mutexes.push(Mutex::new())?;
    }
    Ok(mutexes)
}

impl Objects {
    /// The objects of a partition with an empty history. Fails only for want of memory.
    pub fn new(alloc: Global, table: &Table) -> Result<Objects, AllocError>
        ensures { IfOk result (λ o. o ≡ objects_after table.now []) }
    {
        let processes = processes_before(alloc, table)?;
        let semaphores = semaphores_before(alloc, table)?;
        let buffers = buffers_before(alloc, table)?;
        let blackboards = blackboards_before(alloc, table)?;
        let event_flags = event_flags_before(alloc, table)?;
        let mutexes = mutexes_before(alloc, table)?;
        Ok(Objects {
            processes,
            semaphores,
            buffers,
            blackboards,
            event_flags,
            mutexes,
        })
    }
}
