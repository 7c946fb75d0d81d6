//! What a search for the greatest response of a process says.
ghost use Rattle.std.specs.Prelude.{◌≡◌, IfOk, Ok};
ghost use Rattle.apex_table.specs.Reading.{table_of};
ghost use Rattle.apex_answers.specs.Worst.{CanRun, HasRun, IsWorstAnswer};

use crate::answers::kernel_of;
use apex_dispatch::Kernel;
use apex_explore::Watch;
use apex_jobs::Jobs;
use apex_process::QueueStore;
use apex_search::{TableSystem, Worst};
use apex_types::{Event, ProcessId};
use std::alloc::{AllocError, Global};
use std::marker::Sync;
use std::thread::Threads;

/// What a search for the greatest response of a process says, and the kernel that has made the
/// events of the schedule that was found, if one was.
#[derive(Drop)]
pub struct WorstAnswer {
    /// What the search says.
    pub worst: Worst,
    /// The kernel after the last event of that schedule. None if no schedule was found.
    pub kernel: Option<Kernel<QueueStore>>,
}

/// The kernel of the table of this text that has made these events. Fails only for want of memory.
fn kernel_after(
    alloc: Global,
    text: &[u8],
    events: &[Event],
) -> Result<Kernel<QueueStore>, AllocError>
    requires { CanRun text.now events.now }
    ensures { IfOk result (HasRun text.now events.now) }
{
    let mut kernel = kernel_of(alloc, text)?;
    match kernel.run(events) {
        Ok(()) => Ok(kernel),
        Err(_) => unreachable!(),
    }
}

/// What a search for the greatest response of the process says, with room for this many states. The
/// text is that of the system's table. Fails only for want of memory.
///
/// The room is taken before the first event. The jobs share the search.
pub fn worst_of<R: Threads + Sync, V: Watch>(
    alloc: Global,
    system: TableSystem,
    process: ProcessId,
    room: u32,
    text: &[u8],
    jobs: &Jobs<'_, R>,
    watch: &mut V,
) -> Result<WorstAnswer, AllocError>
    requires { table_of text.now ≡ Ok system.table }
    ensures { IfOk result (IsWorstAnswer system process room) }
{
    system.table().lawful();
    let worst = system.worst(alloc, process, room, jobs, watch)?;
    match worst.schedule() {
        Some(events) => {
            let kernel = kernel_after(alloc, text, events)?;
            Ok(WorstAnswer {
                worst,
                kernel: Some(kernel),
            })
        }
        None => Ok(WorstAnswer {
            worst,
            kernel: None,
        }),
    }
}
