//! What a search says of the schedules of a pace.
ghost use Rattle.std.specs.Prelude.{◌≡◌, ℕ, IfOk, IsOk, Ok};
ghost use Rattle.apex_dispatch.specs.Kernel.{kernel_in};
ghost use Rattle.apex_machine.specs.Machine.{opening};
ghost use Rattle.apex_search.specs.Answers.{IsShortestSchedule};
ghost use Rattle.apex_table.specs.Reading.{table_of};
ghost use Rattle.apex_answers.specs.Answers.{IsAnswerOf};

use apex_configs::Table;
use apex_dispatch::Kernel;
use apex_explore::{Answer, Watch};
use apex_jobs::Jobs;
use apex_process::QueueStore;
use apex_search::TableSystem;
use apex_table::read_table;
use apex_types::Event;
use apex_words::TableFault;
use std::alloc::{AllocError, Global};
use std::marker::Sync;
use std::thread::Threads;

/// What a search says of the schedules of a pace.
#[derive(Drop)]
pub enum SearchAnswer {
    /// The events of a shortest schedule that leads to the fact, and the kernel that has made them.
    Found(Vec<Event>, Kernel<QueueStore>),
    /// No schedule does, and the search reached this many states.
    Never(usize),
    /// No schedule of at most this many events does, and there is no room for more states.
    NoneWithin(usize),
    /// A shortest schedule has more events than this number, for which the history has room.
    Beyond(u32),
}

/// The table of a text that is one of a table. Fails only for want of memory.
fn table_in(alloc: Global, text: &[u8]) -> Result<Table, AllocError>
    requires { IsOk (table_of text.now) }
    ensures { IfOk result (λ table. table_of text.now ≡ Ok table) }
{
    match read_table(alloc, text) {
        Ok(table) => Ok(table),
        Err(TableFault::Memory) => Err(AllocError),
        Err(_) => unreachable!(),
    }
}

/// The kernel of the table of this text before any event. Fails only for want of memory.
pub(crate) fn kernel_of(alloc: Global, text: &[u8]) -> Result<Kernel<QueueStore>, AllocError>
    requires { IsOk (table_of text.now) }
    ensures table { IfOk result (λ kernel. table_of text.now ≡ Ok kernel.table) }
    ensures opened { IfOk result (λ kernel. kernel
        ≡ kernel_in kernel.table (opening kernel.table) kernel.store) }
{
    let table = table_in(alloc, text)?;
    let store = QueueStore::new(alloc, &table)?;
    Kernel::boot(alloc, table, store)
}

/// The answer for a shortest path. Fails only for want of memory.
fn answer_for(
    alloc: Global,
    system: &TableSystem,
    path: &[u32],
    text: &[u8],
) -> Result<SearchAnswer, AllocError>
    requires table { table_of text.now ≡ Ok system.now.table }
    requires path { IsShortestSchedule system.now path.now }
    ensures { (room : ℕ) → IfOk result (IsAnswerOf system.now room) }
{
    system.table().lawful();
    let events = system.schedule(alloc, path)?;
    let mut kernel = kernel_of(alloc, text)?;
    match kernel.run(events.as_slice()) {
        Ok(()) => Ok(SearchAnswer::Found(events, kernel)),
        Err(full) => Ok(SearchAnswer::Beyond(full.entries)),
    }
}

/// What a search of the system with room for this many states says. The text is that of the
/// system's table. Fails only for want of memory.
///
/// The room is taken before the first event. The jobs share the search.
pub fn answer_of<R: Threads + Sync, V: Watch>(
    alloc: Global,
    system: &TableSystem,
    room: u32,
    text: &[u8],
    jobs: &Jobs<'_, R>,
    watch: &mut V,
) -> Result<SearchAnswer, AllocError>
    requires table { table_of text.now ≡ Ok system.now.table }
    ensures { IfOk result (IsAnswerOf system.now room) }
{
    match system.search(alloc, room, jobs, watch)? {
        Answer::Found(path) => answer_for(alloc, system, path.as_slice(), text),
        Answer::Closed { states } => Ok(SearchAnswer::Never(states)),
        Answer::Full { depth } => Ok(SearchAnswer::NoneWithin(depth)),
    }
}
