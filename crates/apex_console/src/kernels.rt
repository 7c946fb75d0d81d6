//! The kernel of a run by a schedule.
ghost use Rattle.std.specs.Prelude.{◌≡◌, true, IfErr, IfOk, Ok};
ghost use Rattle.apex_machine.specs.Machine.{opening};
ghost use Rattle.apex_dispatch.specs.Kernel.{kernel_in};
ghost use Rattle.apex_table.specs.Reading.{table_of};
ghost use Rattle.apex_console.specs.Reports.{Refuses, answer_of, fault_of_events};
ghost use Rattle.apex_schedules.specs.Schedule.{are_cores_below, events_of_items};
ghost use Rattle.apex_console.specs.Schedule.{after_events};

use crate::events::run_items;
use crate::faults::CliFault;
use apex_configs::Table;
use apex_dispatch::Kernel;
use apex_process::QueueStore;
use apex_schedules::{Item, are_cores_below};
use apex_store::Store;
use apex_table::read_table;
use std::alloc::{AllocError, Global};

/// The table of this text, for items of its cores.
///
/// The errors in the order of the checks: the table's fault, `Usage` if an item is of a core that
/// the table lacks; `Memory` at any point at which memory is refused.
pub fn table_for(alloc: Global, items: &[Item], text: &[u8]) -> Result<Table, CliFault>
    ensures table { IfOk result (λ table. table_of text.now ≡ Ok table) }
    ensures below { IfOk result (λ table. are_cores_below table.cores items.now ≡ true) }
    ensures err { IfErr result (λ fault. Refuses fault (answer_of items.now text.now)) }
{
    let table = read_table(alloc, text)?;
    if are_cores_below(table.cores(), items) {
        Ok(table)
    } else {
        Err(CliFault::Usage)
    }
}

/// The kernel of a table before any event. It fails only for want of memory.
pub fn booted(alloc: Global, table: Table) -> Result<Kernel<QueueStore>, AllocError>
    ensures { IfOk result (λ kernel. kernel ≡ kernel_in table (opening table) kernel.store) }
{
    let store = QueueStore::new(alloc, &table)?;
    Kernel::boot(alloc, table, store)
}

/// The kernel of the table of this text before any event, for items of its cores. Its errors are
/// those of [`table_for`].
pub fn kernel_for(
    alloc: Global,
    items: &[Item],
    text: &[u8],
) -> Result<Kernel<QueueStore>, CliFault>
    ensures table { IfOk result (λ kernel. table_of text.now ≡ Ok kernel.table) }
    ensures below { IfOk result (λ kernel. are_cores_below kernel.table.cores items.now ≡ true) }
    ensures opened { IfOk result (λ kernel. kernel
        ≡ kernel_in kernel.table (opening kernel.table) kernel.store) }
    ensures err { IfErr result (λ fault. Refuses fault (answer_of items.now text.now)) }
{
    let table = table_for(alloc, items, text)?;
    let kernel = booted(alloc, table)?;
    Ok(kernel)
}

/// Makes the events of the items on a kernel before any event. `HistoryFull` if there are more of
/// them than the history has room for.
pub fn ran<S: Store>(kernel: &mut Kernel<S>, items: &[Item]) -> Option<CliFault>
    requires opened { kernel.old
        ≡ kernel_in kernel.old.table (opening kernel.old.table) kernel.old.store }
    requires below { are_cores_below kernel.old.table.cores items.now ≡ true }
    ensures done { kernel.new
        ≡ after_events kernel.old (events_of_items items.now) kernel.new.store }
    ensures fault { result ≡ fault_of_events kernel.old.table (events_of_items items.now) }
{
    match run_items(kernel, items) {
        Ok(()) => None,
        Err(full) => Some(CliFault::HistoryFull(full.entries)),
    }
}
