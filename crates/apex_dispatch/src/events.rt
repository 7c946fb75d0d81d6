//! The events of a history.
ghost use Rattle.std.specs.Prelude.{◌≡◌, IfOk};
ghost use Rattle.apex_machine.specs.Machine.{asked_ticks, event_of, events_of};

use crate::kernels::Kernel;
use apex_store::Store;
use apex_types::{Event, LentEntry, Reply, Who};
use std::alloc::{AllocError, Global};

/// How many ticks a tick asked for.
fn asked_ticks(reply: &Reply) -> u32
    ensures { result ≡ asked_ticks reply.now }
{
    match reply {
        Reply::Advanced(asked, _) => *asked,
        _ => 0,
    }
}

/// The event of an entry.
pub fn event_of(entry: &LentEntry<'_>) -> Event
    ensures { result ≡ event_of entry.entry.now }
{
    match entry.who {
        Who::Core(core) => Event::Turn(core),
        Who::Ticker => Event::Tick(asked_ticks(&entry.reply)),
    }
}

/// The events of a kernel's history. It fails only for want of memory.
pub fn events_in<S: Store>(alloc: Global, kernel: &Kernel<S>) -> Result<Vec<Event>, AllocError>
    ensures { IfOk result (λ events. events.items ≡ events_of kernel.now.machine.history) }
{
    let mut events = Vec::new(alloc);
    for entry in kernel.entries() {
        events.push(event_of(&entry))?;
    }
    Ok(events)
}
