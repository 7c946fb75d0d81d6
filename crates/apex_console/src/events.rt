//! The events that the items of a schedule ask for, made one after the other.
ghost use Rattle.std.specs.Prelude.{◌≡◌, ◌↔◌, ◌<◌, ℕ, true, length, replicate, IfErr, IsOk};
ghost use Rattle.apex_machine.specs.Events.{IsWithin};
ghost use Rattle.apex_schedules.specs.Schedule.{are_cores_below, events_of_item, events_of_items, is_core_below};
ghost use Rattle.apex_console.specs.Schedule.{HasRoomFor, after_events};

use apex_dispatch::Kernel;
use apex_schedules::Item;
use apex_store::Store;
use apex_types::{Event, Full};

/// The event of an item, and the number of times that it comes.
#[tactic(auto, unfolding(apex_schedules::specs::Schedule::is_core_below))]
pub fn repeated(item: &Item) -> (Event, u32)
    ensures events { events_of_item item.now ≡ replicate result.1 result.0 }
    ensures within { (cores : ℕ) → is_core_below cores item.now ≡ true → IsWithin cores result.0 }
{
    match *item {
        Item::Turns { core, times } => (Event::Turn(core), times),
        Item::Tick(ticks) => (Event::Tick(ticks.count()), 1),
    }
}

/// Runs the event `times` times, up to the first for which the history has no room.
fn run_repeated<S: Store>(kernel: &mut Kernel<S>, event: &Event, times: u32) -> Result<(), Full>
    requires { IsWithin kernel.old.table.cores event.now }
    ensures done { kernel.new
        ≡ after_events kernel.old (replicate times event.now) kernel.new.store }
    ensures accepted { IsOk result ↔ HasRoomFor times kernel.old }
    ensures full { IfErr result (λ e. e.entries ≡ kernel.old.table.limit) }
{
    kernel.holds();
    for round in 0..times {
        kernel.accept(*event)?;
    }
    Ok(())
}

/// Runs the events of the items, up to the first for which the history has no room. Takes no
/// memory: there is no list of them.
pub fn run_items<S: Store>(kernel: &mut Kernel<S>, items: &[Item]) -> Result<(), Full>
    requires { are_cores_below kernel.old.table.cores items.now ≡ true }
    ensures done { kernel.new
        ≡ after_events kernel.old (events_of_items items.now) kernel.new.store }
    ensures accepted { IsOk result ↔ HasRoomFor (length (events_of_items items.now)) kernel.old }
    ensures full { IfErr result (λ e. e.entries ≡ kernel.old.table.limit) }
{
    kernel.holds();
    for item in items {
        let (event, times) = repeated(item);
        run_repeated(kernel, &event, times)?;
    }
    Ok(())
}
