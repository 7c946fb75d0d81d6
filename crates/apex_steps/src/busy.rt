//! What the cores of a kernel have to do.
ghost use Rattle.std.specs.Prelude.{◌≡◌, ◌||◌};
ghost use Rattle.apex_machine.specs.Machine.{situation_of};
ghost use Rattle.apex_steps.specs.Texts.{busy_cores, has_something_to_do, running_in};

use apex_dispatch::Kernel;
use apex_store::Store;
use apex_types::{CoreId, MOST_CORE_PLACES, ProcessId};
use arrayvec::ArrayVec;

/// Whether work is open, an init step is due or a process runs.
fn any_of(works: bool, is_due: bool, runs: bool) -> bool
    ensures { result ≡ (works || is_due || runs) }
{
    works || is_due || runs
}

/// Whether the core has something to do.
#[tactic(auto, unfolding(crate::specs::Texts::has_something_to_do))]
fn has_something_to_do<S: Store>(kernel: &Kernel<S>, core: CoreId) -> bool
    ensures { result ≡ has_something_to_do kernel.now.table
        (situation_of kernel.now.table kernel.now.machine) core }
{
    let situation = kernel.situation();
    let works = situation.work(core).is_some();
    let is_due = situation.due_call(kernel.table(), core).is_some();
    let runs = kernel.store().chosen(core).is_some();
    any_of(works, is_due, runs)
}

/// The numbers of the cores that have something to do.
pub(crate) fn busy_cores<S: Store>(kernel: &Kernel<S>) -> ArrayVec<u8, MOST_CORE_PLACES>
    ensures { result.items ≡ busy_cores kernel.now.table kernel.now.machine }
{
    kernel.table().lawful();
    let mut cores = ArrayVec::new();
    for number in 0..kernel.table().cores() {
        if has_something_to_do(kernel, CoreId::new(number)) {
            cores.push(number);
        }
    }
    cores
}

/// The process that each core runs.
pub(crate) fn running_in<S: Store>(
    kernel: &Kernel<S>,
) -> ArrayVec<Option<ProcessId>, MOST_CORE_PLACES>
    ensures { result.items ≡ running_in kernel.now.table kernel.now.machine }
{
    kernel.table().lawful();
    let mut running = ArrayVec::new();
    for number in 0..kernel.table().cores() {
        running.push(kernel.store().chosen(CoreId::new(number)));
    }
    running
}
