//! Laws of every kernel. Each law is the contract of a function that changes nothing.

ghost use Rattle.std.specs.Prelude.{All};
ghost use Rattle.apex_machine.specs.processes.Dues.{HasNoPastDeadline, HasNoPastDue};
ghost use Rattle.apex_store.specs.Laws.{RunsMostUrgent, FirstWaiterIsFirst};
ghost use Rattle.apex_laws.specs.Delivery.{GivesMessagesInOrder};
ghost use Rattle.apex_laws.specs.Laws.{AreInRange, IsWithinItsMaximum, MutexesAreOwnedInOrder, NobodyWaitsInVain, WasNeverLater};

use crate::kernels::Kernel;
use apex_machine::Queue;
use apex_store::Store;
use apex_types::CoreId;

/// In every kernel each core's running process is the highest-priority, longest-ready one bound to
/// it (ARINC 653 Part 1, process management; here core by core).
pub fn most_urgent_runs<S: Store>(kernel: &Kernel<S>, core: CoreId)
    ensures { RunsMostUrgent kernel.now.machine.roster core }
{
    kernel.holds();
    apex_store::most_urgent_runs(kernel.store(), core);
}

/// In every kernel the first waiter of a queue is before every other one there, by the queue's
/// discipline.
pub fn first_waiter_is_first<S: Store>(kernel: &Kernel<S>, queue: Queue)
    ensures { FirstWaiterIsFirst kernel.now.machine.roster queue }
{
    kernel.holds();
    apex_store::first_waiter_is_first(kernel.store(), queue);
}

/// In every kernel each semaphore's value is from 0 to its maximum, time was never later than it is
/// now, and no due and no deadline is below now.
pub fn values_and_dues_are_in_range<S: Store>(kernel: &Kernel<S>)
    ensures values { AreInRange kernel.now.table kernel.now.machine.history }
    ensures running { All IsWithinItsMaximum kernel.now.objects.semaphores }
    ensures forward { WasNeverLater kernel.now.table kernel.now.machine }
    ensures dues { HasNoPastDue kernel.now.machine.roster }
    ensures deadlines { HasNoPastDeadline kernel.now.machine.roster }
{
    kernel.holds();
}

/// In every kernel a receive that the next turn of a core answers with a message gives the next one
/// of its buffer: the first receive gives the first message that was sent, the second the second, and
/// so on. A process that waits to receive is woken with NO_ERROR at the next event only by a send to
/// its buffer; it gets the message of that send, and each message sent before had been received. A
/// send wakes no other process with NO_ERROR (ARINC 653 Part 1, buffers).
pub fn messages_come_in_order<S: Store>(kernel: &Kernel<S>)
    ensures { GivesMessagesInOrder kernel.now.table kernel.now.machine }
{
    kernel.holds();
}

/// In every kernel no more receives from a buffer are satisfied than messages were sent to it, no
/// buffer holds more than it has room for, and no process waits for an object that has what it waits
/// for.
pub fn nobody_waits_in_vain<S: Store>(kernel: &Kernel<S>)
    ensures { NobodyWaitsInVain kernel.now.table kernel.now.machine }
{
    kernel.holds();
}

/// In every kernel each mutex has one owner at the most, which owns it once, at the table's ceiling
/// and at a depth of 1 to 32, and whose current priority is at least that ceiling; and no process
/// waits for a free one.
pub fn mutexes_are_owned_in_order<S: Store>(kernel: &Kernel<S>)
    ensures { MutexesAreOwnedInOrder kernel.now.table kernel.now.machine }
{
    kernel.holds();
}
