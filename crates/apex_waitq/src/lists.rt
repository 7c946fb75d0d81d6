//! Which list is which wait queue.
ghost use Rattle.std.specs.Prelude.{◌≡◌, ◌+◌, ◌<◌};
ghost use Rattle.apex_links.specs.declared.numbers.TheConstants.{ALL_LISTS, QUEUE_LISTS};
ghost use Rattle.apex_waitq.specs.WaitQueues.{queue_place, wait_list, IsNumbered};

use apex_links::{ID_PLACES, ListId, READY_LISTS};
use apex_machine::Queue;

/// The place of the queue among all, counted from 0. Each kind has its places behind those of the
/// kind before it.
pub(crate) fn queue_place(queue: Queue) -> usize
    ensures value { result ≡ queue_place queue }
    ensures known { result < QUEUE_LISTS }
    ensures numbered { IsNumbered queue }
{
    match queue {
        Queue::Normal => 0,
        Queue::Semaphore(semaphore) => ID_PLACES + semaphore.place(),
        Queue::Buffer(buffer) => 2 * ID_PLACES + buffer.place(),
        Queue::Blackboard(blackboard) => 3 * ID_PLACES + blackboard.place(),
        Queue::EventFlag(event_flag) => 4 * ID_PLACES + event_flag.place(),
        Queue::Mutex(mutex) => 5 * ID_PLACES + mutex.place(),
    }
}

/// The list of the waiters of the queue.
pub fn wait_list(queue: Queue) -> ListId
    ensures value { result ≡ wait_list queue }
    ensures known { result < ALL_LISTS }
    ensures numbered { IsNumbered queue }
{
    ListId::at((READY_LISTS + queue_place(queue)) as u16)
}
