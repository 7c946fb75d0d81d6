//! The queues of objects, and the calls that name an object.
ghost use Rattle.std.specs.Prelude.{◌≡◌};
ghost use Rattle.apex_machine.specs.processes.Queues.{is_queue, is_same_queue};
ghost use Rattle.apex_machine.specs.services.Calls.{names, queue_named};

use apex_machine::Queue;
use apex_types::Call;

fn is_same_queue(queue: &Queue, other: &Queue) -> bool
    ensures { result ≡ is_same_queue queue.now other.now }
{
    match (queue, other) {
        (Queue::Normal, Queue::Normal) => true,
        (Queue::Semaphore(semaphore), Queue::Semaphore(other)) => *semaphore == *other,
        (Queue::Buffer(buffer), Queue::Buffer(other)) => *buffer == *other,
        (Queue::Blackboard(blackboard), Queue::Blackboard(other)) => *blackboard == *other,
        (Queue::EventFlag(event_flag), Queue::EventFlag(other)) => *event_flag == *other,
        (Queue::Mutex(mutex), Queue::Mutex(other)) => *mutex == *other,
        _ => false,
    }
}

/// There is a queue, and it is this one.
pub(crate) fn is_queue(queue: &Queue, other: &Option<Queue>) -> bool
    ensures { result ≡ is_queue queue.now other.now }
{
    match other {
        Some(other) => is_same_queue(queue, other),
        None => false,
    }
}

/// The queue of the object that the call names. None if the call names none.
pub(crate) fn queue_named(call: &Call) -> Option<Queue>
    ensures { result ≡ queue_named call.now }
{
    match call {
        Call::Semaphore(call) => Some(Queue::Semaphore(call.object()?)),
        Call::Buffer(call) => Some(Queue::Buffer(call.object()?)),
        Call::Blackboard(call) => Some(Queue::Blackboard(call.object()?)),
        Call::EventFlag(call) => Some(Queue::EventFlag(call.object()?)),
        Call::Mutex(call) => Some(Queue::Mutex(call.object()?)),
        _ => None,
    }
}

/// The call names the object of this queue.
pub(crate) fn names(queue: &Queue, call: &Call) -> bool
    ensures { result ≡ names queue.now call.now }
{
    is_queue(queue, &queue_named(call))
}
