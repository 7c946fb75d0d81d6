//! How many lists the link set of a partition has, and in which order: first the ready lists, one
//! for each core and priority, and behind them the lists of the queues, one for each place of each
//! kind.

use apex_types::MOST_CORES;

/// The priorities that a process can have: 0 to 255.
pub const PRIORITIES: usize = 256;

/// The kinds of queues: that of the processes that wait for NORMAL, and those of the semaphores,
/// the buffers, the blackboards, the event flags and the mutexes.
pub const QUEUE_KINDS: usize = 6;

/// The places that a kind of object has for ids: 0 to 255.
pub const ID_PLACES: usize = 256;

/// The ready lists, which are the first lists of the set.
pub const READY_LISTS: usize = MOST_CORES as usize * PRIORITIES;

/// The lists of the queues, which come behind the ready lists.
pub const QUEUE_LISTS: usize = QUEUE_KINDS * ID_PLACES;

/// All lists of the set.
pub const ALL_LISTS: usize = READY_LISTS + QUEUE_LISTS;
