//! The waiters of each queue.
ghost use Rattle.std.specs.Prelude.{◌≡◌, ◌+◌, ◌<◌, ◌≤◌, ◌^◌, length, replicate, slice_set, IfOk};
ghost use Rattle.apex_links.specs.declared.numbers.TheConstants.{ALL_LISTS, QUEUE_LISTS};
ghost use Rattle.apex_links.specs.Neighbours.{first_of};
ghost use Rattle.apex_links.specs.Links.{list_at, removed, IsFree};
ghost use Rattle.apex_waitq.specs.WaitQueues.{is_lower, joined, queued_in, wait_list, AreCounted, IsNumbered};

use crate::lists::{queue_place, wait_list};
use apex_links::{ALL_LISTS, LinkSet, ListId, QUEUE_LISTS, READY_LISTS, Test};
use apex_machine::Queue;
use apex_types::{Discipline, ProcessId};
use std::alloc::{AllocError, Global};
use std::marker::Model;

/// The number of waiters of each queue, and the priority with which each process joined its queue
/// last.
///
/// The queues themselves are lists of a link set, which is lent to each call.
#[derive(Drop)]
pub struct WaitQueues {
    counts: Vec<u32>,
    priorities: Vec<u8>,
}

impl Model for WaitQueues {
    ghost use Rattle.std.specs.Prelude.{◌≡◌, length};
    ghost use Rattle.apex_links.specs.declared.numbers.TheConstants.{QUEUE_LISTS};
    ghost use Rattle.apex_waitq.specs.WaitQueues.{Waits};

    ghost Value = { Waits };

    ghost view = { λ q. record { counts = q.counts.items; priorities = q.priorities.items } };

    ghost invariant = { λ q. length q.counts.items ≡ QUEUE_LISTS };
}

/// The test for processes of a lower priority.
#[derive(Drop)]
struct Lower<'a> {
    priorities: &'a [u8],
    priority: u8,
}

impl Test for Lower<'_> {
    ghost passes = { λ t. is_lower t.priorities.now t.priority };

    ghost known = { λ t. length t.priorities.now };

    fn passes(&self, process: ProcessId) -> bool {
        self.priorities[process.place()] < self.priority
    }
}

impl WaitQueues {
    /// Queues for n processes, none of which waits. Fails only for want of memory.
    pub fn new(alloc: Global, processes: u16) -> Result<WaitQueues, AllocError>
        ensures counts { IfOk result (λ queues. queues.counts ≡ replicate QUEUE_LISTS 0) }
        ensures priorities { IfOk result (λ queues. queues.priorities ≡ replicate processes 0) }
    {
        let counts = vec![in alloc; 0; QUEUE_LISTS]?;
        let priorities = vec![in alloc; 0; usize::from(processes)]?;
        Ok(WaitQueues { counts, priorities })
    }

    /// The process, which is in no list, goes into this one by the discipline.
    fn enter(
        &self,
        links: &mut LinkSet,
        list: ListId,
        discipline: Discipline,
        process: ProcessId,
        priority: u8,
    )
        requires list { list < length links.old.lists }
        requires process { process < links.old.processes }
        requires processes { links.old.processes ≤ length self.now.priorities }
        requires free { IsFree links.old process }
        ensures { links.new
            ≡ queued_in self.now.priorities links.old list discipline process priority }
    {
        match discipline {
            Discipline::Fifo => links.push_back(list, process),
            Discipline::Priority => {
                let lower = Lower {
                    priorities: &self.priorities,
                    priority,
                };
                links.place(list, process, &lower);
            }
        }
    }

    /// The process, which is in no list, waits in the queue from now on: behind all others, or with
    /// the discipline PRIORITY before those of a lower priority than its own.
    #[inline(always)]
    pub fn join(
        &mut self,
        links: &mut LinkSet,
        queue: Queue,
        discipline: Discipline,
        process: ProcessId,
        priority: u8,
    )
        requires lists { ALL_LISTS ≤ length links.old.lists }
        requires process { process < links.old.processes }
        requires processes { links.old.processes ≤ length self.old.priorities }
        requires few_processes { links.old.processes < 2 ^ 16 }
        requires free { IsFree links.old process }
        requires counted { AreCounted self.old.counts links.old }
        ensures links { links.new
            ≡ joined self.old.priorities links.old queue discipline process priority }
        ensures priorities { self.new.priorities ≡ slice_set self.old.priorities process priority }
        ensures counted { AreCounted self.new.counts links.new }
        ensures numbered { IsNumbered queue }
    {
        // For the proof: a queue is no longer than the processes are many, so its count fits.
        links.holds();
        let list = wait_list(queue);
        self.enter(links, list, discipline, process, priority);
        self.priorities[process.place()] = priority;
        self.counts[list.place() - READY_LISTS] += 1;
    }

    /// The process is in no list from now on.
    pub fn leave(&mut self, links: &mut LinkSet, process: ProcessId)
        requires lists { ALL_LISTS ≤ length links.old.lists }
        requires process { process < links.old.processes }
        requires counted { AreCounted self.old.counts links.old }
        ensures links { links.new ≡ removed links.old process }
        ensures free { IsFree links.new process }
        ensures priorities { self.new.priorities ≡ self.old.priorities }
        ensures counted { AreCounted self.new.counts links.new }
    {
        // For the proof: the process is in one list at most.
        links.holds();
        if let Some(list) = links.take(process) {
            let place = list.place();
            if place >= READY_LISTS && place < ALL_LISTS {
                self.counts[place - READY_LISTS] -= 1;
            }
        }
    }

    /// The first waiter of the queue.
    pub fn first(&self, links: &LinkSet, queue: Queue) -> Option<ProcessId>
        requires lists { ALL_LISTS ≤ length links.now.lists }
        ensures value { result ≡ first_of (list_at links.now (wait_list queue)) }
        ensures numbered { IsNumbered queue }
    {
        // The lists are in the link set alone.
        let _ = self;
        links.front(wait_list(queue))
    }

    /// The number of waiters of the queue.
    pub fn count(&self, links: &LinkSet, queue: Queue) -> u32
        requires counted { AreCounted self.now.counts links.now }
        ensures value { result ≡ length (list_at links.now (wait_list queue)) }
        ensures numbered { IsNumbered queue }
    {
        // Lent for the contract alone, which says the count of the links.
        let _ = links;
        self.counts[queue_place(queue)]
    }
}
