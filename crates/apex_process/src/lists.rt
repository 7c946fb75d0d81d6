//! The ready lists and the wait queues of a partition, in one set of linked lists.
ghost use Rattle.std.specs.Prelude.{◌≡◌, ◌+◌, ◌<◌, ◌≤◌, ℕ, [], true, length, replicate, slice_get, IfOk, MatchOption};
ghost use Rattle.apex_types.specs.declared.limits.TheConstants.{MOST_CORES, MOST_PROCESSES};
ghost use Rattle.apex_machine.specs.processes.Running.{current_priority};
ghost use Rattle.apex_links.specs.declared.numbers.TheConstants.{ALL_LISTS, PRIORITIES};
ghost use Rattle.apex_links.specs.Neighbours.{after_in, first_of, stands_in};
ghost use Rattle.apex_links.specs.Links.{list_at, removed, IsFree, IsSound};
ghost use Rattle.apex_ready.specs.ReadyOrders.{IsIdle, IsTop};
ghost use Rattle.apex_waitq.specs.WaitQueues.{wait_list, IsNumbered};
ghost use Rattle.apex_process.specs.Lists.{noted_newest, placed_newest, placed_oldest, HasPlace};
ghost use Rattle.apex_process.specs.Queued.{AreEmptied, AreKept, IsUnreadied, IsListedReady};

use apex_links::{ALL_LISTS, LinkSet, READY_LISTS};
use apex_machine::{Queue, Record};
use apex_ready::ReadyOrders;
use apex_store::{PlainStore, Store};
use apex_types::{CoreId, ProcessId};
use apex_waitq::WaitQueues;
use std::alloc::{AllocError, Global};
use std::marker::Model;

/// The ready lists and the lists of the wait queues, with the processes in them.
#[derive(Drop)]
pub(crate) struct Lists {
    links: LinkSet,
    orders: ReadyOrders,
    queues: WaitQueues,
}

impl Model for Lists {
    ghost use Rattle.apex_process.specs.Queued.{AreKept, Standings};

    ghost Value = { Standings };

    ghost view = { λ s. record {
      links = s.links;
      marks = s.orders;
      counts = s.queues.counts;
      priorities = s.queues.priorities;
    } };

    ghost invariant = { λ s. AreKept
        (record {
          links = s.links;
          marks = s.orders;
          counts = s.queues.counts;
          priorities = s.queues.priorities;
        }) };
}

impl Lists {
    /// The lists of n processes, none of which is ready or waits. Fails only for want of memory.
    pub(crate) fn new(alloc: Global, processes: u16) -> Result<Lists, AllocError>
        requires { processes ≤ MOST_PROCESSES }
        ensures links { IfOk result (λ lists. lists.links
            ≡ record { processes = processes; lists = replicate ALL_LISTS [] }) }
        ensures rows { IfOk result (λ lists. length lists.priorities ≡ processes) }
    {
        Ok(Lists {
            links: LinkSet::new(alloc, processes, ALL_LISTS as u16)?,
            orders: ReadyOrders::new(),
            queues: WaitQueues::new(alloc, processes)?,
        })
    }

    /// A process is in one place of one list at most, and marks and counts are those of the lists.
    pub(crate) fn holds(&self)
        ensures sound { IsSound self.now.links }
        ensures kept { AreKept self.now }
    {
        // The invariant of the type says the rest.
        self.links.holds();
    }

    /// The number of nodes that the calls, reading ones too, have read or written since the lists
    /// were made.
    pub(crate) fn visits(&self) -> u64 {
        self.links.visits()
    }

    /// The process is in a ready list; else it waits in a queue, or is in no list.
    fn is_ready(&self, process: ProcessId) -> bool
        requires { process < self.now.links.processes }
        ensures { IsListedReady self.now.links process result }
    {
        match self.links.list_of(process) {
            Some(list) => list.place() < READY_LISTS,
            None => false,
        }
    }

    /// The process is in no list from now on.
    // Inlined, as every change of a list begins with it.
    #[inline(always)]
    pub(crate) fn leave(&mut self, process: ProcessId)
        requires { process < self.old.links.processes }
        ensures links { self.new.links ≡ removed self.old.links process }
        ensures priorities { self.new.priorities ≡ self.old.priorities }
        ensures free { IsFree self.new.links process }
    {
        if self.is_ready(process) {
            self.orders.leave(&mut self.links, process);
        } else {
            self.queues.leave(&mut self.links, process);
        }
    }

    /// The process, which has this record, leaves its list and goes to that of the record, as the
    /// newest there.
    #[inline(always)]
    pub(crate) fn put_newest(&mut self, records: &PlainStore, process: ProcessId, given: &Record)
        requires known { process < self.old.links.processes }
        ensures links { self.new.links
            ≡ placed_newest records.now self.old.priorities
            (removed self.old.links process) process given.now }
        ensures priorities { self.new.priorities
            ≡ noted_newest records.now self.old.priorities process given.now }
        ensures place { HasPlace records.now.mode given.now }
    {
        self.leave(process);
        let priority = given.current_priority();
        if given.is_eligible(records.mode()) {
            self.orders
                .enter_newest(&mut self.links, given.core, priority, process);
        } else if let Some(queue) = given.queue() {
            let discipline = records.discipline(&queue);
            self.queues
                .join(&mut self.links, queue, discipline, process, priority);
        }
    }

    /// The process, which is eligible and has this record, leaves its list and goes to that of the
    /// record, as the oldest there.
    pub(crate) fn put_oldest(&mut self, process: ProcessId, given: &Record)
        requires known { process < self.old.links.processes }
        ensures links { self.new.links
            ≡ placed_oldest (removed self.old.links process) process given.now }
        ensures priorities { self.new.priorities ≡ self.old.priorities }
        ensures core { given.now.core < MOST_CORES }
        ensures priority { current_priority given.now < PRIORITIES }
    {
        self.leave(process);
        let priority = given.current_priority();
        self.orders
            .enter_oldest(&mut self.links, given.core, priority, process);
    }

    /// The process is no longer ready. One that waits in a queue stays there.
    fn unready(&mut self, process: ProcessId)
        requires { process < self.old.links.processes }
        ensures links { IsUnreadied self.old.links self.new.links process }
        ensures priorities { self.new.priorities ≡ self.old.priorities }
    {
        if self.is_ready(process) {
            self.leave(process);
        }
    }

    /// None of the processes is ready from now on. Those that wait stay in their queues.
    pub(crate) fn clear(&mut self, processes: u8)
        requires { processes ≡ self.old.links.processes }
        ensures links { AreEmptied self.old.links self.new.links }
        ensures priorities { self.new.priorities ≡ self.old.priorities }
    {
        for place in 0..processes {
            self.unready(ProcessId::at(place));
        }
        // For the proof: no other process is in a list.
        self.links.holds();
    }

    /// The longest ready process of the highest priority that has a ready process on the core.
    pub(crate) fn top(&self, core: CoreId) -> Option<ProcessId>
        ensures value { MatchOption result (IsIdle self.now.links core)
            (λ p. IsTop self.now.links core p) }
        ensures known { core < MOST_CORES }
    {
        self.orders.top(&self.links, core)
    }

    /// The first waiter of the queue.
    pub(crate) fn first(&self, queue: Queue) -> Option<ProcessId>
        ensures value { result ≡ first_of (list_at self.now.links (wait_list queue)) }
        ensures numbered { IsNumbered queue }
    {
        self.queues.first(&self.links, queue)
    }

    /// The process behind this one in its list.
    pub(crate) fn next(&self, process: ProcessId) -> Option<ProcessId>
        requires { process < self.now.links.processes }
        ensures { (l : ℕ) → stands_in process (list_at self.now.links l) ≡ true
            → result ≡ after_in process (list_at self.now.links l) }
    {
        self.links.next(process)
    }

    /// The number of waiters of the queue.
    pub(crate) fn count(&self, queue: Queue) -> u32
        ensures value { result ≡ length (list_at self.now.links (wait_list queue)) }
        ensures sound { IsSound self.now.links }
        ensures numbered { IsNumbered queue }
    {
        // For the clause `sound`.
        self.links.holds();
        self.queues.count(&self.links, queue)
    }
}
