//! The trait `Store`: the processes of a partition, their mode and their time.
ghost use Rattle.std.specs.Prelude.{◌≡◌, ◌<◌, ◌≤◌, ◌^◌, true, length, IfSome};
ghost use Rattle.apex_types.specs.declared.limits.TheConstants.{MOST_CORES, MOST_OWNED, MOST_PROCESSES};
ghost use Rattle.apex_types.specs.Limits.{latest};
ghost use Rattle.apex_machine.specs.processes.Roster.{Roster, record_at};
ghost use Rattle.apex_machine.specs.processes.Running.{chosen, process_state, IsEligible, IsIneligible};
ghost use Rattle.apex_machine.specs.processes.Waiters.{first_waiter, next_waiter, waiter_count, waits_in};
ghost use Rattle.apex_machine.specs.processes.Owners.{ceiling_of, owner};
ghost use Rattle.apex_machine.specs.processes.Dues.{next_instant, first_due, first_missed, HasNoDeadlineBelow, HasNoDueBelow, HasTime, IsFrom};
ghost use Rattle.apex_machine.specs.processes.Stamps as stamps;
ghost use Rattle.apex_machine.specs.declared.records.Queue.TheVariants as queues;

use crate::orders::is_process;
use apex_machine::{Holding, Holdings, Queue, Record, Wait};
use apex_types::{CoreId, Message, Mode, MutexId, ProcessId, State};

/// The processes of a partition: their records, the mode and the time.
///
/// A contract sees a store as its roster alone: one record a process, and the two counters of
/// stamps. No call fails, and none takes memory. The rules are those of ARINC 653 Part 1, process
/// management, and of this profile. The conditions let a store keep its queues as linked lists:
/// only the entry into NORMAL may have to compare stamps.
pub trait Store: Drop {
    ghost roster: { Self → Roster };

    /// The number of cores that the partition has.
    fn cores(&self) -> u8
        ensures value { result ≡ (roster self.now).cores }
        ensures range { result ≤ MOST_CORES };

    /// The operating mode of the partition.
    fn mode(&self) -> Mode
        ensures { result ≡ (roster self.now).mode };

    /// The time in ticks.
    fn now(&self) -> u64
        ensures { result ≡ (roster self.now).now };

    /// The number of processes that the table has, created or not.
    fn process_count(&self) -> usize
        ensures value { result ≡ length (roster self.now).records }
        ensures range { result ≤ MOST_PROCESSES };

    /// The record of the process.
    fn record(&self, process: ProcessId) -> &Record
        requires known { process < length (roster self.now).records }
        ensures { result.now ≡ record_at (roster self.now) process };

    /// The records of all processes, at each of which the caller looks.
    fn records(&self) -> &[Record]
        ensures value { result.now ≡ (roster self.now).records }
        ensures range { length result.now ≤ MOST_PROCESSES };

    /// The process that the core runs.
    fn chosen(&self, core: CoreId) -> Option<ProcessId>
        ensures value { result ≡ chosen (roster self.now) core }
        ensures known { IfSome result (λ p. p < length (roster self.now).records) };

    /// The state of the process: RUNNING if it is the one that its core runs, and READY if it is
    /// otherwise eligible.
    fn state(&self, process: ProcessId) -> State
        requires known { process < length (roster self.now).records }
        ensures { result ≡ process_state (roster self.now) process }
    {
        let fields = self.record(process);
        if !fields.started {
            State::Dormant
        } else if !fields.is_eligible(self.mode()) {
            State::Waiting
        } else if is_process(process, self.chosen(fields.core)) {
            State::Running
        } else {
            State::Ready
        }
    }

    /// The first waiter of the queue, by its discipline.
    fn first(&self, queue: Queue) -> Option<ProcessId>
        ensures value { result ≡ first_waiter (roster self.now) queue }
        ensures known { IfSome result (λ p. p < length (roster self.now).records) };

    /// The next waiter of the queue behind this process, which waits there.
    fn next_after(&self, queue: Queue, process: ProcessId) -> Option<ProcessId>
        requires known { process < length (roster self.now).records }
        requires waits { waits_in queue (record_at (roster self.now) process) ≡ true }
        ensures value { result ≡ next_waiter (roster self.now) queue process }
        ensures known { IfSome result (λ p. p < length (roster self.now).records) };

    /// The number of processes that wait in the queue.
    fn waiting(&self, queue: Queue) -> u32
        ensures { result ≡ waiter_count (roster self.now) queue };

    /// The priority to which the mutex raises its owner.
    fn ceiling(&self, mutex: MutexId) -> u8
        ensures { result ≡ ceiling_of (roster self.now) mutex };

    /// How many mutexes a process may own at once.
    fn most_owned(&self) -> usize
        ensures value { result ≡ (roster self.now).rules.most_owned }
        ensures range { result ≤ MOST_OWNED };

    /// The process that owns the mutex.
    fn owner(&self, mutex: MutexId) -> Option<ProcessId>
        ensures value { result ≡ owner (roster self.now) mutex }
        ensures known { IfSome result (λ p. p < length (roster self.now).records) };

    /// The next instant at which a wait ends by itself or a deadline passes: the least due or
    /// deadline of all processes.
    fn next_instant(&self) -> Option<u64>
        ensures { result ≡ next_instant (roster self.now) };

    /// Resets a dormant process and starts it after a delay in ticks, which begins to run at once
    /// in NORMAL, else with the entry into NORMAL.
    fn start(&mut self, process: ProcessId, delay: u32)
        requires known { process < length (roster self.old).records }
        requires stamps { stamps.HasStamps (roster self.old) }
        requires time { HasTime (roster self.old) }
        ensures { roster self.new ≡ stamps.start (roster self.old) process delay };

    /// The process is dormant from now on: it waits for nothing, isn't suspended, has no due and no
    /// deadline, and owns no mutex. The mutexes that it owned are handed to nobody.
    fn stop(&mut self, process: ProcessId)
        requires known { process < length (roster self.old).records }
        ensures { roster self.new ≡ stamps.stop (roster self.old) process };

    /// The process, which is started and waits for nothing or for NORMAL, begins to wait, until the
    /// due, an instant in ticks, if there is one.
    fn block(&mut self, process: ProcessId, wait: Wait, due: Option<u64>)
        requires known { process < length (roster self.old).records }
        requires free { stamps.may_wait (record_at (roster self.old) process) ≡ true }
        requires due { IsFrom (roster self.old).now due }
        requires stamps { stamps.HasStamps (roster self.old) }
        ensures { roster self.new ≡ stamps.block (roster self.old) process wait due };

    /// The process's wait, or its suspension of itself, ends.
    fn unblock(&mut self, process: ProcessId)
        requires known { process < length (roster self.old).records }
        requires stamps { stamps.HasStamps (roster self.old) }
        ensures { roster self.new ≡ stamps.unblock (roster self.old) process };

    /// Releases a process that waits for its start, for NORMAL or for its next release. Its
    /// deadline begins to run.
    fn release(&mut self, process: ProcessId)
        requires known { process < length (roster self.old).records }
        requires stamps { stamps.HasStamps (roster self.old) }
        requires time { HasTime (roster self.old) }
        ensures { roster self.new ≡ stamps.release (roster self.old) process };

    /// Another process suspends the process; a wait goes on.
    fn suspend(&mut self, process: ProcessId)
        requires known { process < length (roster self.old).records }
        ensures { roster self.new ≡ stamps.suspend (roster self.old) process };

    /// The process, which is eligible, suspends itself, until the due, an instant in ticks, if
    /// there is one.
    fn suspend_self(&mut self, process: ProcessId, due: Option<u64>)
        requires known { process < length (roster self.old).records }
        requires eligible { IsEligible (roster self.old) process }
        requires due { IsFrom (roster self.old).now due }
        requires stamps { stamps.HasStamps (roster self.old) }
        ensures { roster self.new ≡ stamps.suspend_self (roster self.old) process due };

    /// The process is no longer suspended: if it suspended itself it wakes, else its wait goes on.
    fn resume(&mut self, process: ProcessId)
        requires known { process < length (roster self.old).records }
        requires stamps { stamps.HasStamps (roster self.old) }
        ensures { roster self.new ≡ stamps.resume (roster self.old) process };

    /// Sets the base priority. The process becomes the newest if it is eligible or waits in a queue
    /// in which the more urgent comes first. An eligible owner of a mutex keeps its place if its
    /// current priority stays.
    fn set_priority(&mut self, process: ProcessId, base: u8)
        requires known { process < length (roster self.old).records }
        requires stamps { stamps.HasStamps (roster self.old) }
        ensures { roster self.new ≡ stamps.set_priority (roster self.old) process base };

    /// The process, which is eligible, owns these mutexes from now on. It goes before all others of
    /// its priority if its current priority changes.
    fn own(&mut self, process: ProcessId, owned: Holdings)
        requires known { process < length (roster self.old).records }
        requires eligible { IsEligible (roster self.old) process }
        requires stamps { stamps.HasStamps (roster self.old) }
        ensures { roster self.new ≡ stamps.own (roster self.old) process owned };

    /// The process, which owns no mutex and waits for this one, owns it so and wakes.
    fn inherit(&mut self, process: ProcessId, holding: Holding)
        requires known { process < length (roster self.old).records }
        requires waits { waits_in (queues.Mutex holding.mutex) (record_at (roster self.old) process)
            ≡ true }
        requires stamps { stamps.HasStamps (roster self.old) }
        ensures { roster self.new ≡ stamps.inherit (roster self.old) process holding };

    /// The process goes behind all others of its priority.
    fn place_newest(&mut self, process: ProcessId)
        requires known { process < length (roster self.old).records }
        requires stamps { stamps.HasStamps (roster self.old) }
        ensures { roster self.new ≡ stamps.place_newest (roster self.old) process };

    /// Time goes on to this instant, in ticks, and passes over no due and no deadline.
    fn advance_to(&mut self, instant: u64)
        requires forward { (roster self.old).now ≤ instant }
        requires near { instant ≤ latest }
        requires dues { HasNoDueBelow (roster self.old) instant }
        requires deadlines { HasNoDeadlineBelow (roster self.old) instant }
        ensures { roster self.new ≡ stamps.advance_to (roster self.old) instant };

    /// The deadline of the process is this instant, in ticks, from now on, or it has none.
    fn set_deadline(&mut self, process: ProcessId, deadline: Option<u64>)
        requires known { process < length (roster self.old).records }
        requires later { IsFrom (roster self.old).now deadline }
        ensures { roster self.new ≡ stamps.set_deadline (roster self.old) process deadline };

    /// The process of the lowest number whose deadline is now; it has no deadline afterwards.
    fn take_missed(&mut self) -> Option<ProcessId>
        ensures value { result ≡ first_missed (roster self.old) }
        ensures known { IfSome result (λ p. p < length (roster self.old).records) }
        ensures taken { roster self.new ≡ stamps.take_missed (roster self.old) };

    /// The process of the lowest number whose due is now; it has no due afterwards.
    fn take_due(&mut self) -> Option<ProcessId>
        ensures value { result ≡ first_due (roster self.old) }
        ensures known { IfSome result (λ p. p < length (roster self.old).records) }
        ensures taken { roster self.new ≡ stamps.take_due (roster self.old) };

    /// Sets the mode. No process becomes eligible by it.
    fn set_mode(&mut self, mode: Mode)
        requires { stamps.ReadiesNobody (roster self.old) mode }
        ensures { roster self.new ≡ stamps.set_mode (roster self.old) mode };

    /// Binds a process that isn't eligible to the core.
    fn set_core(&mut self, process: ProcessId, core: CoreId)
        requires known { process < length (roster self.old).records }
        requires out { IsIneligible (roster self.old) process }
        ensures { roster self.new ≡ stamps.set_core (roster self.old) process core };

    /// The process receives this message.
    fn receive(&mut self, process: ProcessId, message: Message)
        requires known { process < length (roster self.old).records }
        ensures { roster self.new ≡ stamps.receive (roster self.old) process message };

    /// Sets the process's place in its script, counted from 0.
    fn set_step(&mut self, process: ProcessId, step: u8)
        requires known { process < length (roster self.old).records }
        ensures { roster self.new ≡ stamps.set_step (roster self.old) process step };
}
