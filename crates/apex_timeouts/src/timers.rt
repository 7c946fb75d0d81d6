//! The dues and the deadlines of a partition.
ghost use Rattle.std.specs.Prelude.{◌≡◌, ◌<◌, length, IfOk, IfSome};
ghost use Rattle.apex_machine.specs.processes.Dues.{sooner};
ghost use Rattle.apex_timeouts.specs.Timeline.{due_at, empty_line, next_of, without_due_at, IsReset, IsTimed};

use crate::timeline::Timeline;
use apex_machine::sooner;
use apex_types::ProcessId;
use std::alloc::{AllocError, Global};
use std::marker::Model;

/// The dues and the deadlines of the processes: two lines, each in the order of its instants.
#[derive(Drop)]
pub struct Timers {
    dues: Timeline,
    deadlines: Timeline,
}

impl Model for Timers {
    ghost use Rattle.apex_timeouts.specs.Timers.{Lines};

    ghost Value = { Lines };

    ghost view = { λ t. record { dues = t.dues; deadlines = t.deadlines } };
}

impl Timers {
    /// Timers for n processes, none of which has a due or a deadline. Fails only for want of
    /// memory.
    pub fn new(alloc: Global, processes: u16) -> Result<Timers, AllocError>
        ensures dues { IfOk result (λ timers. timers.dues ≡ empty_line processes) }
        ensures deadlines { IfOk result (λ timers. timers.deadlines ≡ empty_line processes) }
    {
        Ok(Timers {
            dues: Timeline::new(alloc, processes)?,
            deadlines: Timeline::new(alloc, processes)?,
        })
    }

    /// The processes of each line are in the order of their instants, and none of them is there
    /// twice.
    pub fn holds(&self)
        ensures dues { IsTimed self.now.dues }
        ensures deadlines { IsTimed self.now.deadlines }
    {
        self.dues.holds();
        self.deadlines.holds();
    }

    /// The number of nodes of the lines that the calls, reading ones too, have read or written
    /// since they were made; it stays at the greatest `u64`.
    pub fn visits(&self) -> u64 {
        self.dues.visits().saturating_add(self.deadlines.visits())
    }

    /// The wait of the process ends by itself at this instant, in ticks, from now on, or never.
    /// Nothing is walked if that was so before.
    pub fn set_due(&mut self, process: ProcessId, due: Option<u64>)
        requires { process < length self.old.dues.instants }
        ensures dues { IsReset self.old.dues self.new.dues process due }
        ensures deadlines { self.new.deadlines ≡ self.old.deadlines }
    {
        self.dues.set(process, due);
    }

    /// The deadline of the process is this instant, in ticks, from now on, or it has none. Nothing
    /// is walked if that was so before.
    pub fn set_deadline(&mut self, process: ProcessId, deadline: Option<u64>)
        requires { process < length self.old.deadlines.instants }
        ensures dues { self.new.dues ≡ self.old.dues }
        ensures deadlines { IsReset self.old.deadlines self.new.deadlines process deadline }
    {
        self.deadlines.set(process, deadline);
    }

    /// The instant, in ticks, of the soonest due or deadline.
    pub fn next_instant(&self) -> Option<u64>
        ensures { result ≡ sooner (next_of self.now.dues) (next_of self.now.deadlines) }
    {
        sooner(self.dues.next_instant(), self.deadlines.next_instant())
    }

    /// Takes the first process off the line of dues if this is its due.
    pub fn pop_due_at(&mut self, instant: u64) -> Option<ProcessId>
        ensures value { result ≡ due_at self.old.dues instant }
        ensures known { IfSome result (λ p. p < length self.old.dues.instants) }
        ensures dues { self.new.dues ≡ without_due_at self.old.dues instant }
        ensures deadlines { self.new.deadlines ≡ self.old.deadlines }
    {
        self.dues.pop_at(instant)
    }

    /// Takes the first process off the line of deadlines if this is its deadline.
    pub fn pop_deadline_at(&mut self, instant: u64) -> Option<ProcessId>
        ensures value { result ≡ due_at self.old.deadlines instant }
        ensures known { IfSome result (λ p. p < length self.old.deadlines.instants) }
        ensures dues { self.new.dues ≡ self.old.dues }
        ensures deadlines { self.new.deadlines ≡ without_due_at self.old.deadlines instant }
    {
        self.deadlines.pop_at(instant)
    }
}
