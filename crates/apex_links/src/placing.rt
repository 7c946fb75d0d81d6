//! A process goes into a list before the first one that passes a test.
ghost use Rattle.std.specs.Prelude.{◌≡◌, ◌<◌, ◌≤◌, ℕ, Bool, length, true, IfSome};
ghost use Rattle.apex_links.specs.Neighbours.{stands_in};
ghost use Rattle.apex_links.specs.Links.{list_at, IsFree};
ghost use Rattle.apex_links.specs.Placing.{first_such, placed_in, IsRising};

use crate::links::LinkSet;
use crate::lists::ListId;
use apex_types::ProcessId;

/// A test of the processes in a list.
pub trait Test {
    ghost passes: { Self → ℕ → Bool };

    /// The number of processes that the test knows, from number 0 on.
    ghost known: { Self → ℕ };

    /// Whether this process passes the test.
    fn passes(&self, process: ProcessId) -> bool
        requires { process < known self.now }
        ensures { result ≡ passes self.now process };
}

impl LinkSet {
    /// The first of the list that passes the test.
    fn first_such<T: Test>(&self, list: ListId, test: &T) -> Option<ProcessId>
        requires list { list < length self.now.lists }
        requires known { self.now.processes ≤ T.known test.now }
        ensures value { result ≡ first_such (T.passes test.now) (list_at self.now list) }
        ensures there { IfSome result (λ q. stands_in q (list_at self.now list) ≡ true) }
    {
        // For the proof: a walk of as many rounds as there are processes ends.
        self.holds();
        let mut at = self.front(list);
        for _round in 0..self.process_count() {
            let Some(process) = at else {
                return None;
            };
            if test.passes(process) {
                return at;
            }
            at = self.next(process);
        }
        None
    }

    /// The process, which is in no list, goes into this one: right before the first that passes the
    /// test, or behind all others if none does.
    // In a function of its own, so that its callers stay small if they do not walk.
    #[inline(never)]
    pub fn place<T: Test>(&mut self, list: ListId, process: ProcessId, test: &T)
        requires list { list < length self.old.lists }
        requires process { process < self.old.processes }
        requires free { IsFree self.old process }
        requires known { self.old.processes ≤ T.known test.now }
        ensures { self.new ≡ placed_in (T.passes test.now) self.old list process }
    {
        // For the proof: the processes of the list are known to the test.
        self.holds();
        match self.first_such(list, test) {
            Some(other) => self.insert_before(other, process),
            None => self.push_back(list, process),
        }
    }

    /// The process, which is in no list, goes into this one by a test that all pass who come behind
    /// one that passes it: right before the first that passes, or behind all others if none does.
    /// Nothing is walked if the last one does not pass.
    pub fn place_sorted<T: Test>(&mut self, list: ListId, process: ProcessId, test: &T)
        requires list { list < length self.old.lists }
        requires process { process < self.old.processes }
        requires free { IsFree self.old process }
        requires known { self.old.processes ≤ T.known test.now }
        requires rising { IsRising (T.passes test.now) (list_at self.old list) }
        ensures { self.new ≡ placed_in (T.passes test.now) self.old list process }
    {
        // For the proof: the last process is known to the test.
        self.holds();
        match self.back(list) {
            Some(last) if test.passes(last) => self.place(list, process, test),
            _ => self.push_back(list, process),
        }
    }
}
