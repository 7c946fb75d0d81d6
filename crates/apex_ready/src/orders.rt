//! Which priorities of each core have a process that is ready.
ghost use Rattle.std.specs.Prelude.{◌≡◌, ◌+◌, ◌-◌, ◌*◌, ◌<◌, ◌≤◌, ℕ, Bool, true, false, ◌==◌, if◌then◌else◌, length, Some, None, MatchOption};
ghost use Rattle.apex_types.specs.declared.limits.TheConstants.{MOST_CORES};
ghost use Rattle.apex_links.specs.declared.numbers.TheConstants.{READY_LISTS};
ghost use Rattle.apex_links.specs.Links.{pushed_back, pushed_front, removed, IsFree};
ghost use Rattle.apex_ready.specs.ReadyOrders.{is_marked, ready_list, AreMarked, IsHighest, IsHighestBit, IsIdle, IsTop, IsUnmarked};

use crate::lists::ready_list;
use apex_links::{LinkSet, ListId, READY_LISTS};
use apex_types::{CoreId, ProcessId};
use std::marker::Model;

const WORDS: usize = READY_LISTS / 64;

/// The marks of the ready lists that are not empty, four words for each core: bit b of a core's
/// word w is that of priority 64 * w + b.
///
/// The lists themselves are in a link set, which is lent to each call.
#[derive(Drop)]
pub struct ReadyOrders {
    words: [u64; WORDS],
}

impl Model for ReadyOrders {
    ghost use Rattle.std.specs.Prelude.{ℕ, List};

    ghost Value = { List ℕ };

    ghost view = { λ o. o.words };
}

/// The place of the highest bit that is set.
fn highest_bit(marks: u64) -> u8
    requires { 0 < marks }
    ensures { IsHighestBit marks result }
{
    63 - marks.leading_zeros() as u8
}

impl ReadyOrders {
    /// The orders in which no process is ready.
    pub fn new() -> ReadyOrders
        ensures { (l : ℕ) → is_marked result l ≡ false }
    {
        ReadyOrders { words: [0; WORDS] }
    }

    /// Marks the list, which has a process from now on.
    fn mark(&mut self, list: ListId)
        requires { list < READY_LISTS }
        ensures { (l : ℕ) → l < READY_LISTS
            → is_marked self.new l ≡ (if l == list then true else is_marked self.old l) }
    {
        let place = list.place();
        self.words[place / 64] |= 1 << (place % 64);
    }

    /// Takes the mark from the list, which has no process from now on.
    fn clear(&mut self, list: ListId)
        requires { list < READY_LISTS }
        ensures { (l : ℕ) → l < READY_LISTS
            → is_marked self.new l ≡ (if l == list then false else is_marked self.old l) }
    {
        let place = list.place();
        self.words[place / 64] &= !(1 << (place % 64));
    }

    /// The process, which is in no list, is ready on the core from now on, behind all others of
    /// this priority.
    pub fn enter_newest(
        &mut self,
        links: &mut LinkSet,
        core: CoreId,
        priority: u8,
        process: ProcessId,
    )
        requires lists { READY_LISTS ≤ length links.old.lists }
        requires process { process < links.old.processes }
        requires free { IsFree links.old process }
        requires marked { AreMarked self.old links.old }
        ensures links { links.new ≡ pushed_back links.old (ready_list core priority) process }
        ensures marked { AreMarked self.new links.new }
        ensures known { core < MOST_CORES }
    {
        let list = ready_list(core, priority);
        links.push_back(list, process);
        self.mark(list);
    }

    /// The process, which is in no list, is ready on the core from now on, before all others of
    /// this priority.
    pub fn enter_oldest(
        &mut self,
        links: &mut LinkSet,
        core: CoreId,
        priority: u8,
        process: ProcessId,
    )
        requires lists { READY_LISTS ≤ length links.old.lists }
        requires process { process < links.old.processes }
        requires free { IsFree links.old process }
        requires marked { AreMarked self.old links.old }
        ensures links { links.new ≡ pushed_front links.old (ready_list core priority) process }
        ensures marked { AreMarked self.new links.new }
        ensures known { core < MOST_CORES }
    {
        let list = ready_list(core, priority);
        links.push_front(list, process);
        self.mark(list);
    }

    /// The process is in no list from now on.
    pub fn leave(&mut self, links: &mut LinkSet, process: ProcessId)
        requires process { process < links.old.processes }
        requires marked { AreMarked self.old links.old }
        ensures links { links.new ≡ removed links.old process }
        ensures free { IsFree links.new process }
        ensures marked { AreMarked self.new links.new }
    {
        if let Some(list) = links.take(process) {
            if list.place() < READY_LISTS && links.front(list).is_none() {
                self.clear(list);
            }
        }
    }

    /// The highest priority of the core whose list is marked.
    fn highest(&self, core: CoreId) -> Option<u8>
        ensures value { MatchOption result (IsUnmarked self.now core)
            (λ p. IsHighest self.now core p) }
        ensures known { core < MOST_CORES }
    {
        let number = usize::from(core.number());
        for round in 0..4 {
            let word = 3 - round;
            let marks = self.words[4 * number + usize::from(word)];
            if marks != 0 {
                return Some(64 * word + highest_bit(marks));
            }
        }
        None
    }

    /// The first process of the highest priority that has a ready process on the core.
    pub fn top(&self, links: &LinkSet, core: CoreId) -> Option<ProcessId>
        requires lists { READY_LISTS ≤ length links.now.lists }
        requires marked { AreMarked self.now links.now }
        ensures value { MatchOption result (IsIdle links.now core) (λ p. IsTop links.now core p) }
        ensures known { core < MOST_CORES }
    {
        match self.highest(core) {
            Some(priority) => links.front(ready_list(core, priority)),
            None => None,
        }
    }
}
