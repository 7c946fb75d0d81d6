//! Linked lists of processes.
ghost use Rattle.std.specs.Prelude.{◌≡◌, ◌<◌, length, None, IfOk, MatchOption};
ghost use Rattle.apex_links.specs.Links.{empty_links, inserted_before, list_at, pushed_back, pushed_front, removed, IsBehind, IsFree, IsNextAt, IsOnlyIn, IsSound};
ghost use Rattle.apex_links.specs.Neighbours.{first_of, last_of};

use crate::chains::{Chains, Node};
use crate::lists::ListId;
use apex_types::ProcessId;
use std::alloc::{AllocError, Global};
use std::marker::Model;

/// A set of linked lists of processes.
///
/// A process is in at most one list, and a contract sees each list whole. Every call but `place`
/// and `place_sorted` takes the same few steps, however many processes are in the lists, and none
/// but `new` takes memory.
#[derive(Drop)]
pub struct LinkSet {
    chains: Chains,
}

impl Model for LinkSet {
    ghost use Rattle.apex_links.specs.Links.{Links};
    ghost use Rattle.apex_links.specs.Chains.{links_of, IsLinked};

    ghost Value = { Links };

    ghost view = { λ s. links_of s.chains.nodes.items s.chains.ends.items };

    ghost invariant = { λ s. IsLinked s.chains.nodes.items s.chains.ends.items };
}

impl LinkSet {
    /// A set of empty lists, `lists` of them, for `processes` processes. Fails only for want of
    /// memory.
    pub fn new(alloc: Global, processes: u16, lists: u16) -> Result<LinkSet, AllocError>
        ensures { IfOk result (λ links. links ≡ empty_links processes lists) }
    {
        Ok(LinkSet {
            chains: Chains::new(alloc, processes, lists)?,
        })
    }

    /// A process is in one place of one list at most.
    pub fn holds(&self)
        ensures { IsSound self.now }
    {
        // A look at a field gives the proof the invariant of the type.
        let _ = &self.chains;
    }

    /// The number of nodes that the calls, reading ones too, have read or written since the set was
    /// made; it stays at the greatest `u64`.
    pub fn visits(&self) -> u64 {
        self.chains.visits()
    }

    /// The number of processes.
    pub(crate) fn process_count(&self) -> usize
        ensures { result ≡ self.now.processes }
    {
        self.chains.process_count()
    }

    /// The list in which the process is, if it is in one.
    pub fn list_of(&self, process: ProcessId) -> Option<ListId>
        requires { process < self.now.processes }
        ensures { MatchOption result (IsFree self.now process) (λ l. IsOnlyIn self.now process l) }
    {
        self.chains.node(process).list
    }

    /// The first of the list.
    pub fn front(&self, list: ListId) -> Option<ProcessId>
        requires { list < length self.now.lists }
        ensures { result ≡ first_of (list_at self.now list) }
    {
        self.chains.ends(list).first
    }

    /// The last of the list.
    pub fn back(&self, list: ListId) -> Option<ProcessId>
        requires { list < length self.now.lists }
        ensures { result ≡ last_of (list_at self.now list) }
    {
        self.chains.ends(list).last
    }

    /// The process behind this one in its list; none for one that is in no list.
    pub fn next(&self, process: ProcessId) -> Option<ProcessId>
        requires { process < self.now.processes }
        ensures free { IsFree self.now process → result ≡ None }
        ensures after { IsBehind self.now process result }
        ensures at { IsNextAt self.now process result }
    {
        self.chains.node(process).after
    }

    /// The process, which is in no list, goes behind all others of this one.
    pub fn push_back(&mut self, list: ListId, process: ProcessId)
        requires list { list < length self.old.lists }
        requires process { process < self.old.processes }
        requires free { IsFree self.old process }
        ensures { self.new ≡ pushed_back self.old list process }
    {
        let place = Node {
            list: Some(list),
            before: self.chains.ends(list).last,
            after: None,
        };
        self.chains.join(list, process, place);
    }

    /// The process, which is in no list, goes before all others of this one.
    pub fn push_front(&mut self, list: ListId, process: ProcessId)
        requires list { list < length self.old.lists }
        requires process { process < self.old.processes }
        requires free { IsFree self.old process }
        ensures { self.new ≡ pushed_front self.old list process }
    {
        let place = Node {
            list: Some(list),
            before: None,
            after: self.chains.ends(list).first,
        };
        self.chains.join(list, process, place);
    }

    /// The process, which is in no list, goes right before another one. Nothing changes if that one
    /// is in no list.
    pub fn insert_before(&mut self, other: ProcessId, process: ProcessId)
        requires other { other < self.old.processes }
        requires process { process < self.old.processes }
        requires free { IsFree self.old process }
        ensures { self.new ≡ inserted_before self.old other process }
    {
        let place = self.chains.node(other);
        if let Some(list) = place.list {
            let place = Node {
                after: Some(other),
                ..*place
            };
            self.chains.join(list, process, place);
        }
    }

    /// The process is in no list from now on. Returns the list in which it was, if it was in one.
    pub fn take(&mut self, process: ProcessId) -> Option<ListId>
        requires { process < self.old.processes }
        ensures list { MatchOption result (IsFree self.old process)
            (λ l. IsOnlyIn self.old process l) }
        ensures lists { self.new ≡ removed self.old process }
        ensures free { IsFree self.new process }
    {
        let list = self.chains.node(process).list;
        if let Some(list) = list {
            self.chains.part(list, process);
        }
        list
    }

    /// The process is in no list from now on.
    pub fn remove(&mut self, process: ProcessId)
        requires { process < self.old.processes }
        ensures lists { self.new ≡ removed self.old process }
        ensures free { IsFree self.new process }
    {
        let _ = self.take(process);
    }
}
