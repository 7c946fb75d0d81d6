//! Linked lists in memory: a node for each process, and the two ends of each list.
ghost use Rattle.std.specs.Prelude.{◌≡◌, ◌<◌, length, replicate, slice_set, IfOk};
ghost use Rattle.apex_links.specs.Chains.{ends_at, ends_with, ends_without, followed, free, led, no_ends, node_at, nodes_with, nodes_without, preceded, trailed, IsKnown};

use crate::lists::ListId;
use crate::visits::Visits;
use apex_types::ProcessId;
use std::alloc::{AllocError, Global};

/// The list of a process, and its neighbours there.
#[derive(Clone, Copy)]
pub(crate) struct Node {
    pub(crate) list: Option<ListId>,
    pub(crate) before: Option<ProcessId>,
    pub(crate) after: Option<ProcessId>,
}

/// The node of a process that is in no list.
const FREE: Node = Node {
    list: None,
    before: None,
    after: None,
};

/// The two ends of a list.
#[derive(Clone, Copy)]
pub(crate) struct Ends {
    pub(crate) first: Option<ProcessId>,
    pub(crate) last: Option<ProcessId>,
}

/// A process that joins or leaves a list touches its node and two more, or an end of the list in
/// place of one of these.
const TOUCHED: usize = 3;

/// The nodes and the ends, which are linked by index.
#[derive(Drop)]
pub(crate) struct Chains {
    nodes: Vec<Node>,
    ends: Vec<Ends>,
    visits: Visits,
}

impl Chains {
    /// Empty lists, `lists` of them, for `processes` processes. Fails only for want of memory.
    pub(crate) fn new(alloc: Global, processes: u16, lists: u16) -> Result<Chains, AllocError>
        ensures nodes { IfOk result (λ chains. chains.nodes.items ≡ replicate processes free) }
        ensures ends { IfOk result (λ chains. chains.ends.items ≡ replicate lists no_ends) }
    {
        let nodes = vec![in alloc; FREE; usize::from(processes)]?;
        let empty = Ends {
            first: None,
            last: None,
        };
        let ends = vec![in alloc; empty; usize::from(lists)]?;
        Ok(Chains {
            nodes,
            ends,
            visits: Visits::new(),
        })
    }

    /// The number of processes.
    pub(crate) fn process_count(&self) -> usize
        ensures { result ≡ length self.now.nodes.items }
    {
        self.nodes.len()
    }

    /// The number of nodes that have been read or written so far; a join or a leave counts each end
    /// of a list that it writes, too.
    pub(crate) fn visits(&self) -> u64 {
        self.visits.count()
    }

    /// The node of the process. Every node is read here.
    pub(crate) fn node(&self, process: ProcessId) -> &Node
        requires { process < length self.now.nodes.items }
        ensures { result.now ≡ node_at self.now.nodes.items process }
    {
        self.visits.note();
        &self.nodes[process.place()]
    }

    /// The ends of the list.
    pub(crate) fn ends(&self, list: ListId) -> &Ends
        requires { list < length self.now.ends.items }
        ensures { result.now ≡ ends_at self.now.ends.items list }
    {
        &self.ends[list.place()]
    }

    /// Behind the first process comes the other one from now on; without a first process, the list
    /// begins with the other one.
    fn follow(&mut self, list: ListId, before: Option<ProcessId>, after: Option<ProcessId>)
        requires list { list < length self.old.ends.items }
        requires before { IsKnown self.old.nodes.items before }
        ensures nodes { self.new.nodes.items ≡ followed self.old.nodes.items before after }
        ensures ends { self.new.ends.items ≡ led self.old.ends.items list before after }
    {
        match before {
            Some(process) => self.nodes[process.place()].after = after,
            None => self.ends[list.place()].first = after,
        }
    }

    /// Before the first process comes the other one from now on; without a first process, the list
    /// ends with the other one.
    fn precede(&mut self, list: ListId, after: Option<ProcessId>, before: Option<ProcessId>)
        requires list { list < length self.old.ends.items }
        requires after { IsKnown self.old.nodes.items after }
        ensures nodes { self.new.nodes.items ≡ preceded self.old.nodes.items after before }
        ensures ends { self.new.ends.items ≡ trailed self.old.ends.items list after before }
    {
        match after {
            Some(process) => self.nodes[process.place()].before = before,
            None => self.ends[list.place()].last = before,
        }
    }

    /// The process is in the list from now on, at this place between two neighbours.
    pub(crate) fn join(&mut self, list: ListId, process: ProcessId, place: Node)
        requires list { list < length self.old.ends.items }
        requires process { process < length self.old.nodes.items }
        requires before { IsKnown self.old.nodes.items place.before }
        requires after { IsKnown self.old.nodes.items place.after }
        ensures nodes { self.new.nodes.items ≡ nodes_with self.old.nodes.items process place }
        ensures ends { self.new.ends.items ≡ ends_with self.old.ends.items list process place }
    {
        self.visits.note_all(TOUCHED);
        self.follow(list, place.before, Some(process));
        self.precede(list, place.after, Some(process));
        self.nodes[process.place()] = place;
    }

    /// The process, which is in the list at the place of its node, is in no list from now on.
    pub(crate) fn part(&mut self, list: ListId, process: ProcessId)
        requires list { list < length self.old.ends.items }
        requires process { process < length self.old.nodes.items }
        requires before { IsKnown self.old.nodes.items
            (node_at self.old.nodes.items process).before }
        requires after { IsKnown self.old.nodes.items (node_at self.old.nodes.items process).after }
        ensures nodes { self.new.nodes.items
            ≡ nodes_without self.old.nodes.items process (node_at self.old.nodes.items process) }
        ensures ends { self.new.ends.items
            ≡ ends_without self.old.ends.items list (node_at self.old.nodes.items process) }
    {
        self.visits.note_all(TOUCHED);
        let place = self.nodes[process.place()];
        self.follow(list, place.before, place.after);
        self.precede(list, place.after, place.before);
        self.nodes[process.place()] = FREE;
    }
}
