//! The calls of a log's entries.
ghost use Rattle.std.specs.Prelude.{◌≡◌, ◌<◌, ◌≤◌, [], length, slice_get, Some, IfOk, IfSome};
ghost use Rattle.apex_types.specs.declared.limits.TheConstants.{MOST_ENTRIES};
ghost use Rattle.apex_history.specs.StoredEntries.{GrowsTo};

use crate::steps::is_same;
use apex_types::{Call, Caller, MOST_PROCESSES, MOST_STEPS, ProcessId};
use std::alloc::{AllocError, Global};
use std::marker::Model;
use std::mem;

/// A call in the ring of its process.
#[derive(Drop)]
pub(crate) struct Link {
    pub(crate) call: Call,
    /// The place of the call behind it in the ring.
    next: u32,
}

const _: () = prove!(size_of::<Link>() == 28);

impl Model for Link {
    ghost use Rattle.apex_history.specs.Terms.{Call};

    ghost Value = { Call };

    ghost view = { λ l. l.call };
}

/// The ring of a process.
#[derive(Clone, Copy)]
struct Ring {
    /// The place of the call that the process is expected to make next.
    next: u32,
    /// The place of the call that came last into the ring.
    last: u32,
    /// The number of its calls.
    count: u32,
}

impl Ring {
    /// Whether each call comes into the ring, also one that is there: it has fewer calls than a
    /// script may have steps.
    fn grows(&self) -> bool {
        self.count < MOST_STEPS as u32
    }
}

/// The calls of a log's entries. The first ones of a process, as many as a script may have steps,
/// lie in a ring, in their order. Scripts loop, so that a later call is mostly the one behind the
/// latest. If it is another, it is looked for in the ring. No place in a ring has an effect on an
/// entry.
#[derive(Drop)]
pub(crate) struct Calls {
    links: Vec<Link>,
    rings: [Option<Ring>; MOST_PROCESSES],
}

impl Model for Calls {
    ghost use Rattle.std.specs.Prelude.{vec_capacity};
    ghost use Rattle.apex_history.specs.StoredEntries.{CallList};

    ghost Value = { CallList };

    ghost view = { λ c. record {
      calls = c.links.items;
      room = vec_capacity c.links;
    } };
}

impl Calls {
    /// No call, and the memory for `limit` of them.
    pub(crate) fn new(alloc: Global, limit: u32) -> Result<Calls, AllocError>
        requires { limit ≤ MOST_ENTRIES }
        ensures calls { IfOk result (λ made. made.calls ≡ []) }
        ensures room { IfOk result (λ made. limit ≤ made.room) }
    {
        let links = Vec::with_capacity(alloc, limit as usize)?;
        Ok(Calls {
            links,
            rings: [None; MOST_PROCESSES],
        })
    }

    /// The calls, each at its place.
    pub(crate) fn as_slice(&self) -> &[Link]
        ensures { result.now ≡ self.now.calls }
    {
        self.links.as_slice()
    }

    /// The place of the call if it is the one that the process is expected to make.
    #[inline(always)]
    fn expected(&mut self, process: ProcessId, call: Call) -> Option<u32>
        ensures calls { self.new ≡ self.old }
        ensures place { IfSome result (λ place. slice_get self.new.calls place ≡ Some call) }
    {
        let ring = self.rings.get_mut(process.place())?.as_mut()?;
        if ring.grows() {
            return None;
        }
        let place = ring.next;
        let link = self.links.get(place as usize)?;
        if !is_same(&link.call, &call) {
            return None;
        }
        ring.next = link.next;
        Some(place)
    }

    /// The place of the call in the ring that begins with this one, or else the place of the ring's
    /// last call.
    fn find(&self, first: u32, call: &Call) -> Result<u32, u32>
        ensures { IfOk result (λ place. slice_get self.now.calls place ≡ Some call.now) }
    {
        let mut place = first;
        for _ in 0..MOST_STEPS {
            let link = self.links.get(place as usize).ok_or(place)?;
            if is_same(&link.call, call) {
                return Ok(place);
            }
            if link.next == first {
                break;
            }
            place = link.next;
        }
        Err(place)
    }

    /// The place of the call in the ring, or else the place of the one that it is to be put behind.
    /// While the ring grows, each call is put behind the last one.
    fn place_in(&self, ring: &Ring, call: &Call) -> Result<u32, u32>
        ensures { IfOk result (λ place. slice_get self.now.calls place ≡ Some call.now) }
    {
        if ring.grows() {
            return Err(ring.last);
        }
        self.find(ring.next, call)
    }

    /// Puts the call behind this one into its ring, or into a ring of its own.
    fn add(&mut self, behind: Option<u32>, call: &Call) -> u32
        requires room { length self.old.calls < self.old.room }
        requires few { length self.old.calls < MOST_ENTRIES }
        ensures place { slice_get self.new.calls result ≡ Some call.now }
        ensures calls { GrowsTo self.old.calls self.new.calls }
        ensures room { self.new.room ≡ self.old.room }
    {
        let place = self.links.len() as u32;
        let mut next = place;
        if let Some(behind) = behind {
            if let Some(link) = self.links.get_mut(behind as usize) {
                next = mem::replace(&mut link.next, place);
            }
        }
        self.links.push_reserved(Link { call: *call, next });
        place
    }

    /// The place of the call in the ring of the process, into which it is put if the ring grows or
    /// lacks it.
    #[inline(never)]
    fn put_in_ring(&mut self, process: ProcessId, call: &Call) -> u32
        requires room { length self.old.calls < self.old.room }
        requires few { length self.old.calls < MOST_ENTRIES }
        ensures place { slice_get self.new.calls result ≡ Some call.now }
        ensures calls { GrowsTo self.old.calls self.new.calls }
        ensures room { self.new.room ≡ self.old.room }
    {
        let (place, last, count) = match self.rings.get(process.place()).copied().flatten() {
            Some(ring) => match self.place_in(&ring, call) {
                Ok(place) => (place, ring.last, ring.count),
                Err(behind) => {
                    let place = self.add(Some(behind), call);
                    (place, place, ring.count.saturating_add(1))
                }
            },
            None => {
                let place = self.add(None, call);
                (place, place, 1)
            }
        };
        let next = self.links.get(place as usize).map(|link| link.next);
        if let Some(ring) = self.rings.get_mut(process.place()) {
            *ring = next.map(|next| Ring { next, last, count });
        }
        place
    }

    /// The place of the caller's call, which is put behind all others if the caller's ring grows or
    /// lacks it. Takes no memory.
    // The call comes as a value, so that the rest of its entry need not lie in memory.
    #[inline(always)]
    pub(crate) fn put(&mut self, caller: &Caller, call: Call) -> u32
        requires room { length self.old.calls < self.old.room }
        requires few { length self.old.calls < MOST_ENTRIES }
        ensures place { slice_get self.new.calls result ≡ Some call }
        ensures calls { GrowsTo self.old.calls self.new.calls }
        ensures room { self.new.room ≡ self.old.room }
    {
        match caller {
            Caller::Process(process) => match self.expected(*process, call) {
                Some(place) => place,
                None => self.put_in_ring(*process, &call),
            },
            Caller::Init | Caller::Nobody => self.add(None, &call),
        }
    }
}
