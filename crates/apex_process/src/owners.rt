//! The owner of each mutex.
ghost use Rattle.std.specs.Prelude.{◌≡◌, ◌≢◌, ◌<◌, ℕ, true, false, ◌==◌, if◌then◌else◌, IfOk, MatchOption};
ghost use Rattle.apex_machine.specs.processes.Held.{holds};
ghost use Rattle.apex_links.specs.declared.numbers.TheConstants.{ID_PLACES};
ghost use Rattle.apex_process.specs.Owners.{is_owner, most_owners, IsFirstAmong, IsFirstOwner, IsUnowned};

use apex_links::ID_PLACES;
use apex_machine::Holding;
use apex_types::{MutexId, ProcessId};
use std::alloc::{AllocError, Global};
use std::marker::Model;

/// The owner of each mutex, as a word of bits: bit 63 - p is that of process p, so that the first
/// owner is at the end of the word's zeros.
#[derive(Drop)]
pub(crate) struct Owners {
    words: Vec<u64>,
}

impl Model for Owners {
    ghost use Rattle.std.specs.Prelude.{◌≡◌, ℕ, List, length};
    ghost use Rattle.apex_links.specs.declared.numbers.TheConstants.{ID_PLACES};

    ghost Value = { List ℕ };

    ghost view = { λ o. o.words.items };

    ghost invariant = { λ o. length o.words.items ≡ ID_PLACES };
}

/// The process of the lowest number whose bit is set.
fn first_among(word: u64) -> ProcessId
    requires { 0 < word }
    ensures { IsFirstAmong word result }
{
    ProcessId::at(word.leading_zeros() as u8)
}

impl Owners {
    /// The owners of mutexes that no process owns. Fails only for want of memory.
    pub(crate) fn new(alloc: Global) -> Result<Owners, AllocError>
        ensures { IfOk result (λ owners. (m p : ℕ) → is_owner owners m p ≡ false) }
    {
        Ok(Owners {
            words: vec![in alloc; 0; ID_PLACES]?,
        })
    }

    /// The process owns the mutex from now on.
    pub(crate) fn add(&mut self, mutex: MutexId, process: ProcessId)
        requires { process < most_owners }
        ensures same { (p : ℕ) → p < most_owners
            → is_owner self.new mutex p
            ≡ (if p == process then true else is_owner self.old mutex p) }
        ensures others { (m p : ℕ) → m ≢ mutex → is_owner self.new m p ≡ is_owner self.old m p }
    {
        self.words[mutex.place()] |= 1 << (63 - process.place());
    }

    /// The process no longer owns the mutex.
    fn remove(&mut self, mutex: MutexId, process: ProcessId)
        requires { process < most_owners }
        ensures same { (p : ℕ) → p < most_owners
            → is_owner self.new mutex p
            ≡ (if p == process then false else is_owner self.old mutex p) }
        ensures others { (m p : ℕ) → m ≢ mutex → is_owner self.new m p ≡ is_owner self.old m p }
    {
        self.words[mutex.place()] &= !(1 << (63 - process.place()));
    }

    /// The process, which holds these, owns no mutex from now on.
    pub(crate) fn leave(&mut self, process: ProcessId, held: &[Holding])
        requires process { process < most_owners }
        requires held { (m : ℕ) → m < ID_PLACES
            → is_owner self.old m process ≡ holds m held.now }
        ensures here { (m : ℕ) → m < ID_PLACES → is_owner self.new m process ≡ false }
        ensures others { (m p : ℕ) → p < most_owners → p ≢ process
            → is_owner self.new m p ≡ is_owner self.old m p }
    {
        for holding in held {
            self.remove(holding.mutex, process);
        }
    }

    /// The process, which owns no mutex, holds these from now on.
    fn enter(&mut self, process: ProcessId, held: &[Holding])
        requires process { process < most_owners }
        requires none { (m : ℕ) → m < ID_PLACES → is_owner self.old m process ≡ false }
        ensures here { (m : ℕ) → m < ID_PLACES → is_owner self.new m process ≡ holds m held.now }
        ensures others { (m p : ℕ) → p < most_owners → p ≢ process
            → is_owner self.new m p ≡ is_owner self.old m p }
    {
        for holding in held {
            self.add(holding.mutex, process);
        }
    }

    /// The process, which holds the first of these, holds the other from now on.
    pub(crate) fn change(&mut self, process: ProcessId, before: &[Holding], after: &[Holding])
        requires process { process < most_owners }
        requires held { (m : ℕ) → m < ID_PLACES
            → is_owner self.old m process ≡ holds m before.now }
        ensures here { (m : ℕ) → m < ID_PLACES
            → is_owner self.new m process ≡ holds m after.now }
        ensures others { (m p : ℕ) → p < most_owners → p ≢ process
            → is_owner self.new m p ≡ is_owner self.old m p }
    {
        self.leave(process, before);
        self.enter(process, after);
    }

    /// The process of the lowest number that owns the mutex.
    pub(crate) fn first(&self, mutex: MutexId) -> Option<ProcessId>
        ensures value { MatchOption result (IsUnowned self.now mutex)
            (λ p. IsFirstOwner self.now mutex p) }
        ensures known { mutex < ID_PLACES }
    {
        let word = self.words[mutex.place()];
        if word != 0 {
            return Some(first_among(word));
        }
        None
    }
}
