//! The mutexes that a process owns.
ghost use Rattle.std.specs.Prelude.{◌≡◌, ◌<◌, ◌≤◌, [], ◌∷◌, ◌++◌, length};
ghost use Rattle.apex_types.specs.declared.limits.TheConstants.{MOST_OWNED};
ghost use Rattle.apex_machine.specs.processes.Held.{at_depth, holding_of, holds, holds_none, in_order, inserted, raised, with_depth, without};

use apex_types::{MOST_OWNED, MutexId};
use std::marker::Model;

/// A mutex that a process owns, with its ceiling and depth (this profile).
#[derive(Clone, Copy, PartialEq, Eq)]
pub struct Holding {
    /// The mutex that is owned.
    pub mutex: MutexId,
    /// The priority to which the mutex raises its owner, 1 to 239.
    pub ceiling: u8,
    /// The number of times that the process acquired it and has not released it yet, 1 to 32.
    pub depth: u8,
}

/// The mutexes that a process owns, in the order in which it acquired them: [`MOST_OWNED`] at the
/// most.
#[derive(Clone, Copy)]
pub struct Holdings {
    /// Those that are owned, and fillers behind them: so holdings have one form alone.
    places: [Holding; MOST_OWNED],
    /// The number of those that are owned.
    count: u8,
}

impl Model for Holdings {
    ghost use Rattle.std.specs.Prelude.{List, take, length};
    ghost use Rattle.std.proofs.Common.{sym, length-take-le};
    ghost use Rattle.apex_machine.specs.declared.holdings.Holding.{Holding};
    ghost use Rattle.apex_machine.specs.processes.Held.{padded, AreHeldIn};

    ghost Value = { List Holding };

    ghost view = { λ a. take a.count a.places };

    ghost invariant = { λ a. AreHeldIn a.count a.places };

    ghost inverse = { λ held. record { places = padded held; count = length held } };

    ghost inverse_ok = { λ a h i. record {
      places = sym h.fillers i;
      count = length-take-le a.count a.places h.within i;
    } };
}

/// The holding, but at this depth if it is of this mutex.
fn at_depth(mutex: MutexId, depth: u8, holding: Holding) -> Holding
    ensures { result ≡ at_depth mutex depth holding }
{
    if holding.mutex == mutex {
        Holding { depth, ..holding }
    } else {
        holding
    }
}

/// The holding among others that are in order of their mutexes.
fn inserted(holding: &Holding, others: &[Holding]) -> Holdings
    requires { length others.now < MOST_OWNED }
    ensures value { result ≡ inserted holding.now others.now }
    ensures more { length result ≡ length (holding.now ∷ others.now) }
{
    let mut held = Holdings::none();
    let mut waits = true;
    for other in others {
        if waits && holding.mutex.place() < other.mutex.place() {
            held.push(*holding);
            waits = false;
        }
        held.push(*other);
    }
    if waits {
        held.push(*holding);
    }
    held
}

/// The holdings of a slice in order of their mutexes.
fn ordered(held: &[Holding]) -> Holdings
    requires { length held.now ≤ MOST_OWNED }
    ensures value { result ≡ in_order held.now }
    ensures many { length result ≡ length held.now }
{
    match held {
        [] => Holdings::none(),
        [first, others @ ..] => inserted(first, ordered(others).as_slice()),
    }
}

impl Holdings {
    /// No mutex is owned.
    pub fn none() -> Holdings
        ensures { result ≡ [] }
    {
        let filler = Holding {
            mutex: MutexId::at(0),
            ceiling: 0,
            depth: 0,
        };
        Holdings {
            places: [filler; MOST_OWNED],
            count: 0,
        }
    }

    /// One mutex is owned.
    pub fn one(holding: Holding) -> Holdings
        ensures { result ≡ holding ∷ [] }
    {
        let mut held = Holdings::none();
        held.push(holding);
        held
    }

    /// Another mutex is owned.
    pub fn push(&mut self, holding: Holding)
        requires { length self.old < MOST_OWNED }
        ensures { self.new ≡ self.old ++ holding ∷ [] }
    {
        self.places[usize::from(self.count)] = holding;
        self.count += 1;
    }

    /// The holdings, one for each mutex that is owned.
    pub fn as_slice(&self) -> &[Holding]
        ensures value { result.now ≡ self.now }
        ensures few_owned { length result.now ≤ MOST_OWNED }
    {
        &self.places[..usize::from(self.count)]
    }

    /// The number of mutexes that are owned.
    pub fn len(&self) -> usize
        ensures { result ≡ length self.now }
    {
        self.as_slice().len()
    }

    /// No mutex is owned.
    pub fn is_empty(&self) -> bool
        ensures { result ≡ holds_none self.now }
    {
        self.as_slice().is_empty()
    }

    /// The mutex is owned.
    pub fn holds(&self, mutex: MutexId) -> bool
        ensures { result ≡ holds mutex self.now }
    {
        self.as_slice().iter().any(|holding| holding.mutex == mutex)
    }

    /// The holding of the mutex, if it is owned.
    pub fn holding_of(&self, mutex: MutexId) -> Option<Holding>
        ensures { result ≡ holding_of mutex self.now }
    {
        for holding in self.as_slice() {
            if holding.mutex == mutex {
                return Some(*holding);
            }
        }
        None
    }

    /// The base priority, raised to the greatest ceiling of these mutexes.
    pub fn raised(&self, base: u8) -> u8
        ensures { result ≡ raised base self.now }
    {
        self.as_slice()
            .iter()
            .fold(base, |most, holding| most.max(holding.ceiling))
    }

    /// The same, but the mutex at this depth.
    pub fn with_depth(&self, mutex: MutexId, depth: u8) -> Holdings
        ensures { result ≡ with_depth mutex depth self.now }
    {
        let mut held = Holdings::none();
        for holding in self.as_slice() {
            held.push(at_depth(mutex, depth, *holding));
        }
        held
    }

    /// The same without this mutex.
    pub fn without(&self, mutex: MutexId) -> Holdings
        ensures { result ≡ without mutex self.now }
    {
        let mut held = Holdings::none();
        for holding in self.as_slice() {
            if holding.mutex != mutex {
                held.push(*holding);
            }
        }
        held
    }

    /// The same in order of the mutexes' numbers.
    pub fn in_order(&self) -> Holdings
        ensures value { result ≡ in_order self.now }
        ensures many { length result ≡ length self.now }
    {
        ordered(self.as_slice())
    }
}
