//! The facts of an entry, and sets of them.
ghost use Rattle.std.specs.Prelude.{◌≡◌, ◌≤◌, [], ◌∷◌, length, not};
ghost use Rattle.std.specs.List.{filter, list_any};
ghost use Rattle.apex_questions.specs.Facts.{all_facts, has_none, is_fact};
ghost use Rattle.apex_questions.specs.declared.facts.TheConstants.{MOST_FACTS};

use apex_types::ReturnCode;
use arrayvec::ArrayVec;
use std::marker::Model;

/// The most facts of a set.
pub const MOST_FACTS: usize = 16;

/// A fact of an entry.
#[derive(Clone, Copy, PartialEq, Eq)]
pub enum Fact {
    /// A process missed its deadline.
    Missed,
    /// A process missed a hard deadline.
    HardMissed,
    /// A wait ended with TIMED_OUT.
    TimedOut,
    /// Work was lost.
    Lost,
    /// A call was answered with GONE: its caller came to the end of its script, stopped itself, or
    /// set the mode to IDLE.
    Ended,
    /// A call was answered with this code.
    Refused(ReturnCode),
    /// A job ended with PERIODIC_WAIT this many ticks after the process's last release or later, or
    /// more than a period after it.
    Response(u64),
    /// The entry leaves a standstill: in NORMAL a process is started, but no core has a process to
    /// run, and no wait ends by itself and no deadline passes ever more.
    Standstill,
}

impl Default for Fact {
    fn default() -> Fact {
        Fact::Missed
    }
}

/// Each fact that takes no number, and each code with which services refuse a call.
const ALL: [Fact; 11] = [
    Fact::Missed,
    Fact::HardMissed,
    Fact::TimedOut,
    Fact::Lost,
    Fact::Ended,
    Fact::Standstill,
    Fact::Refused(ReturnCode::NoAction),
    Fact::Refused(ReturnCode::NotAvailable),
    Fact::Refused(ReturnCode::InvalidParam),
    Fact::Refused(ReturnCode::InvalidConfig),
    Fact::Refused(ReturnCode::InvalidMode),
];

/// A set of facts: [`MOST_FACTS`] at the most, kept inline.
#[derive(Drop)]
pub struct Facts {
    facts: ArrayVec<Fact, MOST_FACTS>,
}

impl Model for Facts {
    ghost use Rattle.std.specs.Prelude.{List};
    ghost use Rattle.apex_questions.specs.declared.facts.Fact.{Fact};

    ghost Value = { List Fact };

    ghost view = { λ a. a.facts.items };
}

impl Fact {
    /// The two facts are the same.
    fn is(self, other: Fact) -> bool
        ensures { result ≡ is_fact self other }
    {
        self == other
    }
}

impl Facts {
    /// The facts of this slice.
    pub fn of(facts: &[Fact]) -> Facts
        requires { length facts.now ≤ MOST_FACTS }
        ensures { result ≡ facts.now }
    {
        let mut taken = ArrayVec::new();
        let done = taken.try_extend_from_slice(facts);
        let fits = done.is_ok();
        prove!(fits);
        Facts { facts: taken }
    }

    /// This fact alone.
    pub fn one(fact: Fact) -> Facts
        ensures { result ≡ fact ∷ [] }
    {
        Facts::of(&[fact])
    }

    /// All facts but responses, of which there is one for each number of ticks, and codes with which
    /// no service refuses a call.
    pub fn all() -> Facts
        ensures { result ≡ all_facts }
    {
        Facts::of(&ALL)
    }

    /// The set has this fact.
    pub fn contains(&self, fact: Fact) -> bool
        ensures { result ≡ list_any (is_fact fact) self.now }
    {
        self.as_slice().iter().any(|other| fact.is(*other))
    }

    /// The set, but for this fact.
    pub fn without(&self, fact: Fact) -> Facts
        ensures { result ≡ filter (λ other. not (is_fact fact other)) self.now }
    {
        let mut others = ArrayVec::new();
        for other in self.as_slice() {
            if !fact.is(*other) {
                others.push(*other);
            }
        }
        Facts { facts: others }
    }

    /// The set has no fact.
    pub fn is_empty(&self) -> bool
        ensures { result ≡ has_none self.now }
    {
        self.as_slice().is_empty()
    }

    /// The facts, in the order in which the set was made of them.
    pub fn as_slice(&self) -> &[Fact]
        ensures value { result.now ≡ self.now }
        ensures few { length result.now ≤ MOST_FACTS }
    {
        self.facts.as_slice()
    }
}
