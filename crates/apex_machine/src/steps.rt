//! A step of a script or of an init list.
ghost use Rattle.std.specs.Prelude.{◌≡◌, ◌≤◌, [], length};
ghost use Rattle.apex_types.specs.declared.limits.TheConstants.{MOST_LITERAL};

use apex_types::{Call, MOST_LITERAL};
use arrayvec::ArrayVec;
use std::marker::Model;

/// The bytes that a step alone has, as a name that no entry has: 64 at the most, kept inline.
#[derive(Drop)]
pub struct Literal {
    bytes: ArrayVec<u8, MOST_LITERAL>,
}

impl Model for Literal {
    ghost use Rattle.std.specs.Prelude.{ℕ, List};

    ghost Value = { List ℕ };

    ghost view = { λ l. l.bytes.items };
}

impl Literal {
    /// The literal of no byte.
    pub fn new() -> Literal
        ensures { result ≡ [] }
    {
        Literal {
            bytes: ArrayVec::new(),
        }
    }

    /// The literal of these bytes. Takes no memory.
    pub fn of(bytes: &[u8]) -> Literal
        requires { length bytes.now ≤ MOST_LITERAL }
        ensures { result ≡ bytes.now }
    {
        let mut copied = ArrayVec::new();
        let taken = copied.try_extend_from_slice(bytes);
        let fits = taken.is_ok();
        prove!(fits);
        Literal { bytes: copied }
    }

    /// Its bytes, 64 at the most.
    pub fn as_bytes(&self) -> &[u8]
        ensures value { result.now ≡ self.now }
        ensures range { length result.now ≤ MOST_LITERAL }
    {
        self.bytes.as_slice()
    }
}

/// A step of a script or of the init list: its call, and the literal that the call names by the
/// step's origin.
#[derive(Drop)]
pub struct Step {
    call: Call,
    literal: Literal,
}

impl Model for Step {
    ghost use Rattle.apex_machine.specs.table.Table.{Step};

    ghost Value = { Step };

    ghost view = { λ s. record { call = s.call; literal = s.literal } };
}

impl Step {
    /// The step of this call, which names the literal by the step's origin, or no literal.
    pub fn new(call: Call, literal: Literal) -> Step
        ensures { result ≡ record { call = call; literal = literal } }
    {
        Step { call, literal }
    }

    /// The step of a call that names no literal.
    pub fn of(call: Call) -> Step
        ensures { result ≡ record { call = call; literal = [] } }
    {
        Step::new(call, Literal::new())
    }

    /// The call that the step asks for.
    pub fn call(&self) -> Call
        ensures { result ≡ self.now.call }
    {
        self.call
    }

    /// The literal that the call names. It has no byte if the call names none.
    pub fn literal(&self) -> &Literal
        ensures { result.now ≡ self.now.literal }
    {
        &self.literal
    }
}
