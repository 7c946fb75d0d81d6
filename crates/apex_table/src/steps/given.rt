//! The values of the words of a step, one after the other.
ghost use Rattle.std.specs.Prelude.{◌≡◌};
ghost use Rattle.apex_words.specs.Outcome.{Gives};
ghost use Rattle.apex_table.specs.Steps.{nothing, with_entry, with_message, with_mode, with_name, with_number, with_timeout, with_word};

use crate::keys::well_formed;
use crate::names::Names;
use apex_calls::{Arguments, Shape};
use apex_machine::Literal;
use apex_types::{Message, Name, Named, Origin, RequestedMode, Timeout};
use apex_words::{
    Subject, TableFault, entry_of, message_bytes, number, place_of_name, requested_mode, timeout,
};
use std::marker::Model;

/// The values of the words so far: the arguments of the call, and the literal of the step.
#[derive(Drop)]
pub struct Given {
    /// The arguments that the words so far give.
    pub arguments: Arguments,
    /// The bytes of a message, or of a name that no entry has. No byte if no word so far is such.
    pub literal: Literal,
}

impl Model for Given {
    ghost use Rattle.apex_table.specs.Steps.{Given};

    ghost Value = { Given };

    ghost view = { λ g. record { arguments = g.arguments; literal = g.literal } };
}

impl Given {
    /// The values of no word.
    pub fn nothing() -> Given
        ensures { result ≡ nothing }
    {
        Given {
            arguments: Arguments::none(),
            literal: Literal::new(),
        }
    }

    fn with_entry(self, entry: u8) -> Given
        ensures { result ≡ with_entry self entry }
    {
        let arguments = Arguments {
            entry,
            ..self.arguments
        };
        Given { arguments, ..self }
    }

    fn with_number(self, number: u32) -> Given
        ensures { result ≡ with_number self number }
    {
        let arguments = Arguments {
            number,
            ..self.arguments
        };
        Given { arguments, ..self }
    }

    fn with_timeout(self, timeout: Timeout) -> Given
        ensures { result ≡ with_timeout self timeout }
    {
        let arguments = Arguments {
            timeout,
            ..self.arguments
        };
        Given { arguments, ..self }
    }

    fn with_mode(self, mode: RequestedMode) -> Given
        ensures { result ≡ with_mode self mode }
    {
        let arguments = Arguments {
            mode,
            ..self.arguments
        };
        Given { arguments, ..self }
    }

    /// A name that no entry has is the literal of the step of this origin.
    fn with_name(self, origin: &Origin, name: &Name, place: Option<u8>) -> Given
        ensures { result ≡ with_name self origin.now name.now place }
    {
        match place {
            Some(place) => {
                let arguments = Arguments {
                    named: Named::Known(place),
                    ..self.arguments
                };
                Given { arguments, ..self }
            }
            None => Given {
                arguments: Arguments {
                    named: Named::Unknown(*origin),
                    ..self.arguments
                },
                literal: Literal::of(name.as_bytes()),
            },
        }
    }

    /// The bytes of a message are the literal of the step of this origin.
    fn with_message(self, origin: &Origin, bytes: Literal) -> Given
        ensures { result ≡ with_message self origin.now bytes }
    {
        let message = Message {
            origin: *origin,
            length: bytes.as_bytes().len() as u8,
        };
        Given {
            arguments: Arguments {
                message,
                ..self.arguments
            },
            literal: bytes,
        }
    }
}

/// The values with that of a word of this shape, after those before it, in the step of this origin.
#[tactic(auto, unfolding(crate::specs::Steps::with_word))]
pub fn with_word(
    subject: Subject,
    origin: &Origin,
    names: &Names,
    given: Given,
    shape: &Shape,
    word: &str,
) -> Result<Given, TableFault>
    ensures { Gives (λ g. g) result
        (with_word subject origin.now names.now given shape.now word.now) }
{
    match shape {
        Shape::Entry(kind) => Ok(given.with_entry(entry_of(subject, names.of_kind(kind), word)?)),
        Shape::Named(kind) => {
            let name = well_formed(subject, word)?;
            let place = place_of_name(names.of_kind(kind), name.as_bytes());
            Ok(given.with_name(origin, &name, place))
        }
        Shape::Number(low, high) => Ok(given.with_number(number(subject, *low, *high, word)?)),
        Shape::Timeout => Ok(given.with_timeout(timeout(subject, word)?)),
        Shape::Message => Ok(given.with_message(origin, message_bytes(subject, word)?)),
        Shape::Mode => match requested_mode(word) {
            Some(mode) => Ok(given.with_mode(mode)),
            None => Err(TableFault::BadStep(subject)),
        },
    }
}
