//! The services and their calls: a row for each service, the call that it makes of its arguments, and
//! the text of a call.
#![tactic(auto)]

mod catalogue;
mod parts;

pub use catalogue::{
    CATALOGUE, Kind, MOST_SHAPES, MOST_WORD, Row, Service, Shape, row_of, row_of_word,
};
pub use parts::{Arguments, call_of, parts_of};
