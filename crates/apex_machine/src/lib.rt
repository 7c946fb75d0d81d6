//! The machine that every other crate is proved against: records and a history, with no ready order,
//! no wait queue and no object value (ARINC 653 Part 1, APEX).
//!
//! `specs/` holds its definitions: read them from `Machine.antt` down. The code is the record of a
//! process with its rules, the sooner of two instants, and a step of a table.
#![tactic(auto)]

mod holdings;
mod instants;
mod profiles;
mod records;
mod steps;
mod works;

pub use holdings::{Holding, Holdings};
pub use instants::sooner;
pub use profiles::Profile;
pub use records::{Attributes, Queue, Record, Suspender, Wait};
pub use steps::{Literal, Step};
pub use works::{OpenWork, Work};
