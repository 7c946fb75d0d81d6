//! Why the machine makes the entry that it makes: who acts, by which step, and the guard or the
//! rule that decides the reply. A reason is read off a situation before the event, and changes
//! nothing.
#![tactic(auto)]

mod callers;
mod effects;
mod guards;
mod object_rows;
mod reasons;
mod rows;
mod rules;
mod texts;

pub use guards::Guard;
pub use reasons::{Reason, reason_of};
pub use rules::{Rule, WaitCause};
pub use texts::ReasonText;
