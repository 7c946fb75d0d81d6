//! Receipts of a history under a lock: each entry gives its maker a receipt, which agrees with the
//! history whenever the lock is taken again.
#![tactic(auto)]

mod keeping;
mod law;
mod meetings;
mod naming;
mod opened;
mod receipts;
mod scribes;
mod speakers;
mod stories;
mod voices;

pub use naming::Naming;
pub use opened::Opened;
pub use receipts::Receipt;
pub use scribes::Scribe;
pub use stories::Story;
pub use voices::Voice;
