//! The partition under one lock: what holds of it whenever the lock is free, and what threads did.
#![tactic(auto)]

mod closed;
mod laws;
mod opening;
mod partitions;
mod published;
mod seats;
mod shared;

pub use apex_board::{Board, Front, NewBoard, Reader};
pub use apex_receipts::{Naming, Opened, Receipt};
pub use closed::Closed;
pub use laws::fronts_go_forward;
pub use opening::{open, open_read};
pub use partitions::Partition;
pub use published::Published;
pub use seats::{Seat, Ticker};
pub use shared::Shared;
