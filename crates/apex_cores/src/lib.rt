//! The cores of a partition at work: a thread for each of them and one for the ticker, and what the
//! closed history has of each.
#![tactic(auto)]

mod cores;
mod faults;
mod gates;
mod plans;
mod pool;
mod runs;
mod starts;
mod ticking;

pub use cores::{CoreReport, run_core};
pub use faults::RunFault;
pub use gates::Gate;
pub use plans::RunPlan;
pub use runs::{run_partition, run_partition_read, run_partition_with};
pub use starts::{EveryThread, Starts};
pub use ticking::{TickerReport, run_ticker};
