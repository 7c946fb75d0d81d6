//! The report of one avionics partition: figures of each process, each core, each object and each
//! service, computed from a history in one pass. They answer whether a process misses its deadline, what
//! its response times are, what each core does, how full the objects and their queues get, and which
//! services refuse calls.
#![tactic(auto)]

mod cores;
mod job_figures;
mod jobs;
mod json_printing;
mod laws;
mod lines;
mod members;
mod object_rows;
mod objects;
mod ownerships;
mod printing;
mod processes;
mod queues;
mod refusals;
mod reports;
mod rows;
mod services;
mod waits;

pub use cores::CoreFigures;
pub use job_figures::JobFigures;
pub use jobs::Job;
pub use json_printing::print_report_json;
pub use laws::{owners_are_the_rosters, working_is_open_work};
pub use objects::{Level, ObjectFigures};
pub use ownerships::{Owner, Ownership};
pub use printing::print_report;
pub use processes::ProcessFigures;
pub use refusals::Refusals;
pub use reports::{Report, report_of};
pub use services::ServiceFigures;
