//! The objects of a partition, the service of every call, and the status listing, over any store.
#![tactic(auto)]

mod listing;
mod objects;
mod services;
mod waiters;

pub use listing::Listing;
pub use objects::Objects;
pub use services::{ProcessObject, serve};
pub use waiters::{Waiters, waiters_in};
