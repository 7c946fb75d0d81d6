//! A search whose levels are split among threads. Its answer is that of one thread, and so is the order
//! in which it keeps the states.
#![tactic(auto)]

mod apart;
mod beginning;
mod expanding;
mod jobs;
mod laying;
mod taking;

pub use jobs::Jobs;
