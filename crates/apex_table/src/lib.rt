//! The partition table: the reading of a table's text, which gives a table or its first fault.
#![tactic(auto)]

mod blackboards;
mod buffers;
mod default_init;
mod event_flags;
mod init;
mod keys;
mod mutexes;
mod named;
mod names;
mod objects;
mod processes;
mod reading;
mod scripts;
mod sections;
mod semaphores;
mod steps;
mod texts;

pub use reading::read_table;
