//! The data of a partition's table: its processes, its objects and its init list, and the texts of its
//! steps. What holds of every table that was read holds by the type.
#![tactic(auto)]

mod configs;
mod listed;
mod objects;
mod script_texts;
mod table;

pub use configs::{
    BlackboardConfig, BufferConfig, EventFlagConfig, MutexConfig, ProcessConfig, SemaphoreConfig,
};
pub use objects::Objects;
pub use script_texts::ScriptTexts;
pub use table::Table;
