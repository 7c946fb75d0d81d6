//! Partitions by hand, and by the seats that share them.

mod alone;
mod readers;
mod scenes;

pub use scenes::{Scene, act_out};
