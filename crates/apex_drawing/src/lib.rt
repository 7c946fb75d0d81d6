//! The drawing of a partition's history while it runs, as SVG or as a trace.
#![tactic(auto)]

mod courses;
mod drawing;
mod pages;
mod styles;

pub use drawing::{DrawFault, draw};
pub use styles::Style;
