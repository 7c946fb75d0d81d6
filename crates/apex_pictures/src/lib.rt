//! Pictures of a partition's history as SVG: the state of each process after each entry, the calls and
//! the notices.
#![tactic(auto)]

mod axes;
mod borders;
mod columns;
mod excerpts;
mod frames;
mod laws;
mod looks;
mod marks;
mod rows;
mod svg;

pub use borders::{put_foot, put_head};
pub use columns::Columns;
pub use excerpts::{Excerpt, Extent, MOST_COLUMNS, Side, Timed};
pub use frames::Frame;
pub use laws::{columns_are_apart, eventless_cells_stay, limits_of_the_profile};
pub use marks::Mark;
pub use rows::{Rows, Selection};
pub use svg::put_column;
