//! All faults of a table: the reader's first fault, then that of the table in which it is mended,
//! and so on; what is to be said of each one; and where it begins in the text.
#![tactic(auto)]

mod depth;
mod explaining;
mod findings;
mod listing;
mod locations;
mod mending;
mod offers;
mod outside;
mod paths;
mod plain;
mod scanning;
mod shown;
mod suggestions;
mod wanted;
mod wordings;

pub use findings::{Finding, LONGEST_LISTED, findings_of, limits_of_the_profile};
pub use listing::{MOST_FAULTS, faults};
pub use locations::{Location, locate};
pub use outside::{LeftOut, left_out};
pub use suggestions::nearest;
