//! A breadth-first search over any transition system. It finds a shortest way to what it looks for,
//! or shows that there is none, or says how deep it has looked by the time its room is full.
#![tactic(auto)]

mod answers;
mod desks;
mod fronts;
mod hits;
mod parts;
mod paths;
mod search;
mod searches;
mod systems;
mod taking;
mod watches;

pub use answers::Answer;
pub use desks::Desk;
pub use hits::is_hit;
pub use search::{Stop, explore};
pub use searches::{Places, Search};
pub use systems::{System, Taken};
pub use watches::{NoWatch, Watch};
