//! What the choices in some states do.
use crate::finds::Finds;

/// What the choices in the states of a batch do.
#[derive(Drop)]
pub struct Expansion {
    /// The states to which they go on, in order.
    pub finds: Finds,
    /// The place after the last state that is done.
    pub end: usize,
    /// The choice that hits in the state at that place. If there is one, the expansion ends there.
    pub hit: Option<u32>,
}
