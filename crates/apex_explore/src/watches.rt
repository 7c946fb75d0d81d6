//! What looks on while a search runs.

/// It looks on while a search runs, and has no say in it.
pub trait Watch {
    /// The search has reached this many states, and goes on from one that is `depth` choices away from
    /// the first one.
    fn reached(&mut self, states: usize, depth: usize);
}

/// Nothing looks on.
#[derive(Clone, Copy)]
pub struct NoWatch;

impl Watch for NoWatch {
    fn reached(&mut self, _states: usize, _depth: usize) {}
}
