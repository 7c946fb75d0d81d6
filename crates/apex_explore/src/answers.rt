//! What a search answers.

/// What a search found.
#[derive(PartialEq, Eq, Drop)]
pub enum Answer {
    /// A shortest path of choices whose last one hits.
    Found(Vec<u32>),
    /// No path hits, and this many states are reached in all.
    Closed { states: usize },
    /// No path of at most `depth` choices hits, and paths of at most one choice more reach more
    /// states than there is room for.
    Full { depth: usize },
}
