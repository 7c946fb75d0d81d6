//! The axis of a picture.

/// The axis along which the columns of a picture stand.
#[derive(Clone, Copy, PartialEq, Eq)]
pub enum Axis {
    /// By the numbers of their entries: they stand side by side.
    Entries,
    /// By the times of their entries: ticks without an entry have room of their own.
    Time,
}
