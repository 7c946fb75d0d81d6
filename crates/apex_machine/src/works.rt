//! Work that a process has begun.

use apex_types::{ProcessId, Span};

/// Work of n units that a process has begun, n from 1 to 1,048,576 (this profile).
#[derive(Clone, Copy)]
pub struct Work {
    /// The process that began it.
    pub process: ProcessId,
    /// Its units.
    pub amount: Span,
}

/// Work that a core has begun and not ended.
#[derive(Clone, Copy)]
pub struct OpenWork {
    /// The work that was begun.
    pub work: Work,
    /// Its process has been the core's chosen one ever since.
    pub unbroken: bool,
}
