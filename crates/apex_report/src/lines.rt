//! A line of a report.
use arrayvec::ArrayVec;

/// The most bytes of a line of a report, also of one of JSON.
pub(crate) const LINE_ROOM: usize = 1024;

/// A line of a report.
pub(crate) type Line = ArrayVec<u8, LINE_ROOM>;
