//! Why a case was not played to its end.
use std::alloc::AllocError;
use std::io;

/// The reason why a case is not as it should be, was not played to its end, or no report was
/// written.
#[derive(Clone, Copy)]
pub enum CaseFault {
    /// The outcome is not the expected one. The report has the difference.
    Differs,
    /// The outcome is the expected one, and must be another one.
    Alike,
    Memory,
    Stream,
    Text,
    /// A line of the outline has too few words.
    Outline,
    NoLines,
    NoFolder,
    /// A line `edit` has no arrow, or its text or that of a line `at` is not in the table.
    Edit,
    Reading,
    Number,
    Arguments,
    Fold,
    /// A kernel over a store without lists, which `check` has, makes another history than the
    /// program, whose lists are linked.
    Plain,
}

impl CaseFault {
    /// The fault in words.
    pub fn text(self) -> &'static str {
        match self {
            CaseFault::Differs => "another outcome",
            CaseFault::Alike => "it must differ",
            CaseFault::Memory => "out of memory",
            CaseFault::Stream => "a stream or a file failed",
            CaseFault::Text => "the text is no UTF-8",
            CaseFault::Outline => "ill-formed outline",
            CaseFault::NoLines => "no line of a history",
            CaseFault::NoFolder => "no folder of cases",
            CaseFault::Edit => "no such edit",
            CaseFault::Reading => "ill-formed reading",
            CaseFault::Number => "no number",
            CaseFault::Arguments => "no arguments, or arguments twice",
            CaseFault::Fold => "ill-formed fold",
            CaseFault::Plain => "another history without lists",
        }
    }
}

impl From<AllocError> for CaseFault {
    fn from(_error: AllocError) -> CaseFault {
        CaseFault::Memory
    }
}

impl From<io::Error> for CaseFault {
    fn from(_error: io::Error) -> CaseFault {
        CaseFault::Stream
    }
}
