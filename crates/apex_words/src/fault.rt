//! The faults of a table's text, and their places.
ghost use Rattle.std.specs.Prelude.{◌≡◌, ◌+◌, ◌<◌, ◌≤◌, length, Some};
ghost use Rattle.apex_types.specs.declared.limits.TheConstants.{MOST_INIT_STEPS};
ghost use Rattle.apex_words.specs.Fault.{section_word, place_text, parts_of, fault_text};
ghost use Rattle.apex_words.specs.Outcome.{place};
ghost use Rattle.apex_words.specs.declared.fault.TableFault.TheVariants.{Memory};

use crate::subject::Subject;
use std::alloc::{AllocError, AllocFailed};
use std::error::Error;
use std::fmt;

/// A section of the table's text: its top, the entries of one kind, or the init list.
#[derive(Clone, Copy, PartialEq, Eq)]
pub enum Section {
    /// The table as a whole, which has the keys that belong to no entry.
    Top,
    Process,
    Semaphore,
    Buffer,
    Blackboard,
    EventFlag,
    Mutex,
    Init,
}

impl Section {
    /// The section's word in the text of a fault.
    pub fn word(self) -> &'static str
        ensures word { result.now ≡ section_word self }
        ensures short { length result.now ≤ 10 }
    {
        match self {
            Section::Top => "top",
            Section::Process => "process",
            Section::Semaphore => "semaphore",
            Section::Buffer => "buffer",
            Section::Blackboard => "blackboard",
            Section::EventFlag => "event",
            Section::Mutex => "mutex",
            Section::Init => "init",
        }
    }
}

impl fmt::Display for Section {
    ghost output = { λ section. Some (section_word section) };

    fn fmt<W: fmt::Write>(&self, f: &mut fmt::Formatter<W>) -> fmt::Result {
        f.write_str(self.word())
    }
}

/// The place of a fault: an entry of a section, counted from 1, or 0 for the section as a whole.
#[derive(Clone, Copy, PartialEq, Eq)]
pub struct Place {
    /// The section that is meant, or that has the entry.
    pub section: Section,
    /// The entry or the init step, counted from 1, or 0 for the section as a whole.
    pub number: u32,
}

impl fmt::Display for Place {
    ghost output = { λ place. Some (place_text place) };

    fn fmt<W: fmt::Write>(&self, f: &mut fmt::Formatter<W>) -> fmt::Result {
        let section = self.section;
        let number = self.number;
        write!(f, "{section} {number}")
    }
}

impl Place {
    /// The section as a whole.
    pub fn of(section: Section) -> Place
        ensures { result ≡ place section 0 }
    {
        Place { section, number: 0 }
    }

    /// The entry after the first `count` ones of the section.
    pub fn next(section: Section, count: usize) -> Place
        requires { count < MOST_INIT_STEPS }
        ensures { result ≡ place section (count + 1) }
    {
        Place {
            section,
            number: count as u32 + 1,
        }
    }
}

/// The reason why a text is no table: the first of its faults in the order of the checks with what
/// it is about, or want of memory.
#[derive(Clone, Copy, PartialEq, Eq)]
pub enum TableFault {
    /// A growth was refused.
    Memory,
    /// The text is no TOML, or no UTF-8.
    NotToml,
    /// A key without a default is absent, or there is no process.
    MissingKey(Subject),
    /// A value has another type than its key's.
    WrongType(Subject),
    /// A number is out of its range, a text is none of its key's words, or a script that begins
    /// anew has no step.
    OutOfRange(Subject),
    /// A name has no byte, more than 30, or one that is not visible.
    BadName(Subject),
    /// An earlier entry of the section has the name.
    DoubleName(Subject),
    /// A step names no entry of its kind.
    UnknownName(Subject),
    /// A key that the section does not have.
    UnknownKey(Subject),
    /// A step has no service's form.
    BadStep(Subject),
    /// A step of the init list that only a script may have.
    BadInitStep(Subject),
    /// A section, a script or the init list is too long.
    TooMany(Subject),
}

impl TableFault {
    /// The fault's word, and what the fault is about. The fault's text is the word, or the word,
    /// ` in ` and the subject's place.
    pub fn parts(self) -> (&'static str, Option<Subject>)
        ensures word { result.0.now ≡ (parts_of self).0 }
        ensures subject { result.1 ≡ (parts_of self).1 }
        ensures short { length result.0.now ≤ 11 }
    {
        match self {
            TableFault::Memory => ("Memory", None),
            TableFault::NotToml => ("NotToml", None),
            TableFault::MissingKey(subject) => ("MissingKey", Some(subject)),
            TableFault::WrongType(subject) => ("WrongType", Some(subject)),
            TableFault::OutOfRange(subject) => ("OutOfRange", Some(subject)),
            TableFault::BadName(subject) => ("BadName", Some(subject)),
            TableFault::DoubleName(subject) => ("DoubleName", Some(subject)),
            TableFault::UnknownName(subject) => ("UnknownName", Some(subject)),
            TableFault::UnknownKey(subject) => ("UnknownKey", Some(subject)),
            TableFault::BadStep(subject) => ("BadStep", Some(subject)),
            TableFault::BadInitStep(subject) => ("BadInitStep", Some(subject)),
            TableFault::TooMany(subject) => ("TooMany", Some(subject)),
        }
    }
}

impl fmt::Display for TableFault {
    ghost output = { λ fault. Some (fault_text fault) };

    fn fmt<W: fmt::Write>(&self, f: &mut fmt::Formatter<W>) -> fmt::Result {
        let (word, subject) = self.parts();
        match subject {
            None => f.write_str(word),
            Some(subject) => {
                let place = subject.place;
                write!(f, "{word} in {place}")
            }
        }
    }
}

/// A programmer reads the fault's text, too.
impl fmt::Debug for TableFault {
    fn fmt<W: fmt::Write>(&self, f: &mut fmt::Formatter<W>) -> fmt::Result {
        fmt::Display::fmt(self, f)
    }
}

impl Error for TableFault {}

impl From<AllocError> for TableFault {
    ghost from_gives = { λ _ e. e ≡ Memory };

    fn from(_e: AllocError) -> TableFault {
        TableFault::Memory
    }
}

impl<T: Drop> From<AllocFailed<T>> for TableFault {
    ghost from_gives = { λ _ e. e ≡ Memory };

    fn from(_e: AllocFailed<T>) -> TableFault {
        TableFault::Memory
    }
}
