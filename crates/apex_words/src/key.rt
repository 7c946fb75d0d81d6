//! The keys of a table.
ghost use Rattle.std.specs.Prelude.{◌≡◌};
ghost use Rattle.apex_words.specs.Fault.{key_word};

use crate::fault::Section;

/// A key of the table's top, or of an entry: [`Key::word`] writes it.
#[derive(Clone, Copy, PartialEq, Eq)]
pub enum Key {
    Profile,
    Cores,
    History,
    /// The key of this section, at the table's top.
    Entries(Section),
    Name,
    Priority,
    Core,
    Period,
    Capacity,
    Deadline,
    Loop,
    Start,
    Script,
    Maximum,
    Initial,
    Discipline,
    Length,
    Ceiling,
}

impl Key {
    /// The key as the table's text has it.
    pub fn word(self) -> &'static str
        ensures { result.now ≡ key_word self }
    {
        match self {
            Key::Profile => "profile",
            Key::Cores => "cores",
            Key::History => "history",
            Key::Entries(section) => section.word(),
            Key::Name => "name",
            Key::Priority => "priority",
            Key::Core => "core",
            Key::Period => "period",
            Key::Capacity => "capacity",
            Key::Deadline => "deadline",
            Key::Loop => "loop",
            Key::Start => "start",
            Key::Script => "script",
            Key::Maximum => "maximum",
            Key::Initial => "initial",
            Key::Discipline => "discipline",
            Key::Length => "length",
            Key::Ceiling => "ceiling",
        }
    }
}
