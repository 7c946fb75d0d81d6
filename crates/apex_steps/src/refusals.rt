//! The reasons why a line is not carried out.
ghost use Rattle.std.specs.Prelude.{◌≡◌, ◌≤◌, length};
ghost use Rattle.apex_steps.specs.Texts.{reason_text};

/// The reason why a line is not carried out. Nothing changes then.
#[derive(Clone, Copy)]
pub(crate) enum Refusal {
    /// The line is no command.
    NoCommand,
    /// An item is of a core that the table lacks.
    NoSuchCore,
    /// No mark has this name.
    NoSuchMark,
    /// The line has more than 4,096 bytes.
    TooLong,
    /// The text ends before a line feed.
    NoLineFeed,
}

impl Refusal {
    /// The text of the reason.
    pub(crate) fn text(self) -> &'static str
        ensures text { result.now ≡ reason_text self }
        ensures short { length result.now ≤ 13 }
    {
        match self {
            Refusal::NoCommand => "no command",
            Refusal::NoSuchCore => "no such core",
            Refusal::NoSuchMark => "no such mark",
            Refusal::TooLong => "line too long",
            Refusal::NoLineFeed => "no line feed",
        }
    }
}
