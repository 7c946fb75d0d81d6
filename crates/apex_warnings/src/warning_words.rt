//! The words by which warnings are left out.
ghost use Rattle.std.specs.Prelude.{◌≡◌, map, option_map, IfOk};
ghost use Rattle.apex_warnings.specs.WarningWords.{allowed_in, are_warning_words, is_among, is_warning_word, parts, process_word, step_word, warning_word};

use crate::process_warnings::ProcessWarning;
use crate::step_warnings::StepWarning;
use crate::warnings::Warning;
use std::alloc::{AllocError, Global};

impl ProcessWarning {
    /// The word by which such warnings are left out.
    pub fn word(self) -> &'static str
        ensures { result.now ≡ process_word self }
    {
        match self {
            ProcessWarning::EmptyScript => "empty-script",
            ProcessWarning::NotStarted => "not-started",
            ProcessWarning::CapacityAbovePeriod => "capacity-above-period",
            ProcessWarning::NoPeriodicWait => "no-periodic-wait",
            ProcessWarning::MuchWork => "much-work",
        }
    }
}

impl StepWarning {
    /// The word by which such warnings are left out.
    pub fn word(self) -> &'static str
        ensures { result.now ≡ step_word self }
    {
        match self {
            StepWarning::MessageRefused => "message-refused",
            StepWarning::AperiodicWait => "aperiodic-wait",
            StepWarning::SuspendsPeriodic => "suspends-periodic",
            StepWarning::LowCeiling => "low-ceiling",
            StepWarning::NotReleased => "not-released",
            StepWarning::WaitsAsOwner => "waits-as-owner",
            StepWarning::NeverAnswered => "never-answered",
        }
    }
}

impl Warning {
    /// The word by which such warnings are left out.
    pub fn word(self) -> &'static str
        ensures { result.now ≡ warning_word self }
    {
        match self {
            Warning::Process(warning, _) => warning.word(),
            Warning::Step(warning, _) => warning.word(),
            Warning::UnusedObject(_, _) => "unused-object",
            Warning::UnusedCore(_) => "unused-core",
        }
    }
}

/// The words of all warnings.
static WARNING_WORDS: [&str; 14] = [
    "empty-script",
    "not-started",
    "capacity-above-period",
    "no-periodic-wait",
    "much-work",
    "message-refused",
    "aperiodic-wait",
    "suspends-periodic",
    "low-ceiling",
    "not-released",
    "waits-as-owner",
    "never-answered",
    "unused-object",
    "unused-core",
];

/// The word is one of these.
pub fn is_among(word: &str, words: &[&str]) -> bool
    ensures { result ≡ is_among (map (λ w. w.now) words.now) word.now }
{
    words.iter().any(|other| word == *other)
}

fn is_warning_word(word: &str) -> bool
    ensures { result ≡ is_warning_word word.now }
{
    is_among(word, &WARNING_WORDS)
}

fn are_warning_words(words: &[&str]) -> bool
    ensures { result ≡ are_warning_words (map (λ w. w.now) words.now) }
{
    words.iter().all(|word| is_warning_word(word))
}

/// The parts between commas, which may be empty.
fn parts(alloc: Global, text: &str) -> Result<Vec<&str>, AllocError>
    ensures { IfOk result (λ v. map (λ w. w.now) v.items ≡ parts text.now) }
{
    text.split(',').collect(alloc)
}

/// The words of a text, which have commas between them; none if one of them is no warning's word.
/// Fails only for want of memory.
pub fn allowed_in(alloc: Global, text: &str) -> Result<Option<Vec<&str>>, AllocError>
    ensures { IfOk result (λ o. option_map (λ v. map (λ w. w.now) v.items) o
        ≡ allowed_in text.now) }
{
    let words = parts(alloc, text)?;
    if are_warning_words(&words) {
        Ok(Some(words))
    } else {
        Ok(None)
    }
}
