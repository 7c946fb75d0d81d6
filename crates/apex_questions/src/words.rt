//! The words of facts.
ghost use Rattle.std.specs.Prelude.{◌≡◌, IfSome, Some, option_map};
ghost use Rattle.apex_questions.specs.Words.{fact_of, word_of, word_of_code};

use crate::facts::Fact;
use apex_types::ReturnCode;

/// The fact that a word names. None if none has this word.
pub fn fact_of(word: &str) -> Option<Fact>
    ensures { result ≡ fact_of word.now }
{
    match word {
        "missed" => Some(Fact::Missed),
        "hard" => Some(Fact::HardMissed),
        "TIMED_OUT" => Some(Fact::TimedOut),
        "LOST" => Some(Fact::Lost),
        "end" => Some(Fact::Ended),
        "standstill" => Some(Fact::Standstill),
        "NO_ACTION" => Some(Fact::Refused(ReturnCode::NoAction)),
        "NOT_AVAILABLE" => Some(Fact::Refused(ReturnCode::NotAvailable)),
        "INVALID_PARAM" => Some(Fact::Refused(ReturnCode::InvalidParam)),
        "INVALID_CONFIG" => Some(Fact::Refused(ReturnCode::InvalidConfig)),
        "INVALID_MODE" => Some(Fact::Refused(ReturnCode::InvalidMode)),
        _ => None,
    }
}

/// The word of a code with which services refuse a call.
fn word_of_code(code: ReturnCode) -> Option<&'static str>
    ensures word { option_map (λ word. word.now) result ≡ word_of_code code }
{
    match code {
        ReturnCode::NoAction => Some("NO_ACTION"),
        ReturnCode::NotAvailable => Some("NOT_AVAILABLE"),
        ReturnCode::InvalidParam => Some("INVALID_PARAM"),
        ReturnCode::InvalidConfig => Some("INVALID_CONFIG"),
        ReturnCode::InvalidMode => Some("INVALID_MODE"),
        ReturnCode::NoError | ReturnCode::TimedOut => None,
    }
}

/// The word of a fact. None for a response, of which there is one for each number of ticks, and for
/// a code with which no service refuses a call.
pub fn word_of(fact: Fact) -> Option<&'static str>
    ensures word { option_map (λ word. word.now) result ≡ word_of fact }
    ensures names { IfSome result (λ word. fact_of word.now ≡ Some fact) }
{
    match fact {
        Fact::Missed => Some("missed"),
        Fact::HardMissed => Some("hard"),
        Fact::TimedOut => Some("TIMED_OUT"),
        Fact::Lost => Some("LOST"),
        Fact::Ended => Some("end"),
        Fact::Standstill => Some("standstill"),
        Fact::Refused(code) => word_of_code(code),
        Fact::Response(_) => None,
    }
}
