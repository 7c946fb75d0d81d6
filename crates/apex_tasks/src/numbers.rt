//! The numbers and the pace that words say.
ghost use Rattle.std.specs.Prelude.{◌≡◌, ◌^◌, ◌≤◌, IfSome, min, option_map};
ghost use Rattle.apex_pace.specs.Laws.{IsPace};
ghost use Rattle.apex_types.specs.Limits.{latest};
ghost use Rattle.apex_types.specs.Numbers.{at_least, at_most, has_leading_zero, number_of};
ghost use Rattle.apex_types.specs.declared.limits.TheConstants.{MOST_ENTRIES};
ghost use Rattle.apex_tasks.specs.Numbers.{jobs_in, number_in, pace_in, percent_in, room_in, tick_in, time_of};
ghost use Rattle.apex_tasks.specs.declared.numbers.TheConstants.{MOST_JOBS, MOST_STATES, USUAL_STATES};

use apex_pace::{Pace, USUAL_TURNS};
use apex_scales::{LONGEST_TICK, TickLength};
use apex_schedules::read_positive;
use apex_types::{MOST_ENTRIES, MOST_TICKS, number_at_most};

/// The latest instant, in ticks.
const LATEST: u64 = MOST_ENTRIES as u64 * MOST_TICKS as u64;

/// The number of states for which a search has room, if no other is given.
const USUAL_STATES: u32 = 1_000_000;

/// The greatest number of states for which a search may have room.
const MOST_STATES: u32 = 4_294_967_295;

/// The greatest number of jobs that a search may have.
const MOST_JOBS: u32 = 64;

/// Each limit is the number of this profile.
pub fn limits_of_the_profile()
    ensures usual_states { USUAL_STATES ≡ 1000000 }
    ensures most_states { MOST_STATES ≡ 4294967295 }
    ensures most_jobs { MOST_JOBS ≡ 64 }
{}

fn has_leading_zero(word: &[u8]) -> bool
    ensures { result ≡ has_leading_zero word.now }
{
    word.len() > 1 && word[0] == b'0'
}

/// The decimal number that a word writes, without a sign and without a leading zero; 2^40 in place
/// of any greater one. None if the word is no such number.
fn long_number(word: &[u8]) -> Option<u64>
    ensures { result ≡ option_map (min (2 ^ 40)) (number_of word.now) }
{
    if word.is_empty() || has_leading_zero(word) {
        return None;
    }
    let mut number: u64 = 0;
    for digit in word {
        if !digit.is_ascii_digit() {
            return None;
        }
        number = (number * 10 + u64::from(*digit - b'0')).min(1 << 40);
    }
    Some(number)
}

/// The time that a word says, in ticks, 0 to 2^36.
pub fn read_time(word: &[u8]) -> Option<u64>
    ensures value { result ≡ time_of word.now }
    ensures range { IfSome result (λ time. time ≤ latest) }
{
    let time = long_number(word)?;
    if time <= LATEST { Some(time) } else { None }
}

/// The percentage that a word says, 1 to 100.
fn read_percent(word: &[u8]) -> Option<u8>
    ensures value { result ≡ at_least 1 (at_most 100 (number_of word.now)) }
    ensures range { IfSome result (λ percent. (1 ≤ percent) × (percent ≤ 100)) }
{
    match number_at_most(word, 100) {
        Some(percent) if 1 <= percent => Some(percent as u8),
        _ => None,
    }
}

/// The number of turns, 1 to [`MOST_ENTRIES`], that a text says, and `otherwise` if there is no text.
/// None if the text is ill-formed.
fn number_given(text: Option<&str>, otherwise: u32) -> Option<u32>
    requires { (1 ≤ otherwise) × (otherwise ≤ MOST_ENTRIES) }
    ensures value { result ≡ number_in otherwise (option_map (λ given. given.now) text.entry) }
    ensures range { IfSome result (λ number. (1 ≤ number) × (number ≤ MOST_ENTRIES)) }
{
    match text {
        Some(text) => read_positive(text.as_bytes()),
        None => Some(otherwise),
    }
}

/// The percentage, 1 to 100, that a text says, and 100 if there is no text. None if the text is
/// ill-formed.
fn percent_given(text: Option<&str>) -> Option<u8>
    ensures value { result ≡ percent_in (option_map (λ given. given.now) text.entry) }
    ensures range { IfSome result (λ percent. percent ≤ 100) }
{
    match text {
        Some(text) => read_percent(text.as_bytes()),
        None => Some(100),
    }
}

/// The number of states that a text says, and the usual one if there is no text. None if the text is
/// ill-formed.
pub fn room_given(text: Option<&str>) -> Option<u32>
    ensures { result ≡ room_in (option_map (λ given. given.now) text.entry) }
{
    let Some(text) = text else {
        return Some(USUAL_STATES);
    };
    match number_at_most(text.as_bytes(), MOST_STATES) {
        Some(room) if 1 <= room => Some(room),
        _ => None,
    }
}

/// The number of jobs, 1 to [`MOST_JOBS`], that a text says, and one if there is no text. None if the
/// text is ill-formed.
pub fn jobs_given(text: Option<&str>) -> Option<u32>
    ensures { result ≡ jobs_in (option_map (λ given. given.now) text.entry) }
{
    let Some(text) = text else {
        return Some(1);
    };
    match number_at_most(text.as_bytes(), MOST_JOBS) {
        Some(jobs) if 1 <= jobs => Some(jobs),
        _ => None,
    }
}

/// The length of a tick, in microseconds, that a text says, and the usual one if there is no text.
/// None if the text is ill-formed.
pub fn tick_given(text: Option<&str>) -> Option<TickLength>
    ensures { result ≡ tick_in (option_map (λ given. given.now) text.entry) }
{
    match text {
        Some(text) => TickLength::new(number_at_most(text.as_bytes(), LONGEST_TICK)?),
        None => Some(TickLength::usual()),
    }
}

/// The pace of the texts of its turns and its percentage. None if one is ill-formed.
pub fn pace_given(turns: Option<&str>, early: Option<&str>) -> Option<Pace>
    ensures value { result ≡ pace_in (option_map (λ given. given.now) turns.entry)
        (option_map (λ given. given.now) early.entry) }
    ensures range { IfSome result IsPace }
{
    let turns = number_given(turns, USUAL_TURNS)?;
    let percent = percent_given(early)?;
    Some(Pace { turns, percent })
}
