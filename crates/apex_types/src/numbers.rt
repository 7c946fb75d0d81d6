//! The reading of decimal numbers.
ghost use Rattle.std.specs.Prelude.{◌≡◌, ℕ, ◌+◌, ◌*◌, ◌^◌, ◌<◌, ◌≤◌, min, option_map};
ghost use Rattle.apex_types.specs.Numbers.{number_of, at_most, has_leading_zero};

fn has_leading_zero(word: &[u8]) -> bool
    ensures { result ≡ has_leading_zero word.now }
{
    word.len() > 1 && word[0] == b'0'
}

/// The decimal number that a word writes, without a sign and without a leading zero; 2^32 in place
/// of any greater one. None if the word is no such number.
pub fn number(word: &[u8]) -> Option<u64>
    ensures { result ≡ option_map (min (2 ^ 32)) (number_of word.now) }
{
    if word.is_empty() || has_leading_zero(word) {
        return None;
    }
    let mut number: u64 = 0;
    for digit in word {
        if !digit.is_ascii_digit() {
            return None;
        }
        number = (number * 10 + u64::from(*digit - b'0')).min(1 << 32);
    }
    Some(number)
}

/// The decimal number that a word writes, if it is at most `most`.
pub fn number_at_most(word: &[u8], most: u32) -> Option<u32>
    ensures { result ≡ at_most most (number_of word.now) }
{
    let number = number(word)?;
    if number <= u64::from(most) {
        Some(number as u32)
    } else {
        None
    }
}
