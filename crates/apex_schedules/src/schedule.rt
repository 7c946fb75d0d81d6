//! The items of a schedule's text.
ghost use Rattle.std.specs.Prelude.{◌≡◌, ◌<◌, ◌≤◌, ◌∷◌, None, length, map, option_map, IfOk, IfSome, Some};
ghost use Rattle.apex_types.specs.declared.limits.TheConstants.{MOST_ENTRIES};
ghost use Rattle.apex_history.specs.Words.{parts, parts_after};
ghost use Rattle.apex_schedules.specs.Schedule.{positive_of, times_after, turns_of_parts, item_of, items_of, is_core_below, are_cores_below};

use apex_history::{Ticks, cut, read_core, read_ticks};
use apex_types::{CoreId, MOST_ENTRIES, number_at_most};
use std::alloc::{AllocError, Global};

/// An item of a schedule.
#[derive(Clone, Copy, PartialEq, Eq)]
pub enum Item {
    /// Turns of one core, one after the other.
    Turns {
        core: CoreId,
        /// From 1 to 65,536.
        times: u32,
    },
    /// One tick of n ticks of time.
    Tick(Ticks),
}

/// The number of a word, from 1 to [`MOST_ENTRIES`]: a number of times, or that of an entry.
pub fn read_positive(word: &[u8]) -> Option<u32>
    ensures value { result ≡ positive_of word.now }
    ensures range { IfSome result (λ number. (1 ≤ number) × (number ≤ MOST_ENTRIES)) }
{
    match number_at_most(word, MOST_ENTRIES) {
        Some(number) if 1 <= number => Some(number),
        _ => None,
    }
}

/// The number of times that an item comes, by the part after the core's `*`.
#[tactic(auto, using(crate::proofs::Parts::times_after_star))]
fn read_times(after: Option<&[u8]>) -> Option<u32>
    ensures { result ≡ times_after (parts_after 42 (option_map (λ word. word.now) after.entry)) }
{
    match after {
        Some(word) => read_positive(word),
        None => Some(1),
    }
}

fn read_turns(word: &[u8]) -> Option<Item>
    ensures { result ≡ turns_of_parts (parts 42 word.now) }
{
    let (core, after) = cut(word, b'*');
    let core = read_core(core)?;
    let times = read_times(after)?;
    Some(Item::Turns { core, times })
}

// Most items are one turn.
#[tactic(auto, using(crate::proofs::Parts::turn_alone))]
pub(crate) fn read_item(word: &[u8]) -> Option<Item>
    ensures { result ≡ item_of word.now }
{
    match word {
        [digit @ b'0'..=b'7'] => {
            let core = CoreId::new(*digit - b'0');
            Some(Item::Turns { core, times: 1 })
        }
        [b't', ticks @ ..] => read_ticks(ticks).map(Item::Tick),
        _ => read_turns(word),
    }
}

/// The first item of a text, if its first word is one, and the text behind the space after it.
// Most items are a turn, or some turns that one digit counts: no word is looked for there.
#[inline(always)]
#[tactic(auto, using(crate::proofs::Parts::turn_first, crate::proofs::Parts::turns_first))]
fn cut_item(text: &[u8]) -> (Option<Item>, Option<&[u8]>)
    ensures items { map item_of (parts 32 text.now)
        ≡ result.0 ∷ map item_of (parts_after 32 (option_map (λ rest. rest.now) result.1)) }
    ensures shorter { IfSome result.1 (λ rest. length rest.now < length text.now) }
{
    match text {
        [digit @ b'0'..=b'7', b' ', after @ ..] => {
            let core = CoreId::new(*digit - b'0');
            (Some(Item::Turns { core, times: 1 }), Some(after))
        }
        [
            digit @ b'0'..=b'7',
            b'*',
            times @ b'1'..=b'9',
            b' ',
            after @ ..,
        ] => {
            let core = CoreId::new(*digit - b'0');
            let times = u32::from(*times - b'0');
            (Some(Item::Turns { core, times }), Some(after))
        }
        _ => {
            let (word, after) = cut(text, b' ');
            (read_item(word), after)
        }
    }
}

/// The items of a schedule's text.
///
/// An item is `c`, one turn of the core with this digit, `c*k`, k turns of it, k from 1 to 65,536,
/// or `tN`, one tick of N ticks of time, N from 1 to 1,048,576; one space is between two. Any other
/// text has none. Fails only for want of memory.
#[tactic(auto, using(crate::proofs::Items::joined_nil, crate::proofs::Items::joined_cons, crate::proofs::Items::joined_none))]
pub fn read_schedule(alloc: Global, text: &[u8]) -> Result<Option<Vec<Item>>, AllocError>
    ensures { IfOk result (λ read. option_map (λ items. items.items) read ≡ items_of text.now) }
{
    // An item has a byte at least, and a space is between two.
    let mut items = Vec::with_capacity(alloc, text.len() / 2 + 1)?;
    let mut rest = Some(text);
    while let Some(ahead) = rest {
        let (item, after) = cut_item(ahead);
        let Some(item) = item else {
            return Ok(None);
        };
        items.push(item)?;
        rest = after;
    }
    Ok(Some(items))
}

#[tactic(auto, unfolding(crate::specs::Schedule::is_core_below))]
fn is_core_below(cores: u8, item: &Item) -> bool
    ensures { result ≡ is_core_below cores item.now }
{
    match *item {
        Item::Turns { core, .. } => core.number() < cores,
        Item::Tick(_) => true,
    }
}

/// Whether the turns of every item are of a core below `cores`.
pub fn are_cores_below(cores: u8, items: &[Item]) -> bool
    ensures { result ≡ are_cores_below cores items.now }
{
    items.iter().all(|item| is_core_below(cores, item))
}
