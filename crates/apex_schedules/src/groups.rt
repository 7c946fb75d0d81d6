//! The text of a schedule with groups, read as its items.
ghost use Rattle.std.specs.Prelude.{◌≡◌, ◌≤◌, if◌then◌else◌, ◌++◌, [], IfErr, IfOk, OnOk, drop, length, replicate, take};
ghost use Rattle.std.specs.List.{flat_map};
ghost use Rattle.apex_schedules.specs.declared.groups.Refusal.TheVariants.{Memory};
ghost use Rattle.apex_schedules.specs.declared.pieces.Piece.TheVariants.{Single, Open, Close};
ghost use Rattle.apex_schedules.specs.Groups.{column_behind, is_item, line_behind};
ghost use Rattle.apex_schedules.specs.Readings.{AreItemsOf, IsFaultOf, IsReading, IsTaken, fault_at};

use crate::pieces::{Piece, cut_word, read_piece};
use crate::schedule::Item;
use apex_types::MOST_ENTRIES;
use std::alloc::{AllocError, Global};

/// The reason why a schedule with groups was not read.
#[derive(Clone, Copy, PartialEq, Eq)]
pub enum ScheduleFault {
    /// The word at this place is neither an item nor a bracket, its bracket closes no group, or the
    /// text ends there in a group.
    IllFormed(Place),
    /// With the word at this place the items are more than [`MOST_ENTRIES`], each group written out
    /// as often as it comes.
    TooMany(Place),
    /// A growth was refused.
    Memory,
}

/// A place in the text of a schedule.
#[derive(Clone, Copy, PartialEq, Eq)]
pub struct Place {
    /// The number of the item there, from 1; at a bracket or at the text's end, that of the next
    /// item.
    pub item: usize,
    /// The number of bytes before the place.
    pub byte: usize,
}

impl Place {
    /// The line and the column of the place in its text, each from 1. A line feed ends a line.
    pub fn line_and_column(&self, text: &[u8]) -> (usize, usize)
        requires { self.now.byte ≤ length text.now }
        ensures line { result.0 ≡ line_behind (take self.now.byte text.now) }
        ensures column { result.1 ≡ column_behind (take self.now.byte text.now) }
    {
        let mut line = 1;
        let mut column = 1;
        for byte in &text[..self.byte] {
            if *byte == b'\n' {
                line += 1;
                column = 1;
            } else {
                column += 1;
            }
        }
        (line, column)
    }
}

/// The reason why a piece was not taken.
#[derive(Clone, Copy, PartialEq, Eq)]
enum Refusal {
    IllFormed,
    TooMany,
    Memory,
}

impl From<AllocError> for Refusal {
    ghost from_gives = { λ _ refusal. refusal ≡ Memory };

    fn from(_error: AllocError) -> Refusal {
        Refusal::Memory
    }
}

impl Refusal {
    /// The fault of this refusal at a place.
    fn at(self, place: Place) -> ScheduleFault
        ensures { result ≡ fault_at self place }
    {
        match self {
            Refusal::IllFormed => ScheduleFault::IllFormed(place),
            Refusal::TooMany => ScheduleFault::TooMany(place),
            Refusal::Memory => ScheduleFault::Memory,
        }
    }
}

/// The number of items that a word is: a bracket is none.
fn items_in(word: &[u8]) -> usize
    ensures value { result ≡ (if is_item word.now then 1 else 0) }
    ensures most { result ≤ 1 }
{
    match word {
        [b'(' | b')', ..] => 0,
        _ => 1,
    }
}

/// Puts copies of the items from `start` on behind the items.
fn put_copies(items: &mut Vec<Item>, start: usize, copies: usize) -> Result<(), AllocError>
    requires { start ≤ length items.old.items }
    ensures { OnOk result (items.new.items ≡ items.old.items
        ++ flat_map (λ copy. copy) (replicate copies (drop start items.old.items))) }
{
    let end = items.len();
    for copy in 0..copies {
        items.extend_from_within(start..end)?;
    }
    Ok(())
}

/// The items that were written out so far, and for each open group the number of items before it,
/// with the innermost group last.
#[derive(Drop)]
struct Reading {
    items: Vec<Item>,
    starts: Vec<usize>,
}

impl Reading {
    fn put_item(&mut self, item: Item) -> Result<(), Refusal>
        requires { IsReading self.old.items.items self.old.starts.items }
        ensures { IsTaken self.old.items.items self.old.starts.items (Some (Single item)) result
            self.new.items.items self.new.starts.items }
    {
        if self.items.len() >= MOST_ENTRIES as usize {
            return Err(Refusal::TooMany);
        }
        if self.items.push(item).is_err() {
            return Err(Refusal::Memory);
        }
        Ok(())
    }

    fn open_group(&mut self) -> Result<(), Refusal>
        requires { IsReading self.old.items.items self.old.starts.items }
        ensures { IsTaken self.old.items.items self.old.starts.items (Some Open) result
            self.new.items.items self.new.starts.items }
    {
        if self.starts.push(self.items.len()).is_err() {
            return Err(Refusal::Memory);
        }
        Ok(())
    }

    /// Closes the innermost group, which comes this many times.
    fn close_group(&mut self, times: u32) -> Result<(), Refusal>
        requires { IsReading self.old.items.items self.old.starts.items }
        ensures { IsTaken self.old.items.items self.old.starts.items (Some (Close times)) result
            self.new.items.items self.new.starts.items }
    {
        let Some(start) = self.starts.pop() else {
            return Err(Refusal::IllFormed);
        };
        let copies = times.saturating_sub(1) as usize;
        let length = self.items.len();
        if length + (length - start) * copies > MOST_ENTRIES as usize {
            return Err(Refusal::TooMany);
        }
        put_copies(&mut self.items, start, copies)?;
        Ok(())
    }

    fn take(&mut self, piece: Option<Piece>) -> Result<(), Refusal>
        requires { IsReading self.old.items.items self.old.starts.items }
        ensures { IsTaken self.old.items.items self.old.starts.items piece result
            self.new.items.items self.new.starts.items }
    {
        match piece {
            None => Err(Refusal::IllFormed),
            Some(Piece::Single(item)) => self.put_item(item),
            Some(Piece::Open) => self.open_group(),
            Some(Piece::Close(times)) => self.close_group(times),
        }
    }
}

/// The items of a schedule with groups, each group written out as often as it comes.
///
/// `(`, items and `)*k` are a group that comes k times, k from 1 to 65,536; a group may have groups
/// in it. Spaces and line feeds are between two items, and may be anywhere else between words. A
/// text without words has no items. Takes memory for the items written out, [`MOST_ENTRIES`] at
/// most.
pub fn read_grouped(alloc: Global, text: &[u8]) -> Result<Vec<Item>, ScheduleFault>
    ensures ok { IfOk result (λ items. AreItemsOf text.now items.items) }
    ensures fault { IfErr result (IsFaultOf text.now) }
{
    let mut reading = Reading {
        items: Vec::new(alloc),
        starts: Vec::new(alloc),
    };
    let mut rest = text;
    let mut item = 1;
    while !rest.is_empty() {
        let (word, after) = cut_word(rest);
        if !word.is_empty() {
            if let Err(refusal) = reading.take(read_piece(word)) {
                let byte = text.len() - rest.len();
                return Err(refusal.at(Place { item, byte }));
            }
            item += items_in(word);
        }
        rest = after;
    }
    if !reading.starts.is_empty() {
        let byte = text.len();
        return Err(ScheduleFault::IllFormed(Place { item, byte }));
    }
    Ok(reading.items)
}
