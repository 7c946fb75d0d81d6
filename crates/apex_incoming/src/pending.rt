//! The bytes that were read ahead of the line that is looked at, in a buffer of fixed size.
ghost use Rattle.std.specs.Prelude.{◌≡◌, ◌+◌, ◌*◌, ◌≤◌, ◌<◌, length, drop, IfOk, IfSome, None, OnErr, OnOk};
ghost use Rattle.std.specs.Io.KnownBytes.{IsAtEnd, Keeps, prepend_known};
ghost use Rattle.apex_types.specs.declared.limits.TheConstants.{MOST_LINE};
ghost use Rattle.apex_history.specs.Counted.{inner_of, failures_of, reads_left_of, CountsFailure};
ghost use Rattle.apex_incoming.specs.declared.pending.TheConstants.{PENDING_ROOM, READ_ROOM};
ghost use Rattle.apex_incoming.specs.Ahead.{Comes, IsFirstLine, fuel};
ghost use Rattle.std.specs.List.{position};
ghost use Rattle.apex_incoming.specs.Lines.{IsOneLine, is_line_feed};

use crate::lanes::{LANES, lowest, places_of};
use apex_history::{Counted, Source};
use apex_types::MOST_LINE;
use memchr::memchr;
use std::io::{Read, Result};
use std::marker::Model;

/// The most bytes of one read.
const READ_ROOM: usize = 16_384;

/// The most bytes that are read ahead: a line, and the bytes of one read.
const PENDING_ROOM: usize = MOST_LINE + READ_ROOM;

/// The bytes among which a line feed is looked for first. Most lines have fewer.
const NEAR_ROOM: usize = 128;

/// The next part of a text.
#[derive(Clone, Copy, PartialEq, Eq)]
pub enum Next {
    /// A line of n bytes, and its line feed.
    Line(usize),
    /// All that was read ahead is a part of a line that is longer than any.
    Part,
    /// All that was read ahead, and then the end: a line without line feed.
    Rest,
    /// Nothing.
    End,
}

/// The bytes that were read ahead. It takes no memory.
#[derive(Drop)]
pub struct Pending {
    room: [u8; PENDING_ROOM],
    /// The place of the first byte that was not taken.
    start: usize,
    /// The place behind the last byte that was read.
    end: usize,
}

impl Model for Pending {
    ghost use Rattle.std.specs.Prelude.{ℕ, List, ◌≡◌, ◌≤◌, length};
    ghost use Rattle.std.specs.List.{slice_range};
    ghost use Rattle.apex_incoming.specs.declared.pending.TheConstants.{PENDING_ROOM};

    ghost Value = { List ℕ };

    ghost view = { λ p. slice_range p.room p.start p.end };

    ghost invariant = { λ p. (length p.room ≡ PENDING_ROOM) × (p.start ≤ p.end)
        × (p.end ≤ PENDING_ROOM) };
}

/// The place of the first line feed.
#[tactic(auto, using(crate::proofs::LineFeeds::first_place))]
fn line_feed(bytes: &[u8]) -> Option<usize>
    ensures { result ≡ position is_line_feed bytes.now }
{
    memchr(b'\n', bytes)
}

/// The first line's length, without its line feed.
fn first_line(bytes: &[u8]) -> Option<usize>
    ensures found { IfSome result (λ end. IsFirstLine end bytes.now) }
    ensures none { result ≡ None → IsOneLine bytes.now }
{
    line_feed(bytes)
}

/// The first line's length, without its line feed, if the line feed is near.
#[inline(always)]
fn near_line(bytes: &[u8]) -> Option<usize>
    ensures { IfSome result (λ end. IsFirstLine end bytes.now) }
{
    let mut at = 0;
    while at < NEAR_ROOM && at + LANES <= bytes.len() {
        let feeds = places_of(b'\n', &bytes[at..]);
        if feeds != 0 {
            return Some(at + lowest(feeds));
        }
        at += LANES;
    }
    None
}

impl Pending {
    /// No bytes: nothing was read yet.
    pub fn new() -> Pending
        ensures { length result ≡ 0 }
    {
        Pending {
            room: [0; PENDING_ROOM],
            start: 0,
            end: 0,
        }
    }

    /// The bytes that were read and not taken.
    pub fn bytes(&self) -> &[u8]
        ensures { result.now ≡ self.now }
    {
        &self.room[self.start..self.end]
    }

    /// Takes `count` bytes from the front.
    pub fn take(&mut self, count: usize)
        requires { count ≤ length self.old }
        ensures { self.new ≡ drop count self.old }
    {
        self.start += count;
    }

    /// Reads once, up to [`READ_ROOM`] bytes, and says how many.
    fn fill<R: Source>(&mut self, reader: &mut Counted<R>) -> Result<usize>
        requires { length self.old ≤ MOST_LINE }
        ensures kept { Keeps (prepend_known self.old (R.remaining (inner_of reader.old)))
            (prepend_known self.new (R.remaining (inner_of reader.new))) }
        ensures failed { OnErr result (self.new ≡ self.old) }
        ensures more { IfOk result (λ count. length self.new ≡ length self.old + count) }
        ensures end { IfOk result (λ count. count ≡ 0
            → IsAtEnd (R.remaining (inner_of reader.new)) × (self.new ≡ self.old)) }
        ensures bound { IfOk result (λ count. count ≤ READ_ROOM) }
        ensures counted { CountsFailure result (failures_of reader.old) (failures_of reader.new) }
        ensures reads { OnOk result (reads_left_of reader.new + 1 ≡ reads_left_of reader.old) }
    {
        let (start, end) = (self.start, self.end);
        self.room.copy_within(start..end, 0);
        self.start = 0;
        self.end = end - start;
        let end = self.end;
        let count = reader.read(&mut self.room[end..end + READ_ROOM])?;
        self.end = end + count;
        Ok(count)
    }

    /// The next part of the text, whose line feed is not near. It reads only if no line feed was
    /// read ahead.
    #[inline(never)]
    fn next_far<R: Source>(&mut self, reader: &mut Counted<R>) -> Result<Next>
        ensures kept { Keeps (prepend_known self.old (R.remaining (inner_of reader.old)))
            (prepend_known self.new (R.remaining (inner_of reader.new))) }
        ensures comes { IfOk result
            (λ next. Comes next self.new (R.remaining (inner_of reader.new))) }
        ensures counted { CountsFailure result (failures_of reader.old) (failures_of reader.new) }
        ensures fuel { OnOk result (fuel self.new (reads_left_of reader.new)
            ≤ fuel self.old (reads_left_of reader.old)) }
    {
        loop {
            if let Some(end) = first_line(self.bytes()) {
                return Ok(Next::Line(end));
            }
            if self.bytes().len() > MOST_LINE {
                return Ok(Next::Part);
            }
            if self.fill(reader)? == 0 {
                return Ok(if self.bytes().is_empty() {
                    Next::End
                } else {
                    Next::Rest
                });
            }
        }
    }

    /// The next part of the text. It reads only if no line feed was read ahead.
    // Inlined: a near line is found without a call.
    #[inline(always)]
    pub fn next<R: Source>(&mut self, reader: &mut Counted<R>) -> Result<Next>
        ensures kept { Keeps (prepend_known self.old (R.remaining (inner_of reader.old)))
            (prepend_known self.new (R.remaining (inner_of reader.new))) }
        ensures comes { IfOk result
            (λ next. Comes next self.new (R.remaining (inner_of reader.new))) }
        ensures counted { CountsFailure result (failures_of reader.old) (failures_of reader.new) }
        ensures fuel { OnOk result (fuel self.new (reads_left_of reader.new)
            ≤ fuel self.old (reads_left_of reader.old)) }
    {
        match near_line(self.bytes()) {
            Some(end) => Ok(Next::Line(end)),
            None => self.next_far(reader),
        }
    }
}
