//! The lines of a text, of which comments may be left out behind the separator.
ghost use Rattle.std.specs.Prelude.{◌≡◌, ◌-◌, ◌<◌, [], ◌∷◌, ◌++◌, length, Bool, None, IfOk, IfSome, OnOk};
ghost use Rattle.std.specs.Str.{bytes_eq};
ghost use Rattle.apex_check.specs.Texts.{separator};
ghost use Rattle.apex_incoming.specs.Lines.{ended};
ghost use Rattle.apex_departures.specs.Lines.{behind_separator, followed_text, given_parts, history_text, is_comment, is_left_out, kept_text, line_parts, more_behind, number_given, part_given, text_without};

use apex_history::cut;
use std::alloc::AllocError;

/// Whether the line is empty or begins with `#`.
fn is_comment(line: &[u8]) -> bool
    ensures { result ≡ is_comment line.now }
{
    match line.first() {
        Some(byte) => *byte == b'#',
        None => true,
    }
}

fn is_left_out(comments: bool, line: &[u8]) -> bool
    ensures { result ≡ is_left_out comments line.now }
{
    comments && is_comment(line)
}

fn is_separator(line: &[u8]) -> bool
    ensures { result ≡ bytes_eq line.now separator }
{
    line == b"%%".as_slice()
}

/// The first line of a text and what follows it, or the last part of the text alone.
fn next_line(text: &[u8]) -> (&[u8], Option<&[u8]>)
    ensures more { IfSome result.1
        (λ rest. line_parts text.now ≡ result.0.now ∷ line_parts rest.now) }
    ensures last { result.1 ≡ None → line_parts text.now ≡ result.0.now ∷ [] }
    ensures shorter { IfSome result.1 (λ rest. length rest.now < length text.now) }
{
    cut(text, b'\n')
}

/// Puts a line and its line feed.
fn put_line(text: &mut Vec<u8>, line: &[u8]) -> Result<(), AllocError>
    ensures { OnOk result (text.new.items ≡ text.old.items ++ ended line.now) }
{
    text.extend_from_slice(line)?;
    text.push(b'\n')?;
    Ok(())
}

/// Puts a line of a history and its line feed, unless it is left out.
fn put_kept(text: &mut Vec<u8>, comments: bool, line: &[u8]) -> Result<(), AllocError>
    ensures { OnOk result (text.new.items ≡ text.old.items ++ kept_text comments line.now) }
{
    if is_left_out(comments, line) {
        Ok(())
    } else {
        put_line(text, line)
    }
}

/// Puts the lines of a history that are not left out.
fn put_history(text: &mut Vec<u8>, comments: bool, history: &[u8]) -> Result<(), AllocError>
    ensures { OnOk result (text.new.items
        ≡ text.old.items ++ history_text comments (line_parts history.now)) }
{
    let mut left = history;
    loop {
        let (line, behind) = next_line(left);
        let Some(rest) = behind else {
            return text.extend_from_slice(line);
        };
        put_kept(text, comments, line)?;
        left = rest;
    }
}

/// Puts the lines of a table and the separator, and gives the history behind it, which is empty if
/// no line is the separator.
fn put_table<'a>(text: &mut Vec<u8>, all: &'a [u8]) -> Result<&'a [u8], AllocError>
    ensures text { IfOk result (λ history. (comments : Bool)
        → text.old.items ++ text_without comments (line_parts all.now)
        ≡ text.new.items ++ history_text comments (line_parts history.now)) }
    ensures history { IfOk result
        (λ history. line_parts history.now ≡ behind_separator (line_parts all.now)) }
{
    let mut left = all;
    loop {
        let (line, behind) = next_line(left);
        let Some(rest) = behind else {
            text.extend_from_slice(line)?;
            return Ok(&[]);
        };
        put_line(text, line)?;
        if is_separator(line) {
            return Ok(rest);
        }
        left = rest;
    }
}

/// Puts a text without the comments of its history, if they are left out, and gives the history as
/// it was given.
pub(crate) fn put_followed<'a>(
    text: &mut Vec<u8>,
    comments: bool,
    all: &'a [u8],
) -> Result<&'a [u8], AllocError>
    ensures text { OnOk result
        (text.new.items ≡ text.old.items ++ followed_text comments all.now) }
    ensures history { IfOk result (λ history. line_parts history.now ≡ given_parts all.now) }
{
    let history = put_table(text, all)?;
    put_history(text, comments, history)?;
    Ok(history)
}

/// The history of a text as it was given: what stands behind its first line `%%`. It is empty if no
/// line is the separator.
pub(crate) fn history_in(all: &[u8]) -> &[u8]
    ensures { line_parts result.now ≡ given_parts all.now }
{
    let mut left = all;
    loop {
        let (line, behind) = next_line(left);
        let Some(rest) = behind else {
            return &[];
        };
        if is_separator(line) {
            return rest;
        }
        left = rest;
    }
}

/// A line of a history as it was given.
#[derive(Clone, Copy)]
pub(crate) struct GivenLine<'a> {
    /// Its number, counted from 1, at most 4,294,967,295.
    pub(crate) number: u32,
    /// Its bytes, without its line feed.
    pub(crate) bytes: &'a [u8],
}

/// How many of the lines that are not left out are to be passed behind this one. None if it is the
/// one.
fn more_behind(comments: bool, line: &[u8], more: u32) -> Option<u32>
    ensures { result ≡ more_behind comments line.now more }
{
    if is_left_out(comments, line) {
        Some(more)
    } else {
        more.checked_sub(1)
    }
}

/// The line that has this number, counted from 1, among those that are not left out.
pub(crate) fn given_line<'a>(comments: bool, history: &'a [u8], number: u32) -> GivenLine<'a>
    ensures number { result.number ≡ number_given comments (line_parts history.now) number }
    ensures bytes { result.bytes.now
        ≡ part_given comments (line_parts history.now) (number - 1) }
{
    let mut left = history;
    let mut more = number.saturating_sub(1);
    let mut number = 1_u32;
    loop {
        let (bytes, behind) = next_line(left);
        let Some(rest) = behind else {
            return GivenLine { number, bytes };
        };
        let Some(fewer) = more_behind(comments, bytes, more) else {
            return GivenLine { number, bytes };
        };
        more = fewer;
        number = number.saturating_add(1);
        left = rest;
    }
}
