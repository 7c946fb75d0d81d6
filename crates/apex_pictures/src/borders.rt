//! The head of a picture as SVG, and what is around its columns: its labels, its key and its notes.
ghost use Rattle.std.specs.Prelude.{◌≡◌, ◌++◌, length, OnOk};
ghost use Rattle.apex_machine.specs.text.Listing.{texts_of};
ghost use Rattle.apex_pictures.specs.Rows.{selection_of};
ghost use Rattle.apex_pictures.specs.Svg.{excerpt_text, foot_text, heading_text, head_text, key_opening, key_text, label_at, label_text, mark_part, mark_text, note_text, opening_text, selection_part, selection_text, white_text};

use crate::excerpts::Excerpt;
use crate::frames::Frame;
use crate::looks::{put_end, put_meanings, put_style};
use crate::marks::Mark;
use crate::rows::Selection;
use apex_configs::Table;
use apex_moments::{Part, id_part, put_all};
use apex_names::process_name;
use apex_types::{CoreId, ProcessId};
use std::alloc::AllocError;

/// Puts the heading of a core.
fn put_heading(text: &mut Vec<u8>, frame: &Frame, core: CoreId) -> Result<(), AllocError>
    ensures { OnOk result (text.new.items ≡ text.old.items ++ heading_text frame.now core) }
{
    put_all(
        text,
        &[
            Part::Plain("<text class='core' x='8' y='"),
            Part::Number(frame.heading(core) + 13),
            Part::Plain("'>core "),
            Part::Number(u64::from(core.number())),
            Part::Plain("</text>\n"),
        ],
    )
}

/// Puts the label of a process's row.
fn put_label(
    text: &mut Vec<u8>,
    table: &Table,
    frame: &Frame,
    process: ProcessId,
) -> Result<(), AllocError>
    ensures { OnOk result (text.new.items ≡ text.old.items
        ++ label_text table.now frame.now process) }
{
    put_all(
        text,
        &[
            Part::Plain("<text x='20' y='"),
            Part::Number(frame.row(process) + 13),
            Part::Plain("'>"),
            id_part(process),
            Part::Plain(" "),
            Part::Xml(process_name(table, process)),
            Part::Plain("</text>\n"),
        ],
    )
}

/// Puts the label of a process's row, if it has one.
fn put_label_at(
    text: &mut Vec<u8>,
    table: &Table,
    frame: &Frame,
    process: ProcessId,
) -> Result<(), AllocError>
    ensures { OnOk result (text.new.items ≡ text.old.items
        ++ label_at table.now frame.now process) }
{
    if frame.has_row(process) {
        put_label(text, table, frame, process)
    } else {
        Ok(())
    }
}

/// Puts the tag with which the file begins: the size of the picture.
fn put_opening(text: &mut Vec<u8>, frame: &Frame) -> Result<(), AllocError>
    ensures { OnOk result (text.new.items ≡ text.old.items ++ opening_text frame.now) }
{
    put_all(
        text,
        &[
            Part::Plain("<svg xmlns='http://www.w3.org/2000/svg' width='"),
            Part::Number(frame.width),
            Part::Plain("' height='"),
            Part::Number(u64::from(frame.foot) + 24),
            Part::Plain("' font-family='DejaVu Sans, sans-serif' font-size='11'>\n"),
        ],
    )
}

/// Puts what comes before the columns. Fails only for want of memory.
#[tactic(auto, using(std::proofs::Common::append_assoc))]
pub fn put_head(text: &mut Vec<u8>, frame: &Frame) -> Result<(), AllocError>
    ensures { OnOk result (text.new.items ≡ text.old.items ++ head_text frame.now) }
{
    put_opening(text, frame)?;
    put_style(text)
}

fn put_headings(text: &mut Vec<u8>, table: &Table, frame: &Frame) -> Result<(), AllocError>
    ensures { OnOk result (text.new.items ≡ text.old.items
        ++ texts_of (heading_text frame.now) table.now.cores) }
{
    for core in 0..table.cores() {
        put_heading(text, frame, CoreId::new(core))?;
    }
    Ok(())
}

fn put_labels(text: &mut Vec<u8>, table: &Table, frame: &Frame) -> Result<(), AllocError>
    ensures { OnOk result (text.new.items ≡ text.old.items
        ++ texts_of (label_at table.now frame.now) (length table.now.processes)) }
{
    for place in 0..table.process_count() {
        put_label_at(text, table, frame, ProcessId::at(place as u8))?;
    }
    Ok(())
}

/// Puts the mark of a departure behind the last column.
fn put_mark(text: &mut Vec<u8>, frame: &Frame, mark: &Mark) -> Result<(), AllocError>
    ensures { OnOk result (text.new.items ≡ text.old.items ++ mark_text frame.now mark.now) }
{
    put_all(
        text,
        &[
            Part::Plain("<g class='departure' transform='translate("),
            Part::Number(frame.behind()),
            Part::Plain(",0)'>\n<line class='departs' y1='"),
            Part::Number(u64::from(frame.rows.top)),
            Part::Plain("' y2='"),
            Part::Number(u64::from(frame.bottom) + 14),
            Part::Plain("'/><text class='departs' x='6' y='"),
            Part::Number(u64::from(frame.rows.top) + 13),
            Part::Plain("'>expected: "),
            Part::Xml(mark.expected.as_slice()),
            Part::Plain("</text><text class='departs' x='6' y='"),
            Part::Number(u64::from(frame.rows.top) + 28),
            Part::Plain("'>given: "),
            Part::Xml(mark.given.as_slice()),
            Part::Plain("</text>\n</g>\n"),
        ],
    )
}

/// Puts the mark of a departure, if there is one.
fn put_mark_part(text: &mut Vec<u8>, frame: &Frame) -> Result<(), AllocError>
    ensures { OnOk result (text.new.items ≡ text.old.items ++ mark_part frame.now frame.now.mark) }
{
    match &frame.mark {
        Some(mark) => put_mark(text, frame, mark),
        None => Ok(()),
    }
}

/// Puts the head of the group of the labels.
fn put_white(text: &mut Vec<u8>, frame: &Frame) -> Result<(), AllocError>
    ensures { OnOk result (text.new.items ≡ text.old.items ++ white_text frame.now) }
{
    put_all(
        text,
        &[
            Part::Plain("<g id='labels'>\n<rect width='"),
            Part::Number(u64::from(frame.left)),
            Part::Plain("' height='100%' fill='#fff'/>\n"),
        ],
    )
}

/// Puts the tag of the group of the key.
fn put_key_opening(text: &mut Vec<u8>, frame: &Frame) -> Result<(), AllocError>
    ensures { OnOk result (text.new.items ≡ text.old.items ++ key_opening frame.now) }
{
    put_all(
        text,
        &[
            Part::Plain("<g transform='translate(0,"),
            Part::Number(u64::from(frame.foot)),
            Part::Plain(")'>"),
        ],
    )
}

/// Puts the key.
#[tactic(auto, using(std::proofs::Common::append_assoc))]
fn put_key(text: &mut Vec<u8>, frame: &Frame) -> Result<(), AllocError>
    ensures { OnOk result (text.new.items ≡ text.old.items ++ key_text frame.now) }
{
    put_key_opening(text, frame)?;
    put_meanings(text)
}

/// Puts what a picture shows, of which more was asked for.
fn put_excerpt(text: &mut Vec<u8>, excerpt: &Excerpt) -> Result<(), AllocError>
    ensures { OnOk result (text.new.items ≡ text.old.items ++ excerpt_text excerpt.now) }
{
    put_all(
        text,
        &[
            Part::Plain("<text x='785' y='9'>entries "),
            Part::Number(u64::from(excerpt.first)),
            Part::Plain(" to "),
            Part::Number(u64::from(excerpt.last)),
            Part::Plain(" of "),
            Part::Number(excerpt.entries as u64),
            Part::Plain("</text>"),
        ],
    )
}

/// Puts the note of what a picture shows, if more was asked for.
fn put_note(text: &mut Vec<u8>, excerpt: &Option<Excerpt>) -> Result<(), AllocError>
    ensures { OnOk result (text.new.items ≡ text.old.items ++ note_text excerpt.now) }
{
    match excerpt {
        Some(excerpt) => put_excerpt(text, excerpt),
        None => Ok(()),
    }
}

/// Puts how many processes have a row.
fn put_selection(text: &mut Vec<u8>, selection: Selection) -> Result<(), AllocError>
    ensures { OnOk result (text.new.items ≡ text.old.items ++ selection_text selection) }
{
    put_all(
        text,
        &[
            Part::Plain("<text x='20' y='21'>"),
            Part::Number(selection.shown as u64),
            Part::Plain(" of "),
            Part::Number(selection.all as u64),
            Part::Plain(" processes</text>"),
        ],
    )
}

/// Puts the note of how many processes have a row, unless all have one.
fn put_selection_part(text: &mut Vec<u8>, frame: &Frame) -> Result<(), AllocError>
    ensures { OnOk result (text.new.items ≡ text.old.items
        ++ selection_part (selection_of frame.now.rows.chosen.items)) }
{
    match frame.rows.selection() {
        Some(selection) => put_selection(text, selection),
        None => Ok(()),
    }
}

/// Puts what comes after the columns: the mark of a departure, the headings of the cores, the labels of
/// the rows, and the key, with the notes behind it. Fails only for want of memory.
#[tactic(auto, using(std::proofs::Common::append_assoc))]
pub fn put_foot(text: &mut Vec<u8>, table: &Table, frame: &Frame) -> Result<(), AllocError>
    ensures { OnOk result (text.new.items ≡ text.old.items ++ foot_text table.now frame.now) }
{
    put_mark_part(text, frame)?;
    put_white(text, frame)?;
    put_headings(text, table, frame)?;
    put_labels(text, table, frame)?;
    put_key(text, frame)?;
    put_note(text, &frame.columns.excerpt)?;
    put_selection_part(text, frame)?;
    put_end(text)
}
