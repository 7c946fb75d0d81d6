//! The columns of a picture as SVG.
ghost use Rattle.std.specs.Prelude.{◌≡◌, ◌≤◌, ◌++◌, codes, drop, flat_map, length, take, OnOk};
ghost use Rattle.apex_calls.specs.Lines.{IsPrintable, line_of};
ghost use Rattle.apex_machine.specs.text.Listing.{texts_of};
ghost use Rattle.apex_moments.specs.Texts.{xml_text};
ghost use Rattle.apex_pictures.specs.Svg.{bare, bar_text, call_at, call_end, call_text, cell_at, cell_end, cell_part, cell_text, circle_text, column_end, column_text, corner_text, cut_text, dash_text, dash_to, instant_text, is_heard, marks_text, mutex_text, notice_process, outline_text, owns_part, ring_in, ring_text, said_text, start_text, time_text, title_text, waits_part, wedge_at, wedge_text};

use crate::frames::Frame;
use apex_configs::Table;
use apex_history::{Lines, NextSteps, put_line, state_word};
use apex_machine::Holding;
use apex_moments::{
    Cell, Moment, Part, id_part, notice_word, put, put_all, put_object, put_wait, put_xml,
};
use apex_names::process_name;
use apex_types::{Caller, LentEntry, Notice, ProcessId, Who};
use std::alloc::AllocError;

/// The most bytes of a call and its reply that are drawn above a column.
pub(crate) const MOST_CALL: usize = 60;

/// Puts the line and the text of an instant.
fn put_instant(text: &mut Vec<u8>, frame: &Frame, now: u64) -> Result<(), AllocError>
    ensures { OnOk result (text.new.items ≡ text.old.items ++ instant_text frame.now now) }
{
    put_all(
        text,
        &[
            Part::Plain("<line class='time' y1='"),
            Part::Number(u64::from(frame.rows.top)),
            Part::Plain("' y2='"),
            Part::Number(u64::from(frame.bottom) + 14),
            Part::Plain("'/><text class='now' transform='translate(4,"),
            Part::Number(u64::from(frame.bottom) + 18),
            Part::Plain(") rotate(60)'>t="),
            Part::Number(now),
            Part::Plain("</text>\n"),
        ],
    )
}

/// Puts the instant of an entry, if it is shown.
fn put_time(text: &mut Vec<u8>, frame: &Frame, entry: &LentEntry<'_>) -> Result<(), AllocError>
    ensures { OnOk result (text.new.items ≡ text.old.items ++ time_text frame.now entry.entry.now) }
{
    if frame.columns.is_begun(entry) {
        put_instant(text, frame, entry.now)
    } else {
        Ok(())
    }
}

/// The line of an entry.
fn line_of(table: &Table, entry: &LentEntry<'_>) -> Lines
    requires { IsPrintable table.now entry.now }
    ensures { result.items ≡ line_of table.now entry.entry.now }
{
    let mut line = Lines::new();
    put_line(&mut line, table, &mut NextSteps::new(), entry);
    line
}

/// The part of a line behind `0 0 ticker - `.
fn behind_nobody(line: &[u8]) -> &[u8]
    requires { 13 ≤ length line.now }
    ensures { result.now ≡ drop 13 line.now }
{
    &line[13..]
}

/// The call and the reply of an entry, behind `0 0 ticker - `.
pub(crate) fn bare_line(table: &Table, entry: &LentEntry<'_>) -> Lines
    requires { IsPrintable table.now entry.now }
    ensures { result.items ≡ line_of table.now (bare entry.entry.now) }
{
    let bare = LentEntry {
        number: 0,
        now: 0,
        who: Who::Ticker,
        process: Caller::Nobody,
        call: entry.call,
        reply: entry.reply,
        notices: &[],
    };
    line_of(table, &bare)
}

/// The first [`MOST_CALL`] bytes of a line.
fn front_of(line: &[u8]) -> &[u8]
    requires { 60 ≤ length line.now }
    ensures { result.now ≡ take 60 line.now }
{
    &line[..MOST_CALL]
}

/// Puts the first [`MOST_CALL`] bytes of a line and `…`.
#[tactic(auto, using(std::proofs::Common::append_assoc))]
fn put_front(text: &mut Vec<u8>, line: &[u8]) -> Result<(), AllocError>
    requires { 60 ≤ length line.now }
    ensures { OnOk result (text.new.items ≡ text.old.items
        ++ (xml_text (take 60 line.now) ++ codes "&#8230;")) }
{
    put_xml(text, front_of(line))?;
    put(text, "&#8230;")
}

/// Puts a line, or its first [`MOST_CALL`] bytes and `…` if it has more before its line feed.
fn put_cut(text: &mut Vec<u8>, line: &[u8]) -> Result<(), AllocError>
    ensures { OnOk result (text.new.items ≡ text.old.items ++ cut_text line.now) }
{
    if line.len() <= MOST_CALL + 1 {
        put_xml(text, line)
    } else {
        put_front(text, line)
    }
}

/// Puts the call and the reply of an entry.
fn put_said(text: &mut Vec<u8>, table: &Table, entry: &LentEntry<'_>) -> Result<(), AllocError>
    requires { IsPrintable table.now entry.now }
    ensures { OnOk result (text.new.items ≡ text.old.items ++ said_text table.now entry.entry.now) }
{
    let line = bare_line(table, entry);
    put_cut(text, behind_nobody(line.as_slice()))
}

/// Puts the head of the text above a column, with its tooltip.
fn put_title(text: &mut Vec<u8>, frame: &Frame, line: &[u8]) -> Result<(), AllocError>
    ensures { OnOk result (text.new.items ≡ text.old.items ++ title_text frame.now line.now) }
{
    put_all(
        text,
        &[
            Part::Plain("<text class='call' transform='translate(19,"),
            Part::Number(u64::from(frame.rows.top)),
            Part::Plain(") rotate(-60)'><title>"),
            Part::Xml(line),
            Part::Plain("</title>"),
        ],
    )
}

#[tactic(auto, unfolding(crate::specs::Svg::call_end))]
fn put_call_end(text: &mut Vec<u8>) -> Result<(), AllocError>
    ensures { OnOk result (text.new.items ≡ text.old.items ++ call_end) }
{
    put(text, "</text>\n")
}

#[tactic(auto, unfolding(crate::specs::Svg::cell_end))]
fn put_cell_end(text: &mut Vec<u8>) -> Result<(), AllocError>
    ensures { OnOk result (text.new.items ≡ text.old.items ++ cell_end) }
{
    put(text, "</title></rect>\n")
}

#[tactic(auto, unfolding(crate::specs::Svg::column_end))]
fn put_column_end(text: &mut Vec<u8>) -> Result<(), AllocError>
    ensures { OnOk result (text.new.items ≡ text.old.items ++ column_end) }
{
    put(text, "</g>\n")
}

/// Puts the call and the reply of an entry above its column.
#[tactic(auto, using(std::proofs::Common::append_assoc))]
fn put_call(
    text: &mut Vec<u8>,
    table: &Table,
    frame: &Frame,
    entry: &LentEntry<'_>,
) -> Result<(), AllocError>
    requires { IsPrintable table.now entry.now }
    ensures { OnOk result (text.new.items ≡ text.old.items
        ++ call_text table.now frame.now entry.entry.now) }
{
    let line = line_of(table, entry);
    put_title(text, frame, line.as_slice())?;
    put_said(text, table, entry)?;
    put_call_end(text)
}

/// Whether the caller is no process without a row.
fn is_heard(frame: &Frame, caller: Caller) -> bool
    ensures { result ≡ is_heard frame.now caller }
{
    match caller {
        Caller::Process(process) => frame.has_row(process),
        Caller::Init | Caller::Nobody => true,
    }
}

/// Puts the call and the reply of an entry above its column, unless a process calls that has no row.
fn put_call_at(
    text: &mut Vec<u8>,
    table: &Table,
    frame: &Frame,
    entry: &LentEntry<'_>,
) -> Result<(), AllocError>
    requires { IsPrintable table.now entry.now }
    ensures { OnOk result (text.new.items ≡ text.old.items
        ++ call_at table.now frame.now entry.entry.now) }
{
    if is_heard(frame, entry.process) {
        put_call(text, table, frame, entry)
    } else {
        Ok(())
    }
}

/// Puts the wait of a process.
#[tactic(auto, using(std::proofs::Common::append_assoc))]
fn put_waits(text: &mut Vec<u8>, cell: &Cell) -> Result<(), AllocError>
    ensures { OnOk result (text.new.items ≡ text.old.items ++ waits_part cell.now.wait) }
{
    match &cell.wait {
        Some(wait) => {
            put(text, " wait ")?;
            put_wait(text, wait)
        }
        None => Ok(()),
    }
}

/// Puts the bar of an owner of mutexes, up to the mutexes.
fn put_bar(
    text: &mut Vec<u8>,
    frame: &Frame,
    width: u64,
    process: ProcessId,
) -> Result<(), AllocError>
    ensures { OnOk result (text.new.items ≡ text.old.items ++ bar_text frame.now width process) }
{
    put_all(
        text,
        &[
            Part::Plain("<rect class='owns' y='"),
            Part::Number(frame.row(process) + 15),
            Part::Plain("' width='"),
            Part::Number(width),
            Part::Plain("' height='3'><title>owns"),
        ],
    )
}

/// Puts the mutexes that a process owns.
fn put_mutexes(text: &mut Vec<u8>, held: &[Holding]) -> Result<(), AllocError>
    ensures { OnOk result (text.new.items ≡ text.old.items ++ flat_map mutex_text held.now) }
{
    for holding in held {
        put_object(text, " mutex:", holding.mutex)?;
    }
    Ok(())
}

/// Puts the bar of a process, if it owns mutexes.
#[tactic(auto, using(std::proofs::Common::append_assoc))]
fn put_owns(
    text: &mut Vec<u8>,
    frame: &Frame,
    width: u64,
    process: ProcessId,
    held: &[Holding],
) -> Result<(), AllocError>
    ensures { OnOk result (text.new.items ≡ text.old.items
        ++ owns_part frame.now width process held.now) }
{
    if held.is_empty() {
        return Ok(());
    }
    put_bar(text, frame, width, process)?;
    put_mutexes(text, held)?;
    put_cell_end(text)
}

/// Puts the cell of a process, up to its wait.
fn put_state(
    text: &mut Vec<u8>,
    table: &Table,
    frame: &Frame,
    width: u64,
    process: ProcessId,
    cell: &Cell,
) -> Result<(), AllocError>
    ensures { OnOk result (text.new.items ≡ text.old.items
        ++ cell_part table.now frame.now width process cell.now) }
{
    put_all(
        text,
        &[
            Part::Plain("<rect class='"),
            Part::Plain(state_word(cell.state)),
            Part::Plain("' data-process='"),
            id_part(process),
            Part::Plain("' y='"),
            Part::Number(frame.row(process)),
            Part::Plain("' width='"),
            Part::Number(width),
            Part::Plain("' height='16'><title>"),
            id_part(process),
            Part::Plain(" "),
            Part::Xml(process_name(table, process)),
            Part::Plain(" "),
            Part::Plain(state_word(cell.state)),
        ],
    )
}

/// Puts the cell of a process.
#[tactic(auto, using(std::proofs::Common::append_assoc))]
fn put_cell(
    text: &mut Vec<u8>,
    table: &Table,
    frame: &Frame,
    width: u64,
    process: ProcessId,
    cell: &Cell,
) -> Result<(), AllocError>
    ensures { OnOk result (text.new.items ≡ text.old.items
        ++ cell_text table.now frame.now width process cell.now) }
{
    put_state(text, table, frame, width, process, cell)?;
    put_waits(text, cell)?;
    put_cell_end(text)?;
    put_owns(text, frame, width, process, cell.owned.as_slice())
}

/// Puts the cell of a process of a moment, if it has a row.
fn put_cell_at(
    text: &mut Vec<u8>,
    table: &Table,
    frame: &Frame,
    width: u64,
    moment: &Moment,
    process: ProcessId,
) -> Result<(), AllocError>
    ensures { OnOk result (text.new.items ≡ text.old.items
        ++ cell_at table.now frame.now width moment.now process) }
{
    if frame.has_row(process) {
        put_cell(text, table, frame, width, process, &moment.cell(process))
    } else {
        Ok(())
    }
}

/// Puts the cells of all processes that have a row.
fn put_cells(
    text: &mut Vec<u8>,
    table: &Table,
    frame: &Frame,
    width: u64,
    moment: &Moment,
) -> Result<(), AllocError>
    ensures { OnOk result (text.new.items ≡ text.old.items
        ++ texts_of (cell_at table.now frame.now width moment.now)
        (length table.now.processes)) }
{
    for place in 0..table.process_count() {
        put_cell_at(
            text,
            table,
            frame,
            width,
            moment,
            ProcessId::at(place as u8),
        )?;
    }
    Ok(())
}

/// Puts a ring in the row of a process.
fn put_circle(
    text: &mut Vec<u8>,
    frame: &Frame,
    process: ProcessId,
    line: &[u8],
) -> Result<(), AllocError>
    ensures { OnOk result (text.new.items ≡ text.old.items
        ++ circle_text frame.now line.now process) }
{
    put_all(
        text,
        &[
            Part::Plain("<circle class='ring' data-process='"),
            id_part(process),
            Part::Plain("' cx='16' cy='"),
            Part::Number(frame.row(process) + 8),
            Part::Plain("' r='4'><title>"),
            Part::Xml(line),
            Part::Plain("</title></circle>\n"),
        ],
    )
}

/// Puts the ring in the row of a caller, if it has one.
fn put_ring_in(
    text: &mut Vec<u8>,
    frame: &Frame,
    line: &[u8],
    caller: Caller,
) -> Result<(), AllocError>
    ensures { OnOk result (text.new.items ≡ text.old.items ++ ring_in frame.now line.now caller) }
{
    match caller {
        Caller::Process(process) => {
            if frame.has_row(process) {
                put_circle(text, frame, process, line)
            } else {
                Ok(())
            }
        }
        Caller::Init | Caller::Nobody => Ok(()),
    }
}

/// Puts the ring of the caller.
fn put_ring(
    text: &mut Vec<u8>,
    table: &Table,
    frame: &Frame,
    entry: &LentEntry<'_>,
) -> Result<(), AllocError>
    requires { IsPrintable table.now entry.now }
    ensures { OnOk result (text.new.items ≡ text.old.items
        ++ ring_text table.now frame.now entry.entry.now) }
{
    let line = line_of(table, entry);
    put_ring_in(text, frame, line.as_slice(), entry.process)
}

fn notice_process(notice: &Notice) -> ProcessId
    ensures { result ≡ notice_process notice.now }
{
    match notice {
        Notice::Woken(process, _) | Notice::Released(process) | Notice::Missed(process, _) => {
            *process
        }
    }
}

/// Puts the line from a caller's ring to the wedge of a notice.
fn put_dash(
    text: &mut Vec<u8>,
    frame: &Frame,
    caller: ProcessId,
    notice: &Notice,
) -> Result<(), AllocError>
    ensures { OnOk result (text.new.items ≡ text.old.items
        ++ dash_text frame.now caller notice.now) }
{
    put_all(
        text,
        &[
            Part::Plain("<line class='"),
            Part::Plain(notice_word(notice)),
            Part::Plain("' x1='16' x2='16' y1='"),
            Part::Number(frame.row(caller) + 8),
            Part::Plain("' y2='"),
            Part::Number(frame.row(notice_process(notice)) + 4),
            Part::Plain("'/>\n"),
        ],
    )
}

/// Puts the line from the caller's ring to the wedge of a notice, if both have a row.
fn put_dash_to(
    text: &mut Vec<u8>,
    frame: &Frame,
    caller: &Caller,
    notice: &Notice,
) -> Result<(), AllocError>
    ensures { OnOk result (text.new.items ≡ text.old.items
        ++ dash_to frame.now caller.now notice.now) }
{
    match caller {
        Caller::Process(caller) => {
            if frame.has_row(*caller) && frame.has_row(notice_process(notice)) {
                put_dash(text, frame, *caller, notice)
            } else {
                Ok(())
            }
        }
        Caller::Init | Caller::Nobody => Ok(()),
    }
}

/// Where the mark of a notice begins.
fn corner_of(notice: &Notice) -> &'static str
    ensures { result.now ≡ corner_text notice.now }
{
    match notice {
        Notice::Woken(_, _) | Notice::Released(_) => "M11,",
        Notice::Missed(_, _) => "M1,",
    }
}

/// The outline of the mark of a notice: a wedge, or a frame around the cell for a missed deadline.
fn outline_of(notice: &Notice) -> &'static str
    ensures { result.now ≡ outline_text notice.now }
{
    match notice {
        Notice::Woken(_, _) | Notice::Released(_) => " h10 l-5,9 z",
        Notice::Missed(_, _) => " m0,-4 h30 v20 h-30 z",
    }
}

/// Puts the mark of a notice in the row of its process.
fn put_wedge(text: &mut Vec<u8>, frame: &Frame, notice: &Notice) -> Result<(), AllocError>
    ensures { OnOk result (text.new.items ≡ text.old.items ++ wedge_text frame.now notice.now) }
{
    let process = notice_process(notice);
    put_all(
        text,
        &[
            Part::Plain("<path class='"),
            Part::Plain(notice_word(notice)),
            Part::Plain("' data-process='"),
            id_part(process),
            Part::Plain("' d='"),
            Part::Plain(corner_of(notice)),
            Part::Number(frame.row(process) + 2),
            Part::Plain(outline_of(notice)),
            Part::Plain("'><title>"),
            Part::Plain(notice_word(notice)),
            Part::Plain(" "),
            id_part(process),
            Part::Plain("</title></path>\n"),
        ],
    )
}

/// Puts the mark of a notice, if its process has a row.
fn put_wedge_at(text: &mut Vec<u8>, frame: &Frame, notice: &Notice) -> Result<(), AllocError>
    ensures { OnOk result (text.new.items ≡ text.old.items ++ wedge_at frame.now notice.now) }
{
    if frame.has_row(notice_process(notice)) {
        put_wedge(text, frame, notice)
    } else {
        Ok(())
    }
}

/// Puts the lines from the caller's ring to the wedges of the notices.
fn put_dashes(text: &mut Vec<u8>, frame: &Frame, entry: &LentEntry<'_>) -> Result<(), AllocError>
    ensures { OnOk result (text.new.items ≡ text.old.items
        ++ flat_map (dash_to frame.now entry.entry.now.process) entry.entry.now.notices) }
{
    for notice in entry.notices {
        put_dash_to(text, frame, &entry.process, notice)?;
    }
    Ok(())
}

/// Puts the wedges of the notices.
fn put_wedges(text: &mut Vec<u8>, frame: &Frame, entry: &LentEntry<'_>) -> Result<(), AllocError>
    ensures { OnOk result (text.new.items ≡ text.old.items
        ++ flat_map (wedge_at frame.now) entry.entry.now.notices) }
{
    for notice in entry.notices {
        put_wedge_at(text, frame, notice)?;
    }
    Ok(())
}

/// Puts the marks of a column.
#[tactic(auto, using(std::proofs::Common::append_assoc))]
fn put_marks(
    text: &mut Vec<u8>,
    table: &Table,
    frame: &Frame,
    entry: &LentEntry<'_>,
    moment: &Moment,
) -> Result<(), AllocError>
    requires { IsPrintable table.now entry.now }
    ensures { OnOk result (text.new.items ≡ text.old.items
        ++ marks_text table.now frame.now entry.entry.now moment.now) }
{
    put_time(text, frame, entry)?;
    put_call_at(text, table, frame, entry)?;
    put_cells(text, table, frame, frame.width_of(entry.number), moment)?;
    put_dashes(text, frame, entry)?;
    put_ring(text, table, frame, entry)?;
    put_wedges(text, frame, entry)
}

/// Puts the head of the column of the entry of this number.
fn put_start(text: &mut Vec<u8>, frame: &Frame, number: u32) -> Result<(), AllocError>
    ensures { OnOk result (text.new.items ≡ text.old.items ++ start_text frame.now number) }
{
    put_all(
        text,
        &[
            Part::Plain("<g class='column' data-entry='"),
            Part::Number(u64::from(number)),
            Part::Plain("' transform='translate("),
            Part::Number(frame.place(number)),
            Part::Plain(",0)'>\n<text class='number' x='16' y='"),
            Part::Number(u64::from(frame.bottom) + 8),
            Part::Plain("'>"),
            Part::Number(u64::from(number)),
            Part::Plain("</text>\n"),
        ],
    )
}

/// Puts the column of an entry, if the frame shows it. Fails only for want of memory.
#[tactic(auto, using(std::proofs::Common::append_assoc))]
pub fn put_column(
    text: &mut Vec<u8>,
    table: &Table,
    frame: &Frame,
    entry: &LentEntry<'_>,
    moment: &Moment,
) -> Result<(), AllocError>
    requires { IsPrintable table.now entry.now }
    ensures { OnOk result (text.new.items ≡ text.old.items
        ++ column_text table.now frame.now entry.entry.now moment.now) }
{
    if !frame.columns.shows(entry) {
        return Ok(());
    }
    put_start(text, frame, entry.number)?;
    put_marks(text, table, frame, entry, moment)?;
    put_column_end(text)
}
