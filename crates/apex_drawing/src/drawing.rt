//! The drawing of a picture, column by column, while the partition runs.
ghost use Rattle.std.specs.Prelude.{◌≡◌, ◌++◌, ◌+◌, ◌<◌, ◌≤◌, ℕ, [], All, length, OnErr, OnOk};
ghost use Rattle.std.specs.Io.KnownBytes.{Appends};
ghost use Rattle.apex_calls.specs.Lines.{IsPrintable};
ghost use Rattle.apex_laws.specs.GoesOn.{CanGoOn};
ghost use Rattle.apex_machine.specs.Machine.{Machine, accept, opening, run, situation_of};
ghost use Rattle.apex_machine.specs.Events.{IsWithin};
ghost use Rattle.apex_types.specs.Limits.{latest};
ghost use Rattle.apex_types.specs.declared.limits.TheConstants.{MOST_ENTRIES, MOST_PROCESSES};
ghost use Rattle.apex_dispatch.specs.Situations.{situation_in};
ghost use Rattle.apex_history.specs.Counted.{inner_of, failures_of, AppendsBeginning};
ghost use Rattle.apex_history.specs.Page.{Passes};
ghost use Rattle.apex_moments.specs.Moments.{Shown, moment_at, moment_in};
ghost use Rattle.apex_drawing.specs.Courses.{IsAt};
ghost use Rattle.apex_drawing.specs.declared.drawing.DrawFault.TheVariants.{Memory};
ghost use Rattle.apex_drawing.specs.Drawing.{CountsDrawing, Grows};
ghost use Rattle.apex_drawing.specs.Pages.{pending};
ghost use Rattle.apex_drawing.specs.Pictures.{column_text, foot_text, head_text, lasting_of, picture_text};
ghost use Rattle.apex_pictures.specs.Svg as svg_text;
ghost use Rattle.apex_drawing.specs.Styles.{Fits, Follows, HasTracks};
ghost use Rattle.apex_traces.specs.Tracks.{bare};
ghost use Rattle.apex_traces.specs.declared.pieces.TheConstants.{GATHERED};
ghost use Rattle.arrayvec.specs.ArrayVec.{array_vec_len};

use crate::courses::{Course, make, maker};
use crate::pages::Page;
use crate::styles::Style;
use apex_configs::Table;
use apex_dispatch::Situation;
use apex_history::{Counted, Sink};
use apex_moments::{Instant, moment_in};
use apex_pictures::Frame;
use apex_scales::TickLength;
use apex_store::Store;
use apex_traces::{Lasting, Tracks, tracks_in};
use apex_types::{Event, LentEntry, Notices};
use std::alloc::{AllocError, Global};
use std::io::Write;
use thiserror::Error;

/// The reason why a picture was not drawn to its end.
#[derive(Clone, Copy, Debug, PartialEq, Eq, Error)]
pub enum DrawFault {
    /// A growth was refused.
    #[error("out of memory")]
    Memory,
    /// A write of the picture failed.
    #[error("write failed")]
    Write,
}

impl From<AllocError> for DrawFault {
    ghost from_gives = { λ _ fault. fault ≡ Memory };

    fn from(_error: AllocError) -> DrawFault {
        DrawFault::Memory
    }
}

/// Puts what comes before the columns, of which the first has this moment before it.
fn put_head(
    text: &mut Vec<u8>,
    style: &Style,
    table: &Table,
    first: &Tracks,
) -> Result<(), AllocError>
    requires { first.now ≡ bare (moment_in table.now (opening table.now)) }
    ensures { OnOk result (text.new.items ≡ text.old.items ++ head_text style.now table.now) }
{
    match style {
        Style::Svg(frame) => apex_pictures::put_head(text, frame),
        Style::Trace(_) => apex_traces::put_head(text, table, first),
    }
}

/// Puts what comes after the columns of a run so far.
fn put_foot<S: Store>(
    text: &mut Vec<u8>,
    style: &Style,
    table: &Table,
    course: &Course<S>,
) -> Result<(), AllocError>
    requires { (machine : Machine) × IsAt style.now table.now machine course.now }
    ensures { (machine : Machine) → IsAt style.now table.now machine course.now
        → OnOk result (text.new.items ≡ text.old.items ++ foot_text style.now table.now machine) }
{
    match style {
        Style::Svg(frame) => apex_pictures::put_foot(text, table, frame),
        Style::Trace(tick) => {
            table.lawful();
            let end = course.instant.next(course.situation.now());
            apex_traces::put_foot(text, table, end.time(*tick), &course.shown)
        }
    }
}

/// Adds what comes after the columns of a run so far.
fn add_foot<S: Store>(
    page: &mut Page,
    style: &Style,
    table: &Table,
    course: &Course<S>,
) -> Result<(), AllocError>
    requires { (machine : Machine) × IsAt style.now table.now machine course.now }
    ensures { (machine : Machine) → IsAt style.now table.now machine course.now
        → OnOk result (pending page.new
        ≡ pending page.old ++ foot_text style.now table.now machine) }
{
    page.settle()?;
    put_foot(&mut page.text, style, table, course)
}

/// The times of two instants, for ticks of this length.
fn lasting_of(tick: TickLength, begun: Instant, ended: Instant) -> Lasting
    requires times { (begun.now ≤ latest) × (ended.now ≤ latest) }
    ensures { result ≡ lasting_of tick begun ended }
{
    Lasting {
        begin: begun.time(tick),
        end: ended.time(tick),
    }
}

/// Puts the column of the latest entry in a frame.
// Not inlined: a function clears the room of its values at each call, and a moment is large.
#[inline(never)]
fn put_svg_column<S: Store>(
    text: &mut Vec<u8>,
    frame: &Frame,
    table: &Table,
    situation: &Situation<S>,
    entry: &LentEntry<'_>,
) -> Result<(), AllocError>
    requires printable { IsPrintable table.now entry.now }
    requires few { length situation.now.roster.records ≤ MOST_PROCESSES }
    ensures { OnOk result (text.new.items ≡ text.old.items ++ svg_text.column_text table.now
        frame.now entry.entry.now (moment_at table.now (situation_in situation.now))) }
{
    let moment = moment_in(table, situation);
    apex_pictures::put_column(text, table, frame, entry, &moment)
}

/// Adds the column of the latest entry, which has this instant, as `begun` is that before it; if a
/// trace is drawn, `shown` are the tracks before it, and then those after it.
fn add_column<S: Store>(
    page: &mut Page,
    style: &Style,
    table: &Table,
    situation: &Situation<S>,
    begun: Instant,
    instant: Instant,
    entry: &LentEntry<'_>,
    shown: &mut Tracks,
) -> Result<(), AllocError>
    requires printable { IsPrintable table.now entry.now }
    requires records { length situation.now.roster.records ≡ length table.now.processes }
    requires few { length table.now.processes ≤ MOST_PROCESSES }
    requires many { HasTracks style.now shown.old (length table.now.processes) }
    requires fits { Fits style.now shown.old table.now }
    requires times { (begun.now ≤ latest) × (instant.now ≤ latest) }
    requires room { array_vec_len page.old.columns ≤ GATHERED }
    ensures drawn { (before : Shown) → Follows style.now shown.old before
        → OnOk result (pending page.new ≡ pending page.old ++ column_text style.now table.now
        (record {
          begun = begun;
          instant = instant;
          before = before;
          entry = entry.entry.now;
          after = moment_at table.now (situation_in situation.now);
        })) }
    ensures shown { OnOk result (Follows style.now shown.new
        (moment_at table.now (situation_in situation.now))) }
{
    match style {
        Style::Svg(frame) => {
            page.settle()?;
            put_svg_column(&mut page.text, frame, table, situation, entry)
        }
        Style::Trace(tick) => {
            let lasting = lasting_of(*tick, begun, instant);
            apex_traces::add_column(&mut page.columns, table, situation, lasting, entry, shown);
            Ok(())
        }
    }
}

/// Makes the event, if the history has room for its entry, and adds its column.
fn draw_event<S: Store>(
    page: &mut Page,
    style: &Style,
    table: &Table,
    course: &mut Course<S>,
    event: Event,
) -> Result<(), AllocError>
    requires within { IsWithin table.now.cores event }
    requires at { (machine : Machine) × IsAt style.now table.now machine course.old }
    requires room { array_vec_len page.old.columns ≤ GATHERED }
    ensures at { (machine : Machine) → IsAt style.now table.now machine course.old
        → OnOk result (IsAt style.now table.now (accept table.now machine event) course.new) }
    ensures drawn { (machine : Machine) → IsAt style.now table.now machine course.old
        → OnOk result (Grows style.now table.now machine (accept table.now machine event)
        (pending page.old) (pending page.new)) }
{
    table.lawful();
    if course.entries >= table.limit() {
        return Ok(());
    }
    let who = maker(&event);
    let deed = make(table, &mut course.situation, event, &mut course.notices);
    course.entries += 1;
    let now = course.situation.now();
    let begun = course.instant;
    course.instant = begun.next(now);
    let entry = LentEntry {
        number: course.entries,
        now,
        who,
        process: deed.caller,
        call: deed.call,
        reply: deed.reply,
        notices: course.notices.as_slice(),
    };
    let shown = &mut course.shown;
    add_column(
        page,
        style,
        table,
        &course.situation,
        begun,
        course.instant,
        &entry,
        shown,
    )
}

/// Draws the picture of the run of the events on this table, from its situation before any event on, and
/// writes it column by column. It leaves out events for which the history has no room.
///
/// It takes memory for the text of a column and not for the history. If memory is refused or a
/// write fails, a prefix of the picture was written.
pub fn draw<S: Store, W: Sink>(
    alloc: Global,
    style: &Style,
    table: &Table,
    situation: Situation<S>,
    events: &[Event],
    writer: &mut Counted<W>,
) -> Result<(), DrawFault>
    requires opened { situation_in situation ≡ situation_of table.now (opening table.now) }
    requires goes_on { (left : ℕ) → left ≤ MOST_ENTRIES
        → CanGoOn table.now left (situation_in situation) }
    requires within { All (IsWithin table.now.cores) events.now }
    ensures ok { OnOk result
        (Appends (W.contents (inner_of writer.old)) (W.contents (inner_of writer.new))
        (picture_text style.now table.now (run table.now (opening table.now) events.now))) }
    ensures err { OnErr result
        (AppendsBeginning (W.contents (inner_of writer.old)) (W.contents (inner_of writer.new))
        (picture_text style.now table.now (run table.now (opening table.now) events.now))) }
    ensures counted { CountsDrawing result (failures_of writer.old) (failures_of writer.new) }
{
    table.lawful();
    let mut text = Vec::new(alloc);
    let shown = tracks_in(table, &situation);
    let Ok(()) = put_head(&mut text, style, table, &shown) else {
        return Err(DrawFault::Memory);
    };
    let mut page = Page::new(text);
    let mut course = Course {
        situation,
        notices: Notices::new(),
        entries: 0,
        instant: Instant::opening(),
        shown,
    };
    for event in events {
        let Ok(()) = draw_event(&mut page, style, table, &mut course, *event) else {
            return Err(DrawFault::Memory);
        };
        page.make_room(writer)?;
    }
    let Ok(()) = add_foot(&mut page, style, table, &course) else {
        return Err(DrawFault::Memory);
    };
    page.hand_on(writer)
}
