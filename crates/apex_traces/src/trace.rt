//! A picture as a trace in the Trace Event Format, which is JSON: tracks of the cores, of the
//! processes and of the mutexes, and counters of the other objects. The calls and the arrows are in
//! modules of their own. The axis has microseconds, and times are nanoseconds.
ghost use Rattle.std.specs.Prelude.{◌≡◌, ◌+◌, ◌*◌, ◌≤◌, ◌++◌, [], flat_map, is_some, length, map, OnOk};
ghost use Rattle.arrayvec.specs.ArrayVec.{array_vec_len};
ghost use Rattle.apex_machine.specs.text.Listing.{texts_of};
ghost use Rattle.apex_types.specs.declared.limits.TheConstants.{MOST_CORES, MOST_NOTICES, MOST_OBJECTS, MOST_PROCESSES};
ghost use Rattle.apex_calls.specs.Lines.{IsPrintable};
ghost use Rattle.apex_moments.specs.Counts.{HasCounts};
ghost use Rattle.apex_dispatch.specs.Situations.{situation_in};
ghost use Rattle.apex_moments.specs.Moments.{moment_at, none_shown, running_in, with_cells, with_running};
ghost use Rattle.apex_moments.specs.Places.{of_places};
ghost use Rattle.apex_traces.specs.Stamps.{Stamps};
ghost use Rattle.apex_traces.specs.Trace as trace;
ghost use Rattle.apex_traces.specs.declared.pieces.TheConstants.{ARROW, CALL, COLUMN, MARK, PIECE_ROOM, TRACK};
ghost use Rattle.apex_traces.specs.declared.trace.TheConstants.{BEGIN, END, MARK_DETAIL, MARK_WORD, NAME};
ghost use Rattle.apex_traces.specs.Beings.{is_begun};
ghost use Rattle.apex_traces.specs.declared.beings.TheConstants.{BEING_ROOM};
ghost use Rattle.apex_traces.specs.Tracks.{bare, bare_cells, cell_on, track_of};

use crate::arrows::{add_heads, add_tails};
use crate::beings::{BEING_ROOM, Being, add_being_name, is_begun, is_same_being};
use crate::calls::{Lasting, Said};
use crate::counters::put_first_counts;
use crate::escapes::add_escaped;
use crate::mutexes::{add_mutex_ends, put_mutex_names};
use crate::pieces::{ARROW, CALL, DIGITS, MARK, Piece, TRACK, add, add_text, add_track};
use crate::stamps::{FRONT, Group, TIMED, Timed, add_begin_front, add_end_front, add_stamp};
use crate::tracks::{Tracks, is_still, track_at, track_by};
use apex_configs::Table;
use apex_dispatch::Situation;
use apex_history::{code_word, deadline_word};
use apex_json::MOST_ESCAPE;
use apex_moments::{Part, id_part, is_same_process, profile_number, put, put_all, running_at};
use apex_names::process_name;
use apex_store::Store;
use apex_types::{
    CoreId, LentEntry, MOST_CORE_PLACES, MOST_NAME, MOST_NOTICES, MutexId, Notice, ProcessId,
};
use std::alloc::AllocError;

/// The version of the programs.
const VERSION: &str = "0.6.0";

/// The place of a slice or a mark in a trace: its group, its track and its time.
#[derive(Clone, Copy)]
pub(crate) struct Spot {
    group: Group,
    track: u32,
    /// In nanoseconds.
    time: u64,
}

/// Puts the name of a core's track, and its place among those of the cores.
fn put_core_name(text: &mut Vec<u8>, core: CoreId) -> Result<(), AllocError>
    ensures { OnOk result (text.new.items ≡ text.old.items ++ trace.core_name_text core) }
{
    put_all(
        text,
        &[
            Part::Plain(",\n{\"ph\":\"M\",\"pid\":1,\"tid\":"),
            Part::Number(u64::from(core.number())),
            Part::Plain(",\"name\":\"thread_name\",\"args\":{\"name\":\"core "),
            Part::Number(u64::from(core.number())),
            Part::Plain("\"}},\n{\"ph\":\"M\",\"pid\":1,\"tid\":"),
            Part::Number(u64::from(core.number())),
            Part::Plain(",\"name\":\"thread_sort_index\",\"args\":{\"sort_index\":"),
            Part::Number(u64::from(core.number())),
            Part::Plain("}}"),
        ],
    )
}

/// Puts the name of a process's track, and its place among those of the processes.
fn put_process_name(text: &mut Vec<u8>, table: &Table, process: ProcessId) -> Result<(), AllocError>
    ensures { OnOk result (text.new.items ≡ text.old.items
        ++ trace.process_name_text table.now process) }
{
    put_all(
        text,
        &[
            Part::Plain(",\n{\"ph\":\"M\",\"pid\":2,\"tid\":"),
            id_part(process),
            Part::Plain(",\"name\":\"thread_name\",\"args\":{\"name\":\""),
            Part::Json(process_name(table, process)),
            Part::Plain("\"}},\n{\"ph\":\"M\",\"pid\":2,\"tid\":"),
            id_part(process),
            Part::Plain(",\"name\":\"thread_sort_index\",\"args\":{\"sort_index\":"),
            id_part(process),
            Part::Plain("}}"),
        ],
    )
}

fn put_core_names(text: &mut Vec<u8>, table: &Table) -> Result<(), AllocError>
    ensures { OnOk result (text.new.items ≡ text.old.items
        ++ texts_of trace.core_name_text table.now.cores) }
{
    for core in 0..table.cores() {
        put_core_name(text, CoreId::new(core))?;
    }
    Ok(())
}

fn put_process_names(text: &mut Vec<u8>, table: &Table) -> Result<(), AllocError>
    ensures { OnOk result (text.new.items ≡ text.old.items
        ++ texts_of (trace.process_name_text table.now) (length table.now.processes)) }
{
    for place in 0..table.process_count() {
        put_process_name(text, table, ProcessId::at(place as u8))?;
    }
    Ok(())
}

/// Puts the head of the file.
fn put_opening(text: &mut Vec<u8>, table: &Table) -> Result<(), AllocError>
    ensures { OnOk result (text.new.items ≡ text.old.items ++ trace.opening_text table.now) }
{
    put_all(
        text,
        &[
            Part::Plain(
                "{\"displayTimeUnit\":\"ms\",\"otherData\":{\"program\":\"apex\",\"version\":\"",
            ),
            Part::Plain(VERSION),
            Part::Plain("\",\"profile\":"),
            Part::Number(profile_number(table.profile())),
            Part::Plain(
                "},\"traceEvents\":[\n{\"ph\":\"M\",\"pid\":1,\"name\":\"process_name\",\"args\":{\"name\":\"cores\"}},\n{\"ph\":\"M\",\"pid\":2,\"name\":\"process_name\",\"args\":{\"name\":\"processes\"}},\n{\"ph\":\"M\",\"pid\":3,\"name\":\"process_name\",\"args\":{\"name\":\"objects\"}},\n{\"ph\":\"M\",\"pid\":4,\"name\":\"process_name\",\"args\":{\"name\":\"partition\"}},\n{\"ph\":\"M\",\"pid\":4,\"tid\":1,\"name\":\"thread_name\",\"args\":{\"name\":\"init\"}},\n{\"ph\":\"M\",\"pid\":4,\"tid\":1,\"name\":\"thread_sort_index\",\"args\":{\"sort_index\":1}},\n{\"ph\":\"M\",\"pid\":4,\"tid\":2,\"name\":\"thread_name\",\"args\":{\"name\":\"ticks\"}},\n{\"ph\":\"M\",\"pid\":4,\"tid\":2,\"name\":\"thread_sort_index\",\"args\":{\"sort_index\":2}}",
            ),
        ],
    )
}

/// Puts what comes before the columns: the names of the tracks, and all counts of the moment before
/// the first entry. Fails only for want of memory.
#[tactic(auto, using(std::proofs::Common::append_assoc))]
pub fn put_head(text: &mut Vec<u8>, table: &Table, first: &Tracks) -> Result<(), AllocError>
    ensures { OnOk result (text.new.items ≡ text.old.items ++ trace.head_text table.now first.now) }
{
    put_opening(text, table)?;
    put_core_names(text, table)?;
    put_process_names(text, table)?;
    put_mutex_names(text, table)?;
    put_first_counts(text, table, first.counts())
}

/// The most bytes of the end of a slice: the front, the number of the track and the back.
const END: usize = FRONT + DIGITS + TIMED + 1;

/// The most bytes of the beginning of a slice, up to its name.
pub(crate) const BEGIN: usize = FRONT + DIGITS + TIMED + 9;

/// The most bytes of the name of a slice and of what is behind it: the number of a process, and its
/// name, of which JSON escapes each byte at the most.
pub(crate) const NAME: usize = DIGITS + 1 + MOST_ESCAPE * MOST_NAME + 2;

/// The most bytes of the word of a mark, with the space behind it.
const MARK_WORD: usize = 8;

/// The most bytes of the detail of a mark.
const MARK_DETAIL: usize = 14;

/// Adds the end of a slice.
#[inline(always)]
fn add_end(piece: &mut Piece, spot: Spot, stamp: &Timed)
    requires stamps { Stamps stamp.now spot }
    requires room { array_vec_len piece.old + END ≤ PIECE_ROOM }
    ensures text { piece.new.items ≡ piece.old.items ++ trace.end_text spot }
    ensures short { array_vec_len piece.new ≤ array_vec_len piece.old + END }
{
    add_end_front(piece, spot.group);
    add_track(piece, spot.track);
    add_stamp(piece, stamp);
    add_text(piece, *b"}");
}

/// Adds the beginning of a slice, up to its name.
#[inline(always)]
pub(crate) fn add_begin(piece: &mut Piece, spot: Spot, stamp: &Timed)
    requires stamps { Stamps stamp.now spot }
    requires room { array_vec_len piece.old + BEGIN ≤ PIECE_ROOM }
    ensures text { piece.new.items ≡ piece.old.items ++ trace.begin_text spot }
    ensures short { array_vec_len piece.new ≤ array_vec_len piece.old + BEGIN }
{
    add_begin_front(piece, spot.group);
    add_track(piece, spot.track);
    add_stamp(piece, stamp);
    add_text(piece, *b",\"name\":\"");
}

/// Adds the name of the slice of a process that a core runs.
#[inline(always)]
#[tactic(auto, using(std::proofs::Common::append_assoc), unfolding(crate::specs::Trace::run_name_text))]
fn add_run_name(piece: &mut Piece, table: &Table, process: ProcessId)
    requires { array_vec_len piece.old + NAME ≤ PIECE_ROOM }
    ensures text { piece.new.items ≡ piece.old.items ++ trace.run_name_text table.now process }
    ensures short { array_vec_len piece.new ≤ array_vec_len piece.old + NAME }
{
    add_track(piece, process.number());
    add_text(piece, *b" ");
    add_escaped(piece, process_name(table, process));
    add_text(piece, *b"\"}");
}

/// Adds the slice of the process that a core runs, if it runs one.
#[inline(always)]
#[tactic(auto, using(std::proofs::Common::append_assoc))]
fn add_running(
    piece: &mut Piece,
    table: &Table,
    spot: Spot,
    stamp: &Timed,
    running: &Option<ProcessId>,
)
    requires stamps { Stamps stamp.now spot }
    requires room { array_vec_len piece.old + BEGIN + NAME ≤ PIECE_ROOM }
    ensures text { piece.new.items ≡ piece.old.items
        ++ trace.run_of table.now spot running.now }
    ensures short { array_vec_len piece.new ≤ array_vec_len piece.old + BEGIN + NAME }
{
    if let Some(process) = running {
        add_begin(piece, spot, stamp);
        add_run_name(piece, table, *process);
    }
}

/// Adds the slice of a process; a dormant one has none.
#[inline(always)]
#[tactic(auto, using(std::proofs::Common::append_assoc))]
fn add_being(piece: &mut Piece, table: &Table, spot: Spot, stamp: &Timed, being: &Being)
    requires stamps { Stamps stamp.now spot }
    requires room { array_vec_len piece.old + BEGIN + BEING_ROOM + 2 ≤ PIECE_ROOM }
    ensures text { piece.new.items ≡ piece.old.items
        ++ trace.being_text table.now spot being.now }
    ensures short { array_vec_len piece.new ≤ array_vec_len piece.old + BEGIN + BEING_ROOM + 2 }
{
    if is_begun(being) {
        add_begin(piece, spot, stamp);
        add_being_name(piece, table, being);
        add_text(piece, *b"\"}");
    }
}

/// Adds the end of a slice, if there is one.
#[inline(always)]
pub(crate) fn add_ended(piece: &mut Piece, spot: Spot, stamp: &Timed, begun: bool)
    requires stamps { Stamps stamp.now spot }
    requires room { array_vec_len piece.old + END ≤ PIECE_ROOM }
    ensures text { piece.new.items ≡ piece.old.items ++ trace.ended begun spot }
    ensures short { array_vec_len piece.new ≤ array_vec_len piece.old + END }
{
    if begun {
        add_end(piece, spot, stamp);
    }
}

/// Adds the end of the slice on the track of a core, and the beginning of the next one.
// Not inlined, as on most tracks an entry changes nothing.
#[inline(never)]
#[tactic(auto, using(std::proofs::Common::append_assoc))]
fn add_switch(
    piece: &mut Piece,
    table: &Table,
    core: CoreId,
    time: u64,
    stamp: &Timed,
    before: &Option<ProcessId>,
    after: &Option<ProcessId>,
)
    requires stamp { stamp.now ≡ time }
    requires room { array_vec_len piece.old + TRACK ≤ PIECE_ROOM }
    ensures text { piece.new.items ≡ piece.old.items
        ++ (trace.ended (is_some before.now) (trace.core_spot core time)
        ++ trace.run_of table.now (trace.core_spot core time) after.now) }
    ensures short { array_vec_len piece.new ≤ array_vec_len piece.old + TRACK }
{
    let spot = core_spot(core, time);
    add_ended(piece, spot, stamp, before.is_some());
    add_running(piece, table, spot, stamp, after);
}

/// Adds the changes on the track of a core.
#[inline(always)]
fn add_core(
    piece: &mut Piece,
    table: &Table,
    core: CoreId,
    time: u64,
    stamp: &Timed,
    before: &Option<ProcessId>,
    after: &Option<ProcessId>,
)
    requires stamp { stamp.now ≡ time }
    requires room { array_vec_len piece.old + TRACK ≤ PIECE_ROOM }
    ensures text { piece.new.items ≡ piece.old.items ++ trace.core_text table.now
        (trace.core_spot core time) before.now after.now }
    ensures short { array_vec_len piece.new ≤ array_vec_len piece.old + TRACK }
{
    if is_same_process(before, after) {
        return;
    }
    // Copies, so that only a change takes their place in memory.
    let (old, new) = (*before, *after);
    add_switch(piece, table, core, time, stamp, &old, &new);
}

/// Adds the end of the slice on the track of a process, and the beginning of the next one.
// Not inlined, as on most tracks an entry changes nothing.
#[inline(never)]
#[tactic(auto, using(std::proofs::Common::append_assoc))]
fn add_change(
    piece: &mut Piece,
    table: &Table,
    process: ProcessId,
    time: u64,
    stamp: &Timed,
    before: &Being,
    after: &Being,
)
    requires stamp { stamp.now ≡ time }
    requires room { array_vec_len piece.old + TRACK ≤ PIECE_ROOM }
    ensures text { piece.new.items ≡ piece.old.items
        ++ (trace.ended (is_begun before.now) (trace.process_spot process time)
        ++ trace.being_text table.now (trace.process_spot process time) after.now) }
    ensures short { array_vec_len piece.new ≤ array_vec_len piece.old + TRACK }
{
    let spot = process_spot(process, time);
    add_ended(piece, spot, stamp, is_begun(before));
    add_being(piece, table, spot, stamp, after);
}

/// Adds the changes on the track of a process.
#[inline(always)]
fn add_process(
    piece: &mut Piece,
    table: &Table,
    process: ProcessId,
    time: u64,
    stamp: &Timed,
    before: &Being,
    after: &Being,
)
    requires stamp { stamp.now ≡ time }
    requires room { array_vec_len piece.old + TRACK ≤ PIECE_ROOM }
    ensures text { piece.new.items ≡ piece.old.items ++ trace.process_text table.now
        (trace.process_spot process time) before.now after.now }
    ensures short { array_vec_len piece.new ≤ array_vec_len piece.old + TRACK }
{
    if is_same_being(before, after) {
        return;
    }
    add_change(piece, table, process, time, stamp, before, after);
}

/// The track of a core.
fn core_spot(core: CoreId, time: u64) -> Spot
    ensures { result ≡ trace.core_spot core time }
{
    Spot {
        group: Group::Cores,
        track: u32::from(core.number()),
        time,
    }
}

/// The track of a process.
fn process_spot(process: ProcessId, time: u64) -> Spot
    ensures { result ≡ trace.process_spot process time }
{
    Spot {
        group: Group::Processes,
        track: process.number(),
        time,
    }
}

/// The track of a mutex.
pub(crate) fn mutex_spot(mutex: MutexId, time: u64) -> Spot
    ensures { result ≡ trace.mutex_spot mutex time }
{
    Spot {
        group: Group::Objects,
        track: mutex.number(),
        time,
    }
}

/// Adds the changes on the tracks of the cores, by the process that each core ran before and the
/// one that it runs now.
fn add_cores(
    piece: &mut Piece,
    table: &Table,
    time: u64,
    stamp: &Timed,
    before: &[Option<ProcessId>],
    after: &[Option<ProcessId>],
)
    requires stamp { stamp.now ≡ time }
    requires room { array_vec_len piece.old + TRACK * MOST_CORES ≤ PIECE_ROOM }
    ensures text { piece.new.items ≡ piece.old.items
        ++ texts_of (trace.core_at table.now time (with_running before.now)
        (with_running after.now)) table.now.cores }
    ensures short { array_vec_len piece.new ≤ array_vec_len piece.old + TRACK * MOST_CORES }
{
    for place in 0..table.cores() {
        let core = CoreId::new(place);
        let (old, new) = (running_at(before, core), running_at(after, core));
        add_core(piece, table, core, time, stamp, &old, &new);
    }
}

/// Takes the process that each core runs from a store, and adds the changes on the tracks of the
/// cores.
#[inline(never)]
pub(crate) fn add_runs<S: Store>(
    piece: &mut Piece,
    table: &Table,
    store: &S,
    time: u64,
    stamp: &Timed,
    running: &mut [Option<ProcessId>],
)
    requires stamp { stamp.now ≡ time }
    requires many { length running.old ≡ MOST_CORES }
    requires room { array_vec_len piece.old + TRACK * MOST_CORES ≤ PIECE_ROOM }
    ensures text { piece.new.items ≡ piece.old.items
        ++ texts_of (trace.core_at table.now time (with_running running.old)
        (with_running (running_in (S.roster store.now)))) table.now.cores }
    ensures running { running.new ≡ running_in (S.roster store.now) }
    ensures short { array_vec_len piece.new ≤ array_vec_len piece.old + TRACK * MOST_CORES }
{
    for place in 0..table.cores() {
        let (core, here) = (CoreId::new(place), usize::from(place));
        let (before, after) = (running[here], store.chosen(core));
        if !is_same_process(&before, &after) {
            add_switch(piece, table, core, time, stamp, &before, &after);
            running[here] = after;
        }
    }
    // The table has no core from here on.
    for place in table.cores()..MOST_CORE_PLACES as u8 {
        running[usize::from(place)] = store.chosen(CoreId::new(place));
    }
}

/// Brings the tracks up to the processes of a store, and adds the changes on them.
#[inline(never)]
pub(crate) fn add_processes<S: Store>(
    piece: &mut Piece,
    table: &Table,
    store: &S,
    running: &[Option<ProcessId>],
    time: u64,
    stamp: &Timed,
    tracks: &mut [Being],
)
    requires stamp { stamp.now ≡ time }
    requires running { running.now ≡ running_in (S.roster store.now) }
    requires many { length tracks.old ≡ length (S.roster store.now).records }
    requires few { length tracks.old ≤ MOST_PROCESSES }
    requires room { array_vec_len piece.old + TRACK * MOST_PROCESSES ≤ PIECE_ROOM }
    ensures text { piece.new.items ≡ piece.old.items
        ++ texts_of (trace.process_at table.now time
        (with_cells (map cell_on tracks.old)) (with_cells (bare_cells (S.roster store.now))))
        (length (S.roster store.now).records) }
    ensures tracks { tracks.new
        ≡ of_places (track_of (S.roster store.now)) (length (S.roster store.now).records) }
    ensures short { array_vec_len piece.new ≤ array_vec_len piece.old + TRACK * MOST_PROCESSES }
{
    let records = store.records();
    for place in 0..tracks.len() {
        let process = ProcessId::at(place as u8);
        let before = tracks[place];
        let fields = &records[place];
        if !is_still(store, process, fields, running, &before) {
            let track = track_by(store, process, fields, running);
            add_process(piece, table, process, time, stamp, &before, &track);
            tracks[place] = track;
        }
    }
}

/// Adds the ends of the slices of all processes.
fn add_ends(piece: &mut Piece, table: &Table, time: u64, stamp: &Timed, last: &[Being])
    requires stamp { stamp.now ≡ time }
    requires room { array_vec_len piece.old + TRACK * MOST_PROCESSES ≤ PIECE_ROOM }
    ensures text { piece.new.items ≡ piece.old.items
        ++ texts_of (trace.process_at table.now time
        (with_cells (map cell_on last.now)) none_shown) (length table.now.processes) }
    ensures short { array_vec_len piece.new ≤ array_vec_len piece.old + TRACK * MOST_PROCESSES }
{
    for place in 0..table.process_count() {
        let process = ProcessId::at(place as u8);
        let before = track_at(last, place);
        add_process(piece, table, process, time, stamp, &before, &Being::Dormant);
    }
}

/// Adds the mark of a notice on the track of a process, by the two words of its name.
#[inline(always)]
#[tactic(auto, using(std::proofs::Common::append_assoc))]
fn add_mark(
    piece: &mut Piece,
    time: u64,
    stamp: &Timed,
    process: ProcessId,
    word: &str,
    detail: &str,
)
    requires stamp { stamp.now ≡ time }
    requires word { length word.now ≤ MARK_WORD }
    requires detail { length detail.now ≤ MARK_DETAIL }
    requires room { array_vec_len piece.old + MARK ≤ PIECE_ROOM }
    ensures text { piece.new.items ≡ piece.old.items
        ++ trace.mark_text time process word.now detail.now }
    ensures short { array_vec_len piece.new ≤ array_vec_len piece.old + MARK }
{
    add_text(piece, *b",\n{\"ph\":\"i\",\"pid\":2,\"tid\":");
    add_track(piece, process.number());
    add_stamp(piece, stamp);
    add_text(piece, *b",\"name\":\"");
    add(piece, word);
    add(piece, detail);
    add_text(piece, *b"\"}");
}

/// Adds the mark of a notice: its word, and the code or the type of the deadline.
#[inline(always)]
fn add_marked(piece: &mut Piece, time: u64, stamp: &Timed, notice: &Notice)
    requires stamp { stamp.now ≡ time }
    requires room { array_vec_len piece.old + MARK ≤ PIECE_ROOM }
    ensures text { piece.new.items ≡ piece.old.items
        ++ trace.marked_text time notice.now }
    ensures short { array_vec_len piece.new ≤ array_vec_len piece.old + MARK }
{
    match notice {
        Notice::Woken(process, code) => {
            add_mark(piece, time, stamp, *process, "woken ", code_word(*code))
        }
        Notice::Released(process) => add_mark(piece, time, stamp, *process, "released", ""),
        Notice::Missed(process, deadline) => {
            add_mark(
                piece,
                time,
                stamp,
                *process,
                "missed ",
                deadline_word(*deadline),
            )
        }
    }
}

/// Adds the marks of all notices of an entry.
#[inline(always)]
fn add_marks(piece: &mut Piece, time: u64, stamp: &Timed, notices: &[Notice])
    requires stamp { stamp.now ≡ time }
    requires few { length notices.now ≤ MOST_NOTICES }
    requires room { array_vec_len piece.old + MARK * MOST_NOTICES ≤ PIECE_ROOM }
    ensures text { piece.new.items ≡ piece.old.items
        ++ flat_map (trace.marked_text time) notices.now }
    ensures short { array_vec_len piece.new ≤ array_vec_len piece.old + MARK * MOST_NOTICES }
{
    for notice in notices {
        add_marked(piece, time, stamp, notice);
    }
}

/// Adds the slice of an entry, and the beginnings of its arrows.
#[inline(always)]
#[tactic(auto, using(std::proofs::Common::append_assoc))]
pub(crate) fn add_call<S: Store>(
    piece: &mut Piece,
    said: &mut Said,
    table: &Table,
    store: &S,
    lasting: Lasting,
    begun: &Timed,
    entry: &LentEntry<'_>,
)
    requires printable { IsPrintable table.now entry.now }
    requires begun { begun.now ≡ lasting.begin }
    requires room { array_vec_len piece.old + CALL + ARROW * MOST_NOTICES ≤ PIECE_ROOM }
    ensures text { piece.new.items ≡ piece.old.items ++ trace.call_text table.now lasting
        entry.entry.now (with_cells (bare_cells (S.roster store.now))) }
    ensures short { array_vec_len piece.new
        ≤ array_vec_len piece.old + CALL + ARROW * MOST_NOTICES }
{
    said.add_call(piece, table, lasting, begun, entry);
    add_tails(
        piece,
        store,
        begun,
        &entry.process,
        entry.number,
        entry.notices,
    );
}

/// Adds the marks of an entry's notices, and the ends of its arrows.
#[inline(always)]
#[tactic(auto, using(std::proofs::Common::append_assoc))]
pub(crate) fn add_notices<S: Store>(
    piece: &mut Piece,
    store: &S,
    time: u64,
    stamp: &Timed,
    entry: &LentEntry<'_>,
)
    requires stamp { stamp.now ≡ time }
    requires room { array_vec_len piece.old + (MARK + ARROW) * MOST_NOTICES ≤ PIECE_ROOM }
    ensures text { piece.new.items ≡ piece.old.items ++ trace.notices_text time entry.entry.now
        (with_cells (bare_cells (S.roster store.now))) }
{
    add_marks(piece, time, stamp, entry.notices);
    add_heads(piece, store, time, stamp, entry.number, entry.notices);
}

/// Adds the column of the latest entry: its call, the changes by it on the tracks and of the counters,
/// and its notices. `shown` are the tracks before it, and then those after it.
pub fn add_column<S: Store>(
    piece: &mut Piece,
    table: &Table,
    situation: &Situation<S>,
    lasting: Lasting,
    entry: &LentEntry<'_>,
    shown: &mut Tracks,
)
    requires printable { IsPrintable table.now entry.now }
    requires records { length situation.now.roster.records ≡ length table.now.processes }
    requires many { length shown.old.cells ≡ length situation.now.roster.records }
    requires counts { HasCounts shown.old.counts table.now }
    requires cores { length shown.old.running ≡ MOST_CORES }
    requires room { array_vec_len piece.old + COLUMN ≤ PIECE_ROOM }
    ensures text { piece.new.items ≡ piece.old.items
        ++ trace.column_text table.now lasting shown.old entry.entry.now
        (bare (moment_at table.now (situation_in situation.now))) }
    ensures shown { shown.new ≡ bare (moment_at table.now (situation_in situation.now)) }
{
    let (objects, store) = (situation.objects(), situation.store());
    shown.add_column(piece, table, objects, store, lasting, entry);
}

/// Adds the ends of all slices.
#[tactic(auto, using(std::proofs::Common::append_assoc))]
fn add_foot(piece: &mut Piece, table: &Table, time: u64, stamp: &Timed, last: &Tracks)
    requires stamp { stamp.now ≡ time }
    requires room { array_vec_len piece.old
        + TRACK * (MOST_CORES + MOST_PROCESSES + MOST_OBJECTS) ≤ PIECE_ROOM }
    ensures { piece.new.items ≡ piece.old.items
        ++ (trace.changes_text table.now time last.now none_shown
        ++ trace.mutexes_text table.now time last.now.counts.owners []) }
{
    add_cores(piece, table, time, stamp, last.running(), &[]);
    add_ends(piece, table, time, stamp, last.tracks());
    add_mutex_ends(piece, table, time, stamp, last.counts().owners.as_slice());
}

/// Puts what comes after the columns: the ends of all slices. Fails only for want of memory.
#[tactic(auto, using(std::proofs::Common::append_assoc))]
pub fn put_foot(
    text: &mut Vec<u8>,
    table: &Table,
    time: u64,
    last: &Tracks,
) -> Result<(), AllocError>
    ensures { OnOk result (text.new.items ≡ text.old.items
        ++ trace.foot_text table.now time last.now) }
{
    let stamp = Timed::new(time);
    let mut piece = Piece::new();
    add_foot(&mut piece, table, time, &stamp, last);
    text.extend_from_slice(piece.as_slice())?;
    put(text, "\n]}\n")
}
