//! The processes and the counts after an entry, as a trace shows them.
ghost use Rattle.std.specs.Prelude.{◌≡◌, ◌+◌, ◌<◌, ◌≤◌, ◌++◌, IsTrue, length, map, slice_index_or};
ghost use Rattle.arrayvec.specs.ArrayVec.{array_vec_len};
ghost use Rattle.apex_types.specs.declared.limits.TheConstants.{MOST_CORES, MOST_PROCESSES};
ghost use Rattle.apex_calls.specs.Lines.{IsPrintable};
ghost use Rattle.apex_machine.specs.processes.Roster.{record_at};
ghost use Rattle.apex_moments.specs.Counts.{HasCounts, counts_of};
ghost use Rattle.apex_dispatch.specs.Situations.{situation_in};
ghost use Rattle.apex_moments.specs.Moments.{moment_at, moment_of, running_in};
ghost use Rattle.apex_traces.specs.Trace.{column_text};
ghost use Rattle.apex_traces.specs.Tracks.{bare, cell_on, track_of};
ghost use Rattle.apex_traces.specs.declared.beings.Being.TheVariants.{Dormant, Ready, Running};
ghost use Rattle.apex_traces.specs.declared.pieces.TheConstants.{COLUMN, PIECE_ROOM};

use crate::beings::{Being, being_of, is_awaiting};
use crate::calls::{Lasting, Said};
use crate::changes::add_changes;
use crate::pieces::{COLUMN, PIECE_ROOM, Piece};
use crate::stamps::Timed;
use crate::trace::{add_call, add_notices, add_processes, add_runs};
use apex_configs::Table;
use apex_dispatch::Situation;
use apex_machine::Record;
use apex_moments::{Counts, counts_of, is_process, running_at, running_of, state_of};
use apex_services::Objects;
use apex_store::Store;
use apex_types::{
    CoreId, LentEntry, MOST_CORE_PLACES, MOST_CORES, MOST_PROCESSES, ProcessId, State,
};
use arrayvec::ArrayVec;
use std::marker::Model;

/// All processes after an entry, as a trace shows them: what the slice of each of them shows, and the
/// process that each core runs. It has the counts of the objects too.
///
/// A contract sees a moment whose cells show no more than that.
#[derive(Drop)]
pub struct Tracks {
    tracks: ArrayVec<Being, MOST_PROCESSES>,
    running: ArrayVec<Option<ProcessId>, MOST_CORE_PLACES>,
    counts: Counts,
    said: Said,
    /// The time after the latest column.
    latest: Timed,
}

impl Model for Tracks {
    ghost use Rattle.std.specs.Prelude.{map};
    ghost use Rattle.apex_moments.specs.Moments.{Shown};
    ghost use Rattle.apex_traces.specs.Tracks.{cell_on};

    ghost Value = { Shown };

    ghost view = { λ t. record {
      cells = map cell_on t.tracks.items;
      running = t.running.items;
      counts = t.counts;
    } };
}

/// What the track of the process of this record shows, given the process that each core runs.
#[inline(always)]
pub(crate) fn track_by<S: Store>(
    store: &S,
    process: ProcessId,
    fields: &Record,
    running: &[Option<ProcessId>],
) -> Being
    requires fields { fields.now ≡ record_at (S.roster store.now) process }
    requires running { running.now ≡ running_in (S.roster store.now) }
    ensures { result ≡ track_of (S.roster store.now) process }
{
    prove!(u32::from(fields.core.number()) < MOST_CORES);
    being_of(
        state_of(process, fields, store.mode(), running),
        &fields.wait,
    )
}

/// The process of this record is ready.
#[inline(always)]
fn is_ready<S: Store>(
    store: &S,
    process: ProcessId,
    fields: &Record,
    running: &[Option<ProcessId>],
) -> bool
    requires fields { fields.now ≡ record_at (S.roster store.now) process }
    requires running { running.now ≡ running_in (S.roster store.now) }
    ensures { IsTrue result → track_of (S.roster store.now) process ≡ Ready }
{
    prove!(u32::from(fields.core.number()) < MOST_CORES);
    matches!(
        state_of(process, fields, store.mode(), running),
        State::Ready
    )
}

/// The process is the one that this core runs.
#[inline(always)]
fn is_run<S: Store>(
    _store: &S,
    process: ProcessId,
    core: CoreId,
    running: &[Option<ProcessId>],
) -> bool
    requires { running.now ≡ running_in (S.roster _store.now) }
    ensures { IsTrue result → track_of (S.roster _store.now) process ≡ Running }
{
    prove!(u32::from(core.number()) < MOST_CORES);
    is_process(process, running_at(running, core))
}

/// The process of this record waits, and is shown as this.
#[inline(always)]
fn still_waits<S: Store>(_store: &S, process: ProcessId, fields: &Record, being: &Being) -> bool
    requires { fields.now ≡ record_at (S.roster _store.now) process }
    ensures { IsTrue result → track_of (S.roster _store.now) process ≡ being.now }
{
    is_awaiting(being, &fields.wait) && fields.started
}

/// The track of the process of this record still shows this. It looks at no more of the record than
/// that takes; if it answers no, the track may show it too.
// Each being has a case of its own, so that what is shown is asked for once.
#[inline(always)]
pub(crate) fn is_still<S: Store>(
    store: &S,
    process: ProcessId,
    fields: &Record,
    running: &[Option<ProcessId>],
    being: &Being,
) -> bool
    requires fields { fields.now ≡ record_at (S.roster store.now) process }
    requires running { running.now ≡ running_in (S.roster store.now) }
    ensures { IsTrue result → track_of (S.roster store.now) process ≡ being.now }
{
    match being {
        Being::Dormant => !fields.started,
        Being::Ready => is_ready(store, process, fields, running),
        Being::Running => is_run(store, process, fields.core, running),
        Being::Waiting => false,
        Being::Normal => still_waits(store, process, fields, &Being::Normal),
        Being::Start => still_waits(store, process, fields, &Being::Start),
        Being::Time => still_waits(store, process, fields, &Being::Time),
        Being::Period => still_waits(store, process, fields, &Being::Period),
        Being::Semaphore(semaphore) => still_waits(
            store,
            process,
            fields,
            &Being::Semaphore(*semaphore),
        ),
        Being::Buffer(buffer) => still_waits(store, process, fields, &Being::Buffer(*buffer)),
        Being::Blackboard(board) => still_waits(store, process, fields, &Being::Blackboard(*board)),
        Being::EventFlag(event) => still_waits(store, process, fields, &Being::EventFlag(*event)),
        Being::Mutex(mutex) => still_waits(store, process, fields, &Being::Mutex(*mutex)),
    }
}

/// The tracks of the processes of a store, and these counts.
fn tracks_of<S: Store>(store: &S, counts: Counts) -> Tracks
    requires { length (S.roster store.now).records ≤ MOST_PROCESSES }
    ensures { result ≡ bare (moment_of (S.roster store.now) counts) }
{
    let running = running_of(store);
    let mut tracks = ArrayVec::new();
    for place in 0..store.process_count() {
        let process = ProcessId::at(place as u8);
        let fields = store.record(process);
        tracks.push(track_by(store, process, fields, running.as_slice()));
    }
    Tracks {
        tracks,
        running,
        counts,
        said: Said::new(),
        latest: Timed::new(0),
    }
}

/// The tracks of a situation of this table.
pub fn tracks_in<S: Store>(table: &Table, situation: &Situation<S>) -> Tracks
    requires { length situation.now.roster.records ≤ MOST_PROCESSES }
    ensures { result ≡ bare (moment_at table.now (situation_in situation.now)) }
{
    let store = situation.store();
    tracks_of(store, counts_of(table, situation.objects(), store))
}

/// What the track at a place shows; DORMANT if there is no such track.
#[inline(always)]
pub(crate) fn track_at(tracks: &[Being], place: usize) -> Being
    ensures { result ≡ slice_index_or tracks.now place Dormant }
{
    match tracks.get(place) {
        Some(track) => *track,
        None => Being::Dormant,
    }
}

impl Tracks {
    /// Brings the tracks and the counts up to the processes of a store and these objects, and adds
    /// the column of the latest entry.
    #[tactic(auto, using(std::proofs::Common::append_assoc))]
    pub(crate) fn add_column<S: Store>(
        &mut self,
        piece: &mut Piece,
        table: &Table,
        objects: &Objects,
        store: &S,
        lasting: Lasting,
        entry: &LentEntry<'_>,
    )
        requires printable { IsPrintable table.now entry.now }
        requires counts { HasCounts self.old.counts table.now }
        requires cores { length self.old.running ≡ MOST_CORES }
        requires tracks { length self.old.cells ≡ length (S.roster store.now).records }
        requires table { length table.now.processes ≡ length (S.roster store.now).records }
        requires room { array_vec_len piece.old + COLUMN ≤ PIECE_ROOM }
        ensures text { piece.new.items ≡ piece.old.items
            ++ column_text table.now lasting self.old entry.entry.now
            (bare (moment_of (S.roster store.now)
            (counts_of table.now (S.roster store.now) objects.now))) }
        ensures shown { self.new ≡ bare (moment_of (S.roster store.now)
            (counts_of table.now (S.roster store.now) objects.now)) }
    {
        self.latest.reach(lasting.begin);
        let said = &mut self.said;
        add_call(piece, said, table, store, lasting, &self.latest, entry);
        let time = lasting.end;
        self.latest.reach(time);
        let stamp = &self.latest;
        let running = self.running.as_mut_slice();
        add_runs(piece, table, store, time, stamp, running);
        let (running, tracks) = (self.running.as_slice(), self.tracks.as_mut_slice());
        add_processes(piece, table, store, running, time, stamp, tracks);
        let counts = &mut self.counts;
        add_changes(counts, piece, table, objects, store, time, stamp);
        add_notices(piece, store, time, stamp, entry);
    }

    /// The tracks of the processes.
    pub(crate) fn tracks(&self) -> &[Being]
        ensures { map cell_on result.now ≡ self.now.cells }
    {
        self.tracks.as_slice()
    }

    /// The process that each core runs.
    pub(crate) fn running(&self) -> &[Option<ProcessId>]
        ensures { result.now ≡ self.now.running }
    {
        self.running.as_slice()
    }

    /// The counts of the objects.
    pub(crate) fn counts(&self) -> &Counts
        ensures { result.now ≡ self.now.counts }
    {
        &self.counts
    }
}
