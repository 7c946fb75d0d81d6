//! The words of a situation and of what a pace counts.
ghost use Rattle.std.specs.Prelude.{◌≡◌, ◌+◌, ◌≤◌, length};
ghost use Rattle.apex_alike.specs.Canonical.{IsFit, canonical_roster, oldest_age};
ghost use Rattle.apex_choices.specs.Counts.{paced_in};
ghost use Rattle.apex_forms.specs.Forms.{AreRanks, canonical_paced};
ghost use Rattle.apex_forms.specs.Parts.{ArePut, IsPut};
ghost use Rattle.apex_forms.specs.Stored.{FitsWords, core_words, cores_words, counted_words, head_words, locks_words, records_words, word_count, words_of};

use crate::canonical::{kept_turns, kept_worked};
use crate::codes::mode_word;
use crate::forms::{canonical_moments, oldest_age, put_ranks};
use crate::objects::{
    BLACKBOARD_WORDS, BUFFER_WORDS, EVENT_FLAG_WORDS, MUTEX_WORDS, SEMAPHORE_WORDS,
};
use crate::parts::{put, put_all};
use crate::records::{RECORD_WORDS, record_words};
use apex_choices::PacedSituation;
use apex_configs::Table;
use apex_machine::OpenWork;
use apex_pace::Pace;
use apex_services::{Objects, ProcessObject};
use apex_store::{Object, PlainStore, Store};
use apex_types::{CoreId, MOST_PROCESSES, ProcessId};

/// The words before those of the cores: the mode, the time, and the number of init steps made.
pub const HEAD_WORDS: usize = 3;

/// The words of a core: its open work in three, its turns, and the ticks that it has worked for.
pub const CORE_WORDS: usize = 5;

/// The number of words of a situation of the table.
pub fn word_count(table: &Table) -> usize
    ensures { result ≡ word_count table.now }
{
    table.lawful();
    HEAD_WORDS
        + usize::from(table.cores()) * CORE_WORDS
        + table.process_count() * RECORD_WORDS
        + table.semaphore_count() * SEMAPHORE_WORDS
        + table.buffer_count() * BUFFER_WORDS
        + table.blackboard_count() * BLACKBOARD_WORDS
        + table.event_flag_count() * EVENT_FLAG_WORDS
        + table.mutex_count() * MUTEX_WORDS
}

/// The words of a core: its open work, its turns, and the ticks that it has worked for.
fn core_words(begun: Option<OpenWork>, turns: u64, worked: u64) -> [u64; CORE_WORDS]
    ensures { result ≡ core_words begun turns worked }
{
    let Some(begun) = begun else {
        return [0, 0, 0, turns, worked];
    };
    let kind = if begun.unbroken { 2 } else { 1 };
    let process = begun.work.process.place() as u64;
    let amount = u64::from(begun.work.amount.ticks());
    [kind, process, amount, turns, worked]
}

/// Puts the words of the semaphores, the buffers and the blackboards at a place, and answers the
/// place behind them.
fn put_counted(objects: &Objects, words: &mut [u64], at: usize) -> usize
    requires { at + length (counted_words objects.now) ≤ length words.old }
    ensures { IsPut (counted_words objects.now) at words.old result words.new }
{
    let at = put_all(objects.semaphores.as_slice(), words, at);
    let at = put_all(objects.buffers.as_slice(), words, at);
    put_all(objects.blackboards.as_slice(), words, at)
}

/// Puts the words of the event flags and the mutexes at a place, and answers the place behind them.
fn put_locks(objects: &Objects, words: &mut [u64], at: usize) -> usize
    requires { at + length (locks_words objects.now) ≤ length words.old }
    ensures { IsPut (locks_words objects.now) at words.old result words.new }
{
    let at = put_all(objects.event_flags.as_slice(), words, at);
    put_all(objects.mutexes.as_slice(), words, at)
}

/// Puts the words of the canonical forms of the processes at a place, and answers the place behind
/// them.
fn put_records(
    processes: &[ProcessObject],
    store: &PlainStore,
    ranks: &[u64; MOST_PROCESSES],
    now: u64,
    words: &mut [u64],
    at: usize,
) -> usize
    requires many { length processes.now ≡ length store.now.records }
    requires fit { IsFit store.now }
    requires ranks { AreRanks store.now ranks.now }
    requires now { now ≡ oldest_age store.now.now store.now.records }
    requires room { at + length (records_words processes.now (canonical_roster store.now).records)
        ≤ length words.old }
    ensures { IsPut (records_words processes.now (canonical_roster store.now).records) at words.old
        result words.new }
{
    let mut end = at;
    for place in 0..store.process_count() {
        let created = processes[place].is_created();
        let fields = store.record(ProcessId::at(place as u8));
        let moments = canonical_moments(store, fields, ranks, now, place);
        end = put(words, end, &record_words(created, fields, moments));
    }
    end
}

/// The words of the head of the canonical form, at this time in ticks.
fn head_words(paced: &PacedSituation, now: u64) -> [u64; HEAD_WORDS]
    requires { now ≡ oldest_age paced.now.situation.roster.now paced.now.situation.roster.records }
    ensures { (pace : Pace) → result ≡ head_words (canonical_paced pace (paced_in paced.now)) }
{
    let mode = mode_word(paced.situation.store().mode());
    let made = paced.situation.init_steps_made() as u64;
    [mode, now, made]
}

/// Puts the words of the canonical form of the cores at a place, and answers the place behind
/// them.
fn put_cores(
    paced: &PacedSituation,
    pace: Pace,
    table: &Table,
    words: &mut [u64],
    at: usize,
) -> usize
    requires { at + length (cores_words table.now.cores (canonical_paced pace (paced_in paced.now)))
        ≤ length words.old }
    ensures { IsPut (cores_words table.now.cores (canonical_paced pace (paced_in paced.now))) at
        words.old result words.new }
{
    let mut end = at;
    for number in 0..table.cores() {
        let core = CoreId::new(number);
        let turns = kept_turns(pace, paced.counts.turns(core));
        let worked = kept_worked(paced.work(core), paced.counts.worked(core));
        end = put(words, end, &core_words(paced.work(core), turns, worked));
    }
    end
}

/// Puts the words of the canonical forms of the processes, at this time in ticks, at a place, and
/// answers the place behind them.
fn put_processes(paced: &PacedSituation, now: u64, words: &mut [u64], at: usize) -> usize
    requires many { length paced.now.situation.objects.processes
        ≡ length paced.now.situation.roster.records }
    requires fit { IsFit paced.now.situation.roster }
    requires now { now ≡ oldest_age paced.now.situation.roster.now
        paced.now.situation.roster.records }
    requires room { at + length (records_words paced.now.situation.objects.processes
        (canonical_roster paced.now.situation.roster).records) ≤ length words.old }
    ensures { IsPut (records_words paced.now.situation.objects.processes
        (canonical_roster paced.now.situation.roster).records) at words.old result words.new }
{
    let processes = paced.situation.objects().processes.as_slice();
    let store = paced.situation.store();
    let mut ranks = [0; MOST_PROCESSES];
    put_ranks(store, &mut ranks);
    put_records(processes, store, &ranks, now, words, at)
}

/// Puts the words of the other objects at a place.
fn put_objects(paced: &PacedSituation, words: &mut [u64], at: usize)
    requires { at + length (counted_words paced.now.situation.objects)
        + length (locks_words paced.now.situation.objects) ≤ length words.old }
    ensures { ArePut (counted_words paced.now.situation.objects)
        (locks_words paced.now.situation.objects) at words.old words.new }
{
    let objects = paced.situation.objects();
    let at = put_counted(objects, words, at);
    put_locks(objects, words, at);
}

/// Puts the words of the canonical form of the situation, and of what the pace counts, into
/// these.
pub fn put_words(paced: &PacedSituation, pace: Pace, table: &Table, words: &mut [u64])
    requires fit { IsFit paced.now.situation.roster }
    requires fits { FitsWords table.now (canonical_paced pace (paced_in paced.now)) }
    requires room { length words.old ≡ word_count table.now }
    ensures { words.new ≡ words_of table.now (canonical_paced pace (paced_in paced.now)) }
{
    let now = oldest_age(paced.situation.store());
    let at = put(words, 0, &head_words(paced, now));
    let at = put_cores(paced, pace, table, words, at);
    let at = put_processes(paced, now, words, at);
    put_objects(paced, words, at);
}
