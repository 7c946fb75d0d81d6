//! A situation and what a pace counts, of their words.
ghost use Rattle.std.specs.Prelude.{◌≡◌, ℕ, ◌+◌, ◌*◌, ◌≤◌, false, length, pos};
ghost use Rattle.apex_types.specs.Places.{map_places};
ghost use Rattle.apex_types.specs.declared.limits.TheConstants.{MOST_CORES, MOST_PROCESSES};
ghost use Rattle.apex_dispatch.specs.Works.{work_at};
ghost use Rattle.apex_forms.specs.declared.records.TheConstants.{RECORD_WORDS};
ghost use Rattle.apex_forms.specs.declared.stored.TheConstants.{CORE_WORDS};
ghost use Rattle.apex_choices.specs.Counts.{IsSamePaced, count_at, paced_in};
ghost use Rattle.apex_recall.specs.Restored.{AreCoreWords, AreRecordWords, IsOfTable, IsStored, IsWorkWords};
ghost use Rattle.apex_recall.specs.Restored.{counted_in, locks_in, objects_from, open_in, paced_from, part};
ghost use Rattle.apex_recall.specs.Restored.{processes_in, records_from, records_in, turns_in, worked_in, works_in};
ghost use Rattle.apex_forms.specs.Stored.{counted_count, locks_count};

use crate::objects::{Restored, restore_process};
use crate::records::{is_created_in, record_from};
use crate::values::mode_in;
use apex_choices::{Counts, PacedSituation};
use apex_configs::Table;
use apex_dispatch::{Situation, Works};
use apex_forms::{
    BLACKBOARD_WORDS, BUFFER_WORDS, CORE_WORDS, EVENT_FLAG_WORDS, HEAD_WORDS, RECORD_WORDS,
    SEMAPHORE_WORDS,
};
use apex_machine::{OpenWork, Work};
use apex_services::{Objects, ProcessObject};
use apex_store::{PlainStore, Store};
use apex_types::{CoreId, MOST_CORE_PLACES, ProcessId, Span};

/// The words of the place among others of this length, behind `from`.
fn part(words: &[u64], from: usize, place: usize, many: usize) -> &[u64]
    requires { from + (place + 1) * many ≤ length words.now }
    ensures part { result.now ≡ part words.now from place many }
    ensures many { length result.now ≡ many }
{
    let start = from + place * many;
    &words[start..start + many]
}

/// Each of these things is as its words say; those of the first are at `from`.
fn restore_all<P: Restored>(parts: &mut [P], words: &[u64], from: usize)
    requires { from + length parts.old * P.WORDS ≤ length words.now }
    ensures { parts.new
        ≡ map_places (λ k p. P.restored p (part words.now from k P.WORDS)) 0 parts.old }
{
    for place in 0..parts.len() {
        parts[place].restore(part(words, from, place, P::WORDS));
    }
}

/// The open work of these words of a core.
fn open_in(words: &[u64]) -> Option<OpenWork>
    requires many { length words.now ≡ CORE_WORDS }
    requires work { IsWorkWords words.now }
    ensures { result ≡ open_in words.now }
{
    if words[0] == 0 {
        return None;
    }
    let work = Work {
        process: ProcessId::at(words[1] as u8),
        amount: Span::of(words[2] as u32),
    };
    Some(OpenWork {
        work,
        unbroken: words[0] == 2,
    })
}

/// The open work of each core.
fn works_in(cores: u8, words: &[u64]) -> Works
    requires few { cores ≤ MOST_CORES }
    requires words { AreCoreWords cores words.now }
    ensures { (core : ℕ) → work_at result core ≡ works_in cores words.now core }
{
    let mut of_core = [None; MOST_CORE_PLACES];
    for number in 0..cores {
        let place = usize::from(number);
        of_core[place] = open_in(part(words, HEAD_WORDS, place, CORE_WORDS));
    }
    Works::of(of_core)
}

/// What the pace counts of each core.
fn counts_in(cores: u8, words: &[u64]) -> Counts
    requires few { cores ≤ MOST_CORES }
    requires words { AreCoreWords cores words.now }
    ensures turns { (core : ℕ) → count_at result.turns core ≡ turns_in cores words.now core }
    ensures worked { (core : ℕ) → count_at result.worked core ≡ worked_in cores words.now core }
{
    let mut counts = Counts::new();
    for number in 0..cores {
        let core = part(words, HEAD_WORDS, usize::from(number), CORE_WORDS);
        counts.set(CoreId::new(number), core[3], core[4]);
    }
    counts
}

/// The processes have the records of these words from now on.
fn restore_records(table: &Table, store: &mut PlainStore, words: &[u64], from: usize)
    requires records { length store.old.records ≡ length table.now.processes }
    requires words { AreRecordWords table.now words.now }
    requires from { from ≡ records_from table.now }
    ensures { store.new
        ≡ record store.old { records = records_in table.now words.now } }
{
    for place in 0..store.process_count() {
        let process = ProcessId::at(place as u8);
        let attributes = table.process(process).attributes();
        let record = part(words, from, place, RECORD_WORDS);
        store.put(process, record_from(attributes, record));
    }
}

/// The processes are created or not, as these words say.
fn restore_processes(processes: &mut [ProcessObject], words: &[u64], from: usize)
    requires { from + length processes.old * RECORD_WORDS ≤ length words.now }
    ensures { processes.new ≡ processes_in (length processes.old) words.now from }
{
    for place in 0..processes.len() {
        let created = is_created_in(part(words, from, place, RECORD_WORDS));
        restore_process(&mut processes[place], created);
    }
}

/// The semaphores, the buffers and the blackboards are as these words say. Answers the place behind
/// them.
fn restore_counted(objects: &mut Objects, words: &[u64], from: usize) -> usize
    requires { from + counted_count objects.old ≤ length words.now }
    ensures objects { objects.new ≡ counted_in objects.old words.now from }
    ensures place { result ≡ from + counted_count objects.old }
{
    let buffers = from + objects.semaphores.len() * SEMAPHORE_WORDS;
    let blackboards = buffers + objects.buffers.len() * BUFFER_WORDS;
    restore_all(objects.semaphores.as_mut_slice(), words, from);
    restore_all(objects.buffers.as_mut_slice(), words, buffers);
    restore_all(objects.blackboards.as_mut_slice(), words, blackboards);
    blackboards + objects.blackboards.len() * BLACKBOARD_WORDS
}

/// The event flags and the mutexes are as these words say.
fn restore_locks(objects: &mut Objects, words: &[u64], from: usize)
    requires { from + locks_count objects.old ≤ length words.now }
    ensures { objects.new ≡ locks_in objects.old words.now from }
{
    let mutexes = from + objects.event_flags.len() * EVENT_FLAG_WORDS;
    restore_all(objects.event_flags.as_mut_slice(), words, from);
    restore_all(objects.mutexes.as_mut_slice(), words, mutexes);
}

/// The objects are as these words say, in which those of the first process are at `from`.
fn restore_objects(objects: &mut Objects, words: &[u64], from: usize)
    requires { from + length objects.old.processes * RECORD_WORDS
        + counted_count objects.old + locks_count objects.old ≤ length words.now }
    ensures { objects.new ≡ objects_from objects.old words.now from }
{
    let behind = from + objects.processes.len() * RECORD_WORDS;
    restore_processes(objects.processes.as_mut_slice(), words, from);
    let behind = restore_counted(objects, words, behind);
    restore_locks(objects, words, behind);
}

/// The first stamp behind those of a canonical form of this many processes.
#[tactic(auto, using(crate::proofs::Restoring::few_stamps))]
pub(crate) fn first_stamp(many: usize) -> i64
    requires { many ≤ MOST_PROCESSES }
    ensures { result ≡ pos (1 + (many + 1) * many) }
{
    let many = many as u32;
    i64::from(1 + (many + 1) * many)
}

/// The situation of these words and what the pace counts there, in the memory of this one.
pub fn restore(paced: PacedSituation, table: &Table, words: &[u64]) -> PacedSituation
    requires table { IsOfTable table.now (paced_in paced).situation }
    requires words { IsStored table.now words.now }
    ensures { IsSamePaced (paced_in result) (paced_from table.now words.now) }
{
    table.lawful();
    let PacedSituation { situation, .. } = paced;
    let (mut store, mut objects, _, _) = situation.into_parts();
    let cores = table.cores();
    let from = HEAD_WORDS + usize::from(cores) * CORE_WORDS;
    let young = first_stamp(store.process_count());
    restore_records(table, &mut store, words, from);
    store.set_clock(mode_in(words[0]), words[1], young, 0);
    restore_objects(&mut objects, words, from);
    let works = works_in(cores, words);
    PacedSituation {
        situation: Situation::new(store, objects, works, words[2] as usize),
        counts: counts_in(cores, words),
    }
}
