//! The canonical form of the processes: stamps by ranks, instants from the oldest release that
//! matters on, and nothing that does not matter.
ghost use Rattle.std.specs.Prelude.{◌≡◌, true, false, ◌+◌, ◌*◌, ◌<◌, ◌≤◌, length, pos};
ghost use Rattle.apex_types.specs.declared.limits.TheConstants.{MOST_PROCESSES};
ghost use Rattle.apex_machine.specs.processes.Periods.{HasNoFutureRelease, awaits_first};
ghost use Rattle.apex_machine.specs.processes.Roster.{record_at};
ghost use Rattle.apex_machine.specs.processes.Running.{is_older};
ghost use Rattle.apex_alike.specs.Canonical.{IsFit, age, canonical_record, canonical_roster, earlier, oldest_age, recent};
ghost use Rattle.apex_forms.specs.Terms.{Contest};
ghost use Rattle.apex_forms.specs.Forms.{AreContests, AreCounted, AreRanks, contest_of, form_of, moments_of, older_before, vie, with_form, with_forms, with_moments};

use apex_machine::{Queue, Record, Wait};
use apex_store::{PlainStore, Store};
use apex_types::{MOST_PROCESSES, Mode, ProcessId, Span};

/// What a process has in its canonical form in place of its own: its stamp, and the instants in
/// ticks of its due, its deadline and its last release.
#[derive(Clone, Copy)]
pub(crate) struct Moments {
    pub(crate) since: i64,
    pub(crate) due: Option<u64>,
    pub(crate) deadline: Option<u64>,
    pub(crate) release: u64,
}

/// What a process vies for: its core if it is eligible, or else its place in the queue in which it
/// is.
#[derive(Clone, Copy)]
pub(crate) enum Contest {
    Nothing,
    Core(u8),
    Queue(Queue),
}

/// What the process vies for.
fn contest_of(mode: Mode, fields: &Record) -> Contest
    ensures { result ≡ contest_of mode fields.now }
{
    if fields.is_eligible(mode) {
        return Contest::Core(fields.core.number());
    }
    match fields.queue() {
        Some(queue) => Contest::Queue(queue),
        None => Contest::Nothing,
    }
}

/// The two vie for one core or in one queue.
fn vie(one: &Contest, other: &Contest) -> bool
    ensures { result ≡ vie one.now other.now }
{
    match (one, other) {
        (Contest::Core(core), Contest::Core(other)) => other == core,
        (Contest::Queue(queue), Contest::Queue(other)) => queue == other,
        _ => false,
    }
}

/// The process vies for nothing: so it has no rivals.
fn is_alone(one: &Contest) -> bool
    ensures { result ≡ true → (other : Contest) → vie one.now other ≡ false }
{
    matches!(one, Contest::Nothing)
}

/// The process of the first record is longer in its queue.
fn is_older(fields: &Record, others: &Record) -> bool
    ensures { result ≡ is_older fields.now others.now }
{
    fields.since < others.since
}

/// Puts what each process vies for.
fn put_contests(store: &PlainStore, contests: &mut [Contest; MOST_PROCESSES])
    ensures { AreContests store.now contests.new (length store.now.records) }
{
    let mode = store.mode();
    for place in 0..store.process_count() {
        contests[place] = contest_of(mode, store.record(ProcessId::at(place as u8)));
    }
}

/// The number of processes before this place that are older rivals of the one there, which is
/// counted as an older rival of the others that vie with it.
fn older_rivals(
    store: &PlainStore,
    contests: &[Contest; MOST_PROCESSES],
    ranks: &mut [u64; MOST_PROCESSES],
    place: usize,
) -> u64
    requires known { place < length store.now.records }
    requires few { length store.now.records ≤ MOST_PROCESSES }
    requires contests { AreContests store.now contests.now (length store.now.records) }
    requires ranks { AreCounted store.now ranks.old place place }
    ensures value { result ≡ older_before store.now place place }
    ensures ranks { AreCounted store.now ranks.new place (place + 1) }
{
    let one = contests[place];
    if is_alone(&one) {
        return 0;
    }
    let fields = store.record(ProcessId::at(place as u8));
    let mut older = 0;
    for other in 0..place {
        if vie(&one, &contests[other]) {
            let others = store.record(ProcessId::at(other as u8));
            if is_older(others, fields) {
                older += 1;
            } else if is_older(fields, others) {
                ranks[other] += 1;
            }
        }
    }
    older
}

/// Puts the ranks of all processes: of each one the number of rivals with older stamps.
pub(crate) fn put_ranks(store: &PlainStore, ranks: &mut [u64; MOST_PROCESSES])
    ensures { AreRanks store.now ranks.new }
{
    let mut contests = [Contest::Nothing; MOST_PROCESSES];
    put_contests(store, &mut contests);
    for place in 0..store.process_count() {
        ranks[place] = older_rivals(store, &contests, ranks, place);
    }
}

/// The process waits for its first release since its start.
fn awaits_first(wait: &Option<Wait>) -> bool
    ensures { result ≡ awaits_first wait.now }
{
    matches!(wait, Some(Wait::Normal(_)) | Some(Wait::Start))
}

/// The ticks since a release, as far as they matter at this period.
fn recent(ticks: u64, period: Option<Span>) -> u64
    ensures value { result ≡ recent ticks period }
    ensures range { result ≤ ticks }
{
    let Some(period) = period else {
        return 0;
    };
    let period = u64::from(period.ticks());
    if period < ticks {
        period + 1 + (ticks - (period + 1)) % period
    } else {
        ticks
    }
}

/// The age of the process's last release at this time, in ticks: 0 if it does not matter.
fn age(now: u64, fields: &Record) -> u64
    requires { fields.now.release ≤ now }
    ensures value { result ≡ age now fields.now }
    ensures range { result ≤ now }
{
    if fields.started && !awaits_first(&fields.wait) {
        recent(now - fields.release, fields.attributes.period)
    } else {
        0
    }
}

/// The greatest age of a release.
pub(crate) fn oldest_age(store: &PlainStore) -> u64
    requires { HasNoFutureRelease store.now }
    ensures value { result ≡ oldest_age store.now.now store.now.records }
    ensures range { result ≤ store.now.now }
{
    let mut oldest = 0;
    for place in 0..store.process_count() {
        let fields = store.record(ProcessId::at(place as u8));
        oldest = age(store.now(), fields).max(oldest);
    }
    oldest
}

/// The instant, this many ticks earlier.
fn earlier(ticks: u64, instant: &Option<u64>) -> Option<u64>
    ensures { result ≡ earlier ticks instant.now }
{
    match instant {
        Some(instant) => Some(instant.saturating_sub(ticks)),
        None => None,
    }
}

/// The stamp of the process at this place among as many as `count`, by its rank.
fn stamp(rank: u64, count: usize, place: usize) -> i64
    requires rank { rank ≤ MOST_PROCESSES }
    requires count { count ≤ MOST_PROCESSES }
    requires place { place < count }
    ensures { result ≡ pos (1 + (rank * count + place)) }
{
    (1 + (rank * count as u64 + place as u64)) as i64
}

/// The next stamp once this many processes have theirs.
fn next_stamp(count: usize) -> i64
    requires { count ≤ MOST_PROCESSES }
    ensures { result ≡ pos (1 + (count + 1) * count) }
{
    (1 + (count as u64 + 1) * count as u64) as i64
}

/// What the canonical record of a process has in place of its own, at this stamp and time in ticks.
#[inline(always)]
fn moments_of(store: &PlainStore, fields: &Record, since: i64, now: u64) -> Moments
    requires release { fields.now.release ≤ store.now.now }
    requires age { age store.now.now fields.now ≤ now }
    requires now { now ≤ store.now.now }
    ensures { result ≡ moments_of store.now since now fields.now }
{
    let ticks = store.now() - now;
    Moments {
        since,
        due: earlier(ticks, &fields.due),
        deadline: earlier(ticks, &fields.deadline),
        release: now - age(store.now(), fields),
    }
}

/// The canonical record of a process that has this one, at this stamp and time in ticks.
fn form_of(store: &PlainStore, fields: &Record, since: i64, now: u64) -> Record
    requires release { fields.now.release ≤ store.now.now }
    requires age { age store.now.now fields.now ≤ now }
    requires now { now ≤ store.now.now }
    ensures { result ≡ form_of store.now since now fields.now }
{
    let moments = moments_of(store, fields, since, now);
    Record {
        since: moments.since,
        due: moments.due,
        deadline: moments.deadline,
        release: moments.release,
        inbox: None,
        ..*fields
    }
}

/// The process has its canonical record from now on, at this stamp and time in ticks.
fn put_form(store: &mut PlainStore, process: ProcessId, since: i64, now: u64)
    requires known { process < length store.old.records }
    requires release { (record_at store.old process).release ≤ store.old.now }
    requires age { age store.old.now (record_at store.old process) ≤ now }
    requires now { now ≤ store.old.now }
    ensures { store.new ≡ with_form store.old process since now }
{
    let form = form_of(store, store.record(process), since, now);
    store.put(process, form);
}

/// The processes have their canonical records from now on, at this time in ticks.
fn put_forms(store: &mut PlainStore, ranks: &[u64; MOST_PROCESSES], now: u64)
    requires fit { IsFit store.old }
    requires ranks { AreRanks store.old ranks.now }
    requires now { now ≡ oldest_age store.old.now store.old.records }
    ensures { store.new ≡ with_forms store.old now }
{
    let count = store.process_count();
    for place in 0..count {
        let since = stamp(ranks[place], count, place);
        put_form(store, ProcessId::at(place as u8), since, now);
    }
}

/// What the canonical record of the process at this place, which has this record, has in place of
/// its own, at this time in ticks.
#[inline(always)]
pub(crate) fn canonical_moments(
    store: &PlainStore,
    fields: &Record,
    ranks: &[u64; MOST_PROCESSES],
    now: u64,
    place: usize,
) -> Moments
    requires known { place < length store.now.records }
    requires fields { fields.now ≡ record_at store.now place }
    requires fit { IsFit store.now }
    requires ranks { AreRanks store.now ranks.now }
    requires now { now ≡ oldest_age store.now.now store.now.records }
    ensures { with_moments fields.now result ≡ canonical_record store.now now place fields.now }
{
    let count = store.process_count();
    let since = stamp(ranks[place], count, place);
    moments_of(store, fields, since, now)
}

/// The processes have their canonical form from now on.
pub(crate) fn make_canonical(store: &mut PlainStore)
    requires { IsFit store.old }
    ensures { store.new ≡ canonical_roster store.old }
{
    let mut ranks = [0; MOST_PROCESSES];
    put_ranks(store, &mut ranks);
    let now = oldest_age(store);
    put_forms(store, &ranks, now);
    let young = next_stamp(store.process_count());
    store.set_clock(store.mode(), now, young, 0);
}
