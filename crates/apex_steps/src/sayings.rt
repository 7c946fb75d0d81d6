//! What is said besides entries and the listing, put behind other lines in either form.
ghost use Rattle.std.specs.Prelude.{◌≡◌, ◌+◌, ◌*◌, ◌≤◌, ◌++◌, length, flat_map};
ghost use Rattle.arrayvec.specs.ArrayVec.{array_vec_len};
ghost use Rattle.apex_objects.specs.declared.lines.TheConstants.{MOST_OBJECT, OBJECTS_ROOM};
ghost use Rattle.apex_steps.specs.Texts.{closing_in, closing_word, fault_in, front_in};
ghost use Rattle.apex_steps.specs.Texts.{instant_text, last_in, next_in, number_behind};
ghost use Rattle.apex_steps.specs.Texts.{running_text};

use crate::answers::Saying;
use crate::busy::{busy_cores, running_in};
use crate::refusals::Refusal;
use apex_dispatch::Kernel;
use apex_json::Form;
use apex_objects::{ObjectLines, put_count, put_fault, put_front, put_next};
use apex_store::Store;
use apex_texts::{put, put_long_number};
use apex_types::ProcessId;

/// Puts a number behind a space.
#[tactic(auto, using(std::proofs::Common::append_assoc))]
fn put_behind(lines: &mut ObjectLines, number: u64)
    requires { array_vec_len lines.old + 21 ≤ OBJECTS_ROOM }
    ensures text { lines.new.items ≡ lines.old.items ++ number_behind number }
    ensures short { array_vec_len lines.new ≤ array_vec_len lines.old + 21 }
{
    put(lines, " ");
    put_long_number(lines, number);
}

/// Puts the instant.
fn put_instant(lines: &mut ObjectLines, instant: Option<u64>)
    requires { array_vec_len lines.old + 20 ≤ OBJECTS_ROOM }
    ensures text { lines.new.items ≡ lines.old.items ++ instant_text instant }
    ensures short { array_vec_len lines.new ≤ array_vec_len lines.old + 20 }
{
    match instant {
        Some(instant) => put_long_number(lines, instant),
        None => put(lines, "-"),
    }
}

/// Puts the numbers of cores.
fn put_cores(lines: &mut ObjectLines, cores: &[u8])
    requires { array_vec_len lines.old + 21 * length cores.now ≤ OBJECTS_ROOM }
    ensures text { lines.new.items ≡ lines.old.items ++ flat_map number_behind cores.now }
    ensures short { array_vec_len lines.new ≤ array_vec_len lines.old + 21 * length cores.now }
{
    for core in cores {
        put_behind(lines, u64::from(*core));
    }
}

/// Puts the process that a core runs.
fn put_running(lines: &mut ObjectLines, running: Option<ProcessId>)
    requires { array_vec_len lines.old + 21 ≤ OBJECTS_ROOM }
    ensures text { lines.new.items ≡ lines.old.items ++ running_text running }
    ensures short { array_vec_len lines.new ≤ array_vec_len lines.old + 21 }
{
    match running {
        Some(process) => put_behind(lines, u64::from(process.number())),
        None => put(lines, " -"),
    }
}

/// Puts the processes that cores run.
fn put_all_running(lines: &mut ObjectLines, running: &[Option<ProcessId>])
    requires { array_vec_len lines.old + 21 * length running.now ≤ OBJECTS_ROOM }
    ensures text { lines.new.items ≡ lines.old.items ++ flat_map running_text running.now }
    ensures short { array_vec_len lines.new ≤ array_vec_len lines.old + 21 * length running.now }
{
    for process in running {
        put_running(lines, *process);
    }
}

/// Says the next instant and the cores that have something to do.
#[tactic(auto, using(std::proofs::Common::append_assoc), unfolding(crate::specs::Texts::next_in))]
pub(crate) fn say_next<S: Store>(lines: &mut ObjectLines, form: Form, kernel: &Kernel<S>)
    requires { array_vec_len lines.old + MOST_OBJECT ≤ OBJECTS_ROOM }
    ensures { lines.new.items
        ≡ lines.old.items ++ next_in form kernel.now.table kernel.now.machine }
{
    let cores = busy_cores(kernel);
    let instant = kernel.store().next_instant();
    match form {
        Form::Text => {
            put(lines, "next ");
            put_instant(lines, instant);
            put_cores(lines, &cores);
            put(lines, "\n");
        }
        Form::Json => put_next(lines, kernel.table(), instant, &cores),
    }
}

/// Says the number of entries, the time, and the process that each core runs.
#[tactic(auto, using(std::proofs::Common::append_assoc), unfolding(crate::specs::Texts::front_in))]
pub(crate) fn say_front<S: Store>(lines: &mut ObjectLines, form: Form, kernel: &Kernel<S>)
    requires { array_vec_len lines.old + MOST_OBJECT ≤ OBJECTS_ROOM }
    ensures { lines.new.items
        ≡ lines.old.items ++ front_in form kernel.now.table kernel.now.machine }
{
    let running = running_in(kernel);
    let entries = kernel.entries().len() as u64;
    match form {
        Form::Text => {
            put(lines, "front");
            put_behind(lines, entries);
            put_behind(lines, kernel.now());
            put_all_running(lines, &running);
            put(lines, "\n");
        }
        Form::Json => put_front(lines, kernel.table(), entries, kernel.now(), &running),
    }
}

/// Says why a line is not carried out.
#[tactic(auto, using(std::proofs::Common::append_assoc), unfolding(crate::specs::Texts::fault_in))]
fn say_fault(lines: &mut ObjectLines, form: Form, refusal: Refusal)
    requires { array_vec_len lines.old + MOST_OBJECT ≤ OBJECTS_ROOM }
    ensures { lines.new.items ≡ lines.old.items ++ fault_in form refusal }
{
    match form {
        Form::Text => {
            put(lines, "fault ");
            put(lines, refusal.text());
            put(lines, "\n");
        }
        Form::Json => put_fault(lines, refusal.text()),
    }
}

/// The word that closes an answer.
fn closing_word(fits: bool) -> &'static str
    ensures word { result.now ≡ closing_word fits }
    ensures short { length result.now ≤ 4 }
{
    if fits { "ok" } else { "full" }
}

/// Closes an answer. It fits if the history had room for all events.
#[tactic(auto, using(std::proofs::Common::append_assoc), unfolding(crate::specs::Texts::closing_in))]
fn say_closing<S: Store>(lines: &mut ObjectLines, form: Form, fits: bool, kernel: &Kernel<S>)
    requires { array_vec_len lines.old + MOST_OBJECT ≤ OBJECTS_ROOM }
    ensures { lines.new.items ≡ lines.old.items ++ closing_in form fits kernel.now.machine }
{
    let word = closing_word(fits);
    let entries = kernel.entries().len() as u64;
    match form {
        Form::Text => {
            put(lines, word);
            put_behind(lines, entries);
            put(lines, "\n");
        }
        Form::Json => put_count(lines, word, entries),
    }
}

/// Puts the last line of an answer.
pub(crate) fn say_last<S: Store>(
    lines: &mut ObjectLines,
    form: Form,
    saying: Saying,
    kernel: &Kernel<S>,
)
    requires { array_vec_len lines.old + MOST_OBJECT ≤ OBJECTS_ROOM }
    ensures { lines.new.items ≡ lines.old.items ++ last_in form saying kernel.now.machine }
{
    match saying {
        Saying::Refused(refusal) => say_fault(lines, form, refusal),
        Saying::Made { fits, .. } => say_closing(lines, form, fits, kernel),
        _ => say_closing(lines, form, true, kernel),
    }
}
