//! The loop that reads a line, answers it, and reads the next one.
ghost use Rattle.std.specs.Prelude.{◌≡◌, ◌+◌, ◌<◌, [], false, length, drop, take, IfOk, IfSome, OnOk};
ghost use Rattle.std.specs.Io.KnownBytes.{IsAtEnd, prepend_known};
ghost use Rattle.apex_types.specs.declared.limits.TheConstants.{MOST_LINE};
ghost use Rattle.apex_history.specs.Counted.{inner_of, failures_of, reads_left_of, CountsFailure};
ghost use Rattle.apex_history.specs.Ports.{ports};
ghost use Rattle.apex_incoming.specs.Ahead.{IsFirstLine, fuel};
ghost use Rattle.apex_incoming.specs.Lines.{IsOneLine};
ghost use Rattle.apex_steps.specs.Answers.{answer};
ghost use Rattle.apex_steps.specs.Conversations.{CountsRead, Hears, HearsNext, Skips};
ghost use Rattle.apex_steps.specs.Endings.{Converses, Serves};

use crate::answers::{Answered, Saying, answer};
use crate::desks::Desk;
use crate::faults::StepFault;
use crate::refusals::Refusal;
use crate::sessions::Session;
use apex_check::leading_table;
use apex_history::{Counted, Sink, Source};
use apex_incoming::{Next, Pending};
use apex_json::Form;
use std::alloc::{AllocError, Global};
use std::io;

/// Takes all that was read ahead.
#[tactic(auto, using(std::proofs::lemmas::List::drop_all))]
fn take_all(pending: &mut Pending)
    ensures { pending.new ≡ [] }
{
    let held = pending.bytes().len();
    pending.take(held);
}

/// Takes the first line of the bytes that were read ahead, which has `end` bytes, and its line
/// feed.
fn take_line(pending: &mut Pending, end: usize)
    requires { end < length pending.old }
    ensures { pending.new ≡ drop (end + 1) pending.old }
{
    let _held = pending.bytes().len();
    pending.take(end + 1);
}

/// Takes the rest of a line of which a part was read ahead, with its line feed. Whether it has one.
fn skip_line<R: Source>(pending: &mut Pending, reader: &mut Counted<R>) -> io::Result<bool>
    requires one { IsOneLine pending.old }
    requires some { 0 < length pending.old }
    ensures line { IfOk result (λ is_ended. Skips is_ended (length pending.old)
        (prepend_known pending.old (R.remaining (inner_of reader.old)))
        (prepend_known pending.new (R.remaining (inner_of reader.new)))) }
    ensures end { IfOk result (λ is_ended. is_ended ≡ false → (pending.new ≡ [])
        × IsAtEnd (R.remaining (inner_of reader.new))) }
    ensures counted { CountsFailure result (failures_of reader.old) (failures_of reader.new) }
    ensures fuel { OnOk result (fuel pending.new (reads_left_of reader.new)
        < fuel pending.old (reads_left_of reader.old)) }
{
    take_all(pending);
    loop {
        let next = pending.next(reader)?;
        match next {
            Next::Line(end) => {
                take_line(pending, end);
                return Ok(true);
            }
            Next::Part => take_all(pending),
            Next::Rest => {
                take_all(pending);
                return Ok(false);
            }
            Next::End => return Ok(false),
        }
    }
}

/// Hears the first line of the bytes that were read ahead, which has `end` bytes.
fn hear_line(
    alloc: Global,
    session: Session,
    pending: &mut Pending,
    end: usize,
) -> Result<Answered, AllocError>
    requires { end < length pending.old }
    ensures answer { IfOk result (λ answered. answered ≡ answer (take end pending.old) session) }
    ensures taken { OnOk result (pending.new ≡ drop (end + 1) pending.old) }
{
    let answered = answer(alloc, session, &pending.bytes()[..end])?;
    take_line(pending, end);
    Ok(answered)
}

/// Hears a line of which a part was read ahead, and which is too long or has no line feed.
fn hear_long<R: Source>(
    session: Session,
    pending: &mut Pending,
    reader: &mut Counted<R>,
) -> Result<Answered, StepFault>
    requires one { IsOneLine pending.old }
    requires long { MOST_LINE < length pending.old }
    ensures ok { IfOk result
        (Hears session (prepend_known pending.old (R.remaining (inner_of reader.old)))
        (prepend_known pending.new (R.remaining (inner_of reader.new)))) }
    ensures counted { CountsRead result (failures_of reader.old) (failures_of reader.new) }
    ensures fuel { OnOk result (fuel pending.new (reads_left_of reader.new)
        < fuel pending.old (reads_left_of reader.old)) }
{
    let Ok(is_ended) = skip_line(pending, reader) else {
        return Err(StepFault::Read);
    };
    if is_ended {
        Ok(Answered::says(session, Saying::Refused(Refusal::TooLong)))
    } else {
        Ok(Answered::unended(session))
    }
}

/// Hears the next line, or bytes at the end that are none: what its answer is. None at the end.
fn hear<R: Source>(
    alloc: Global,
    session: Session,
    pending: &mut Pending,
    reader: &mut Counted<R>,
) -> Result<Option<Answered>, StepFault>
    ensures ok { IfOk result
        (HearsNext session (prepend_known pending.old (R.remaining (inner_of reader.old)))
        (prepend_known pending.new (R.remaining (inner_of reader.new)))) }
    ensures counted { CountsRead result (failures_of reader.old) (failures_of reader.new) }
    ensures fuel { IfOk result (λ heard. IfSome heard (λ answered.
        fuel pending.new (reads_left_of reader.new)
        < fuel pending.old (reads_left_of reader.old))) }
{
    let Ok(next) = pending.next(reader) else {
        return Err(StepFault::Read);
    };
    match next {
        Next::Line(end) => {
            let answered = hear_line(alloc, session, pending, end)?;
            Ok(Some(answered))
        }
        Next::Part => {
            let answered = hear_long(session, pending, reader)?;
            Ok(Some(answered))
        }
        Next::Rest => {
            take_all(pending);
            Ok(Some(Answered::unended(session)))
        }
        Next::End => Ok(None),
    }
}

/// Answers the lines that are still to come in this form, each before the next one is read, up to
/// `quit` or the end of the text.
///
/// A line that is no command, or has more than 4,096 bytes, is answered so and changes nothing, and
/// so are bytes behind the last line feed. Memory is taken for a mark, for a kernel that goes back
/// and for the items of a line. If a read or a write failed, or memory was refused, a prefix of all
/// answers was written.
pub fn converse<R: Source, W: Sink>(
    alloc: Global,
    session: Session,
    form: Form,
    pending: &mut Pending,
    reader: &mut Counted<R>,
    writer: &mut Counted<W>,
) -> Result<(), StepFault>
    ensures { Converses form session
        (ports (prepend_known pending.old (R.remaining (inner_of reader.old)))
        (W.contents (inner_of writer.old)) (failures_of reader.old) (failures_of writer.old))
        result
        (ports (prepend_known pending.new (R.remaining (inner_of reader.new)))
        (W.contents (inner_of writer.new)) (failures_of reader.new) (failures_of writer.new)) }
{
    let mut session = session;
    let mut desk = Desk::new(alloc)?;
    loop {
        let heard = hear(alloc, session, pending, reader)?;
        let Some(answered) = heard else {
            return Ok(());
        };
        desk.say(form, answered.saying, &answered.session, writer)?;
        if answered.is_last {
            return Ok(());
        }
        session = answered.session;
    }
}

/// A whole session: a table, the line `%%`, and then commands, a line each, come from the reader,
/// and the answers go to the writer in this form.
///
/// The faults in the order of the text: `NoSeparator`, `Table`, and then those of [`converse`];
/// `Read` if a read fails, and `Memory` if memory is refused.
pub fn serve_steps<R: Source, W: Sink>(
    alloc: Global,
    form: Form,
    reader: &mut Counted<R>,
    writer: &mut Counted<W>,
) -> Result<(), StepFault>
    ensures { Serves form
        (ports (R.remaining (inner_of reader.old)) (W.contents (inner_of writer.old))
        (failures_of reader.old) (failures_of writer.old))
        result
        (ports (R.remaining (inner_of reader.new)) (W.contents (inner_of writer.new))
        (failures_of reader.new) (failures_of writer.new)) }
{
    let mut pending = Pending::new();
    let table = leading_table(alloc, &mut pending, reader)?;
    let session = Session::new(alloc, table)?;
    converse(alloc, session, form, &mut pending, reader, writer)
}
