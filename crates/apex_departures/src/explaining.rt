//! A history that is followed, and explained if it departs.
ghost use Rattle.std.specs.Prelude.{◌≡◌, ◌++◌, [], IfErr, IfOk, OnErr, OnOk};
ghost use Rattle.std.specs.Io.KnownBytes.{Appends};
ghost use Rattle.apex_machine.specs.Machine.{events_of};
ghost use Rattle.apex_history.specs.Counted.{inner_of, failures_of, AppendsBeginning, CountsFailure};
ghost use Rattle.apex_history.specs.Ports.{ports};
ghost use Rattle.apex_check.specs.Steps.{IsTellable};
ghost use Rattle.apex_departures.specs.Ends.{Ends};
ghost use Rattle.apex_departures.specs.Explained.{AppendsReason, EndsPage, HasEventIfAny};
ghost use Rattle.apex_departures.specs.Explained.{IsExplained, IsPage, IsRefused, ShowsEvent};
ghost use Rattle.apex_departures.specs.Explained.{fault_given, fault_in_memory, fault_of_reading};
ghost use Rattle.apex_departures.specs.Explained.{lines_in, shown_number, verdict_given};
ghost use Rattle.apex_departures.specs.Lines.{line_parts, number_given};
ghost use Rattle.apex_departures.specs.Why.{HasEvent};

use crate::lines::{given_line, put_followed};
use crate::pages::{put_departure, put_legal, put_reason};
use crate::whys::why;
use apex_check::{CheckFault, Followed, Verdict, follow};
use apex_configs::Table;
use apex_dispatch::Kernel;
use apex_history::{Counted, ReadFault, Sink, Source, read_all};
use apex_json::Form;
use apex_process::QueueStore;
use apex_store::Store;
use std::alloc::{AllocError, Global};
use std::io::{self, Write};

/// The number that a line of a history was given, by its number among those that are not left out.
fn number_given(comments: bool, history: &[u8], number: u32) -> u32
    ensures { result ≡ number_given comments (line_parts history.now) number }
{
    given_line(comments, history, number).number
}

/// The verdict by the number of the line as it was given.
fn verdict_given(comments: bool, history: &[u8], verdict: Verdict) -> Verdict
    ensures { result ≡ verdict_given comments (line_parts history.now) verdict }
{
    match verdict {
        Verdict::Legal(count) => Verdict::Legal(count),
        Verdict::DepartsAt(number, expected) => {
            Verdict::DepartsAt(number_given(comments, history, number), expected)
        }
    }
}

/// The fault by the number of the line as it was given.
fn fault_given(comments: bool, history: &[u8], fault: CheckFault) -> CheckFault
    ensures { result ≡ fault_given comments (line_parts history.now) fault }
{
    match fault {
        CheckFault::BadLine(number) => CheckFault::BadLine(number_given(comments, history, number)),
        CheckFault::TooLong(number) => CheckFault::TooLong(number_given(comments, history, number)),
        fault => fault,
    }
}

/// A fault of a text in memory: as many bytes as no reader lets through want memory.
pub fn fault_in_memory(fault: CheckFault) -> CheckFault
    ensures { result ≡ fault_in_memory fault }
{
    match fault {
        CheckFault::Read => CheckFault::Memory,
        fault => fault,
    }
}

fn fault_of_reading(fault: ReadFault) -> CheckFault
    ensures { result ≡ fault_of_reading fault }
{
    match fault {
        ReadFault::Memory => CheckFault::Memory,
        ReadFault::Read => CheckFault::Read,
    }
}

/// Puts an explanation without the reason of the machine's entry.
fn put_lines(
    alloc: Global,
    form: Form,
    page: &mut Vec<u8>,
    table: &Table,
    comments: bool,
    history: &[u8],
    verdict: &Verdict,
) -> Result<(), AllocError>
    requires { IsTellable table.now verdict.now }
    ensures { OnOk result (page.new.items ≡ page.old.items
        ++ lines_in form comments (line_parts history.now) table.now verdict.now) }
{
    match verdict {
        Verdict::Legal(count) => put_legal(form, page, *count),
        Verdict::DepartsAt(number, expected) => {
            let line = given_line(comments, history, *number);
            put_departure(alloc, form, page, table, &line, expected)
        }
    }
}

/// Puts the reason of the kernel's entry of this number.
#[tactic(auto, using(crate::proofs::Following::not_lacking))]
fn put_why<S: Store>(
    alloc: Global,
    form: Form,
    page: &mut Vec<u8>,
    kernel: Kernel<S>,
    number: u32,
) -> Result<(), AllocError>
    requires { HasEvent (events_of kernel.machine.history) number }
    ensures { OnOk result (AppendsReason form kernel.table (events_of kernel.machine.history) number
        page.old.items page.new.items) }
{
    match why(alloc, kernel, number) {
        Ok(Some(reason)) => put_reason(form, page, reason.as_slice()),
        Ok(None) => Ok(()),
        Err(error) => Err(error),
    }
}

/// The number of the machine's entry that a verdict shows.
fn shown_number(verdict: &Verdict) -> Option<u32>
    ensures { result ≡ shown_number verdict.now }
{
    match verdict {
        Verdict::Legal(_) => None,
        Verdict::DepartsAt(number, expected) => {
            if expected.is_some() {
                Some(*number)
            } else {
                None
            }
        }
    }
}

/// Puts the reason of the kernel's entry of this number, if there is one.
fn put_reason_of<S: Store>(
    alloc: Global,
    form: Form,
    page: &mut Vec<u8>,
    number: Option<u32>,
    kernel: Kernel<S>,
) -> Result<(), AllocError>
    requires { HasEventIfAny (events_of kernel.machine.history) number }
    ensures { OnOk result (EndsPage form kernel.table (events_of kernel.machine.history) number
        page.old.items page.new.items) }
{
    match number {
        Some(number) => put_why(alloc, form, page, kernel, number),
        None => Ok(()),
    }
}

/// Puts the explanation of a verdict by the kernel that gave it.
fn put_page<S: Store>(
    alloc: Global,
    form: Form,
    page: &mut Vec<u8>,
    comments: bool,
    history: &[u8],
    verdict: &Verdict,
    kernel: Kernel<S>,
) -> Result<(), AllocError>
    requires empty { page.old.items ≡ [] }
    requires tellable { IsTellable kernel.table verdict.now }
    requires shows { ShowsEvent (events_of kernel.machine.history) verdict.now }
    ensures { OnOk result (IsPage form comments (line_parts history.now) kernel.table
        (events_of kernel.machine.history) verdict.now page.new.items) }
{
    match put_lines(
        alloc,
        form,
        page,
        kernel.table(),
        comments,
        history,
        verdict,
    ) {
        Ok(()) => put_reason_of(alloc, form, page, shown_number(verdict), kernel),
        Err(error) => Err(error),
    }
}

/// The verdict of a kernel that has followed a history, by the number of the line as it was given.
/// Its explanation is put.
fn told<S: Store>(
    alloc: Global,
    form: Form,
    page: &mut Vec<u8>,
    comments: bool,
    history: &[u8],
    followed: Followed<S>,
) -> Result<Verdict, AllocError>
    requires empty { page.old.items ≡ [] }
    requires tellable { IsTellable followed.kernel.table followed.verdict }
    requires shows { ShowsEvent (events_of followed.kernel.machine.history) followed.verdict }
    ensures verdict { IfOk result (λ verdict. verdict
        ≡ verdict_given comments (line_parts history.now) followed.verdict) }
    ensures page { OnOk result (IsPage form comments (line_parts history.now) followed.kernel.table
        (events_of followed.kernel.machine.history) followed.verdict page.new.items) }
{
    let Followed { verdict, kernel } = followed;
    match put_page(alloc, form, page, comments, history, &verdict, kernel) {
        Ok(()) => Ok(verdict_given(comments, history, verdict)),
        Err(error) => Err(error),
    }
}

/// The verdict on a text, by the number of the line as it was given. Its explanation is put.
fn put_explained(
    alloc: Global,
    form: Form,
    page: &mut Vec<u8>,
    comments: bool,
    text: &[u8],
) -> Result<Verdict, CheckFault>
    requires { page.old.items ≡ [] }
    ensures ok { IfOk result
        (λ verdict. IsExplained form comments text.now verdict page.new.items) }
    ensures err { IfErr result (IsRefused comments text.now) }
{
    let mut followed = Vec::new(alloc);
    let history = put_followed(&mut followed, comments, text)?;
    let mut reader = Counted::new(followed.as_slice());
    match follow(alloc, |table| QueueStore::new(alloc, table), &mut reader) {
        Ok(followed) => match told(alloc, form, page, comments, history, followed) {
            Ok(verdict) => Ok(verdict),
            Err(_) => Err(CheckFault::Memory),
        },
        Err(fault) => Err(fault_given(comments, history, fault_in_memory(fault))),
    }
}

/// Writes the bytes.
fn write_page<W: Sink>(page: &Vec<u8>, writer: &mut Counted<W>) -> io::Result<()>
    ensures bytes { OnOk result
        (Appends (W.contents (inner_of writer.old)) (W.contents (inner_of writer.new))
        page.now.items) }
    ensures beginning { OnErr result
        (AppendsBeginning (W.contents (inner_of writer.old)) (W.contents (inner_of writer.new))
        page.now.items) }
    ensures counted { CountsFailure result (failures_of writer.old) (failures_of writer.new) }
{
    writer.write_all(page.as_slice())
}

/// Follows a printed history, as [`follow`] does, and explains the verdict on it.
///
/// The text has a table, the line `%%`, and then lines. With `comments` the lines behind `%%` that
/// are empty or begin with `#` are left out before; numbers of lines count them. What is written
/// is `legal` with the number of lines that are not left out, or `departs at` with the number of
/// the line, the line that was given, the line that the machine expects, the column, counted from
/// 1, in which they differ, and the reason of the machine's entry (this profile), each as a line or
/// as a member of an object of JSON. With a fault nothing is written, except for `Write`, which leaves a prefix of the explanation.
///
/// Memory is taken for the text too. The errors are those of [`follow`], and `Write`.
pub fn explain<R: Source, W: Sink>(
    alloc: Global,
    form: Form,
    comments: bool,
    reader: &mut Counted<R>,
    writer: &mut Counted<W>,
) -> Result<Verdict, CheckFault>
    ensures { Ends form comments
        (ports (R.remaining (inner_of reader.old)) (W.contents (inner_of writer.old))
        (failures_of reader.old) (failures_of writer.old))
        result
        (ports (R.remaining (inner_of reader.new)) (W.contents (inner_of writer.new))
        (failures_of reader.new) (failures_of writer.new)) }
{
    let text = match read_all(alloc, reader) {
        Ok(text) => text,
        Err(fault) => return Err(fault_of_reading(fault)),
    };
    let mut page = Vec::new(alloc);
    let verdict = put_explained(alloc, form, &mut page, comments, text.as_slice())?;
    match write_page(&page, writer) {
        Ok(()) => Ok(verdict),
        Err(_) => Err(CheckFault::Write),
    }
}
