//! The report on a table's text: a line or an object of JSON for each remark.
ghost use Rattle.std.specs.Prelude.{◌≡◌, ◌+◌, ◌++◌, map, string_bytes, IfOk};
ghost use Rattle.std.specs.List.{All};
ghost use Rattle.apex_table.specs.Reading.{table_of};
ghost use Rattle.apex_faults.specs.Locations.{IsLocationIn};
ghost use Rattle.apex_remarks.specs.Remarks.{head, heads_by};
ghost use Rattle.apex_lint.specs.Terms.{Remark};
ghost use Rattle.apex_lint.specs.Reports.{HasALineForEach, HaveDetails, IsReportOn, column_member, kind_members, line_member, line_text, lines_text, location_members, location_text, message, middle_members, more_objects_text, next_object_text, object_end, object_front, object_text, objects_text, part_members, place_words, plain_line, quoted, remark_text, report_text, shown_byte, subject_members, verdict_by, verdict_on, mark_text, marks_text, severity_text, said_text, code_text, told_text, step_member, word_member, first_members};

use apex_faults::Location;
use apex_json::{Form, put_json};
use apex_remarks::{Remark, remarks_on_faults, remarks_on_table};
use apex_table::read_table;
use apex_words::{Part, Subject, TableFault};
use std::alloc::{AllocError, Global};

/// What a table's text is found to be.
#[derive(Clone, Copy, PartialEq, Eq)]
pub enum LintVerdict {
    /// A table without a warning.
    Accepted,
    /// A table with a warning.
    Warned,
    /// No table.
    Refused,
}

/// A report, and the verdict.
#[derive(Drop)]
pub struct Report {
    /// Its bytes, in the form that was asked for.
    pub text: Vec<u8>,
    /// Whether the text is a table, and whether there is a warning about it.
    pub verdict: LintVerdict,
}

/// The place of a subject: the section, and the number of the entry if it is about one.
fn place_words(alloc: Global, subject: Option<Subject>) -> Result<String, AllocError>
    ensures { IfOk result (λ s. string_bytes s ≡ place_words subject) }
{
    let Some(subject) = subject else {
        return String::from_str(alloc, "text");
    };
    let section = subject.place.section.word();
    match subject.place.number {
        0 => String::from_str(alloc, section),
        number => format!(in alloc; "{section} {number}"),
    }
}

/// The text of a remark.
#[tactic(auto, unfolding(crate::specs::Reports::message))]
fn message(alloc: Global, remark: &Remark) -> Result<String, AllocError>
    ensures { IfOk result (λ s. string_bytes s ≡ message remark.now) }
{
    let place = place_words(alloc, remark.subject)?;
    let detail = remark.detail.as_str();
    format!(in alloc; "{place}{detail}")
}

/// A number of a place, behind a colon.
#[tactic(auto, unfolding(crate::specs::Reports::mark_text))]
fn mark_text(alloc: Global, number: usize) -> Result<String, AllocError>
    ensures { IfOk result (λ s. string_bytes s ≡ mark_text number) }
{
    format!(in alloc; ":{number}")
}

/// The line and the column of a place.
#[tactic(auto, unfolding(crate::specs::Reports::marks_text))]
fn marks_text(alloc: Global, location: Location) -> Result<String, AllocError>
    ensures { IfOk result (λ s. string_bytes s ≡ marks_text location) }
{
    let line = mark_text(alloc, location.line)?;
    let column = mark_text(alloc, location.column)?;
    format!(in alloc; "{line}{column}")
}

/// The place of a remark in a file.
#[tactic(auto, unfolding(crate::specs::Reports::location_text))]
fn location_text(alloc: Global, file: &str, location: Location) -> Result<String, AllocError>
    ensures { IfOk result (λ s. string_bytes s ≡ location_text file.now location) }
{
    let marks = marks_text(alloc, location)?;
    format!(in alloc; "{file}{marks}")
}

/// The severity of a remark, behind a colon.
#[tactic(auto, unfolding(crate::specs::Reports::severity_text))]
fn severity_text(alloc: Global, remark: &Remark) -> Result<String, AllocError>
    ensures { IfOk result (λ s. string_bytes s ≡ severity_text remark.now) }
{
    let severity = remark.severity.word();
    format!(in alloc; ": {severity}")
}

/// The text of a remark, behind a colon.
#[tactic(auto, unfolding(crate::specs::Reports::said_text))]
fn said_text(alloc: Global, remark: &Remark) -> Result<String, AllocError>
    ensures { IfOk result (λ s. string_bytes s ≡ said_text remark.now) }
{
    let message = message(alloc, remark)?;
    format!(in alloc; ": {message}")
}

/// The word of a remark in brackets.
#[tactic(auto, unfolding(crate::specs::Reports::code_text))]
fn code_text(alloc: Global, remark: &Remark) -> Result<String, AllocError>
    ensures { IfOk result (λ s. string_bytes s ≡ code_text remark.now) }
{
    let code = remark.code;
    format!(in alloc; " [{code}]")
}

/// The text of a remark and its word.
#[tactic(auto, unfolding(crate::specs::Reports::told_text))]
fn told_text(alloc: Global, remark: &Remark) -> Result<String, AllocError>
    ensures { IfOk result (λ s. string_bytes s ≡ told_text remark.now) }
{
    let said = said_text(alloc, remark)?;
    let code = code_text(alloc, remark)?;
    format!(in alloc; "{said}{code}")
}

/// What a line says of its place.
#[tactic(auto, unfolding(crate::specs::Reports::remark_text))]
fn remark_text(alloc: Global, remark: &Remark) -> Result<String, AllocError>
    ensures { IfOk result (λ s. string_bytes s ≡ remark_text remark.now) }
{
    let severity = severity_text(alloc, remark)?;
    let told = told_text(alloc, remark)?;
    format!(in alloc; "{severity}{told}")
}

/// A line of the report, with the bytes that the table's text has.
#[tactic(auto, unfolding(crate::specs::Reports::line_text))]
fn line_text(alloc: Global, file: &str, remark: &Remark) -> Result<String, AllocError>
    ensures { IfOk result (λ s. string_bytes s ≡ line_text file.now remark.now) }
{
    let location = location_text(alloc, file, remark.location)?;
    let text = remark_text(alloc, remark)?;
    format!(in alloc; "{location}{text}")
}

/// The byte as a line shows it: a control character is `?`.
fn shown_byte(byte: u8) -> u8
    ensures { result ≡ shown_byte byte }
{
    if byte < b' ' || byte == 0x7f {
        b'?'
    } else {
        byte
    }
}

/// Adds the text as a line that shows it, with its line feed.
fn put_line(out: &mut Vec<u8>, text: &str) -> Result<(), AllocError>
    ensures { IfOk result (λ _. out.new.items ≡ out.old.items ++ plain_line text.now) }
{
    for byte in text.as_bytes() {
        out.push(shown_byte(*byte))?;
    }
    out.push(b'\n')?;
    Ok(())
}

fn put_lines(
    alloc: Global,
    out: &mut Vec<u8>,
    file: &str,
    remarks: &[Remark],
) -> Result<(), AllocError>
    ensures { IfOk result (λ _. out.new.items ≡ out.old.items ++ lines_text file.now remarks.now) }
{
    for remark in remarks {
        let text = line_text(alloc, file, remark)?;
        put_line(out, text.as_str())?;
    }
    Ok(())
}

/// Adds a text in the quotes of JSON.
#[tactic(auto, unfolding(crate::specs::Reports::quoted))]
fn put_quoted(out: &mut Vec<u8>, text: &str) -> Result<(), AllocError>
    ensures { IfOk result (λ _. out.new.items ≡ out.old.items ++ quoted text.now) }
{
    out.push(b'"')?;
    put_json(out, text.as_bytes())?;
    out.push(b'"')?;
    Ok(())
}

/// The number of what is at this place, counted from 1.
fn number(place: usize) -> u128
    ensures { result ≡ place + 1 }
{
    place as u128 + 1
}

/// The member of a step.
#[tactic(auto, unfolding(crate::specs::Reports::step_member))]
fn step_member(alloc: Global, step: usize) -> Result<String, AllocError>
    ensures { IfOk result (λ s. string_bytes s ≡ step_member step) }
{
    let step = number(step);
    format!(in alloc; ", \"step\": {step}")
}

/// The member of a word of a step.
#[tactic(auto, unfolding(crate::specs::Reports::word_member))]
fn word_member(alloc: Global, word: usize) -> Result<String, AllocError>
    ensures { IfOk result (λ s. string_bytes s ≡ word_member word) }
{
    let word = number(word);
    format!(in alloc; ", \"word\": {word}")
}

/// The members of an object that say what part of an entry the remark is about.
fn part_members(alloc: Global, part: Part) -> Result<String, AllocError>
    ensures { IfOk result (λ s. string_bytes s ≡ part_members part) }
{
    match part {
        Part::Whole | Part::OtherKey(_) => Ok(String::new(alloc)),
        Part::Key(key) => {
            let key = key.word();
            format!(in alloc; ", \"key\": \"{key}\"")
        }
        Part::Step(step) => step_member(alloc, step),
        Part::Word(step, word) => {
            let step = step_member(alloc, step)?;
            let word = word_member(alloc, word)?;
            format!(in alloc; "{step}{word}")
        }
    }
}

/// The members of an object that say what the remark is about.
fn subject_members(alloc: Global, subject: Option<Subject>) -> Result<String, AllocError>
    ensures { IfOk result (λ s. string_bytes s ≡ subject_members subject) }
{
    let Some(subject) = subject else {
        return Ok(String::new(alloc));
    };
    let section = subject.place.section.word();
    let number = subject.place.number;
    let part = part_members(alloc, subject.part)?;
    format!(in alloc; ", \"section\": \"{section}\", \"entry\": {number}{part}")
}

/// The member of the line.
#[tactic(auto, unfolding(crate::specs::Reports::line_member))]
fn line_member(alloc: Global, line: usize) -> Result<String, AllocError>
    ensures { IfOk result (λ s. string_bytes s ≡ line_member line) }
{
    format!(in alloc; ", \"line\": {line}")
}

/// The member of the column.
#[tactic(auto, unfolding(crate::specs::Reports::column_member))]
fn column_member(alloc: Global, column: usize) -> Result<String, AllocError>
    ensures { IfOk result (λ s. string_bytes s ≡ column_member column) }
{
    format!(in alloc; ", \"column\": {column}")
}

/// The members of an object that say where the remark begins.
#[tactic(auto, unfolding(crate::specs::Reports::location_members))]
fn location_members(alloc: Global, location: Location) -> Result<String, AllocError>
    ensures { IfOk result (λ s. string_bytes s ≡ location_members location) }
{
    let line = line_member(alloc, location.line)?;
    let column = column_member(alloc, location.column)?;
    format!(in alloc; "{line}{column}")
}

/// The members of an object that say of which kind the remark is.
#[tactic(auto, unfolding(crate::specs::Reports::kind_members))]
fn kind_members(alloc: Global, remark: &Remark) -> Result<String, AllocError>
    ensures { IfOk result (λ s. string_bytes s ≡ kind_members remark.now) }
{
    let severity = remark.severity.word();
    let code = remark.code;
    format!(in alloc; ", \"severity\": \"{severity}\", \"code\": \"{code}\"")
}

/// The members of an object that say where the remark begins, and of which kind it is.
#[tactic(auto, unfolding(crate::specs::Reports::first_members))]
fn first_members(alloc: Global, remark: &Remark) -> Result<String, AllocError>
    ensures { IfOk result (λ s. string_bytes s ≡ first_members remark.now) }
{
    let location = location_members(alloc, remark.location)?;
    let kind = kind_members(alloc, remark)?;
    format!(in alloc; "{location}{kind}")
}

/// The members of an object that stand between its file and its message.
#[tactic(auto, unfolding(crate::specs::Reports::middle_members))]
fn middle_members(alloc: Global, remark: &Remark) -> Result<String, AllocError>
    ensures { IfOk result (λ s. string_bytes s ≡ middle_members remark.now) }
{
    let first = first_members(alloc, remark)?;
    let subject = subject_members(alloc, remark.subject)?;
    format!(in alloc; "{first}{subject}")
}

/// Adds an object up to its message.
#[tactic(auto, unfolding(crate::specs::Reports::object_front))]
fn put_object_front(
    alloc: Global,
    out: &mut Vec<u8>,
    file: &str,
    remark: &Remark,
) -> Result<(), AllocError>
    ensures { IfOk result (λ _. out.new.items
        ≡ out.old.items ++ object_front file.now remark.now) }
{
    let middle = middle_members(alloc, remark)?;
    out.extend_from_slice(b"{\"file\": ")?;
    put_quoted(out, file)?;
    out.extend_from_slice(middle.as_str().as_bytes())?;
    Ok(())
}

/// Adds the message and the end of an object.
#[tactic(auto, unfolding(crate::specs::Reports::object_end))]
fn put_message(alloc: Global, out: &mut Vec<u8>, remark: &Remark) -> Result<(), AllocError>
    ensures { IfOk result (λ _. out.new.items ≡ out.old.items ++ object_end remark.now) }
{
    let message = message(alloc, remark)?;
    out.extend_from_slice(b", \"message\": ")?;
    put_quoted(out, message.as_str())?;
    out.push(b'}')?;
    Ok(())
}

/// Adds the object of a remark.
#[tactic(auto, unfolding(crate::specs::Reports::object_text))]
fn put_object(
    alloc: Global,
    out: &mut Vec<u8>,
    file: &str,
    remark: &Remark,
) -> Result<(), AllocError>
    ensures { IfOk result (λ _. out.new.items
        ≡ out.old.items ++ object_text file.now remark.now) }
{
    put_object_front(alloc, out, file, remark)?;
    put_message(alloc, out, remark)
}

/// Adds the object of a remark behind another one.
#[tactic(auto, unfolding(crate::specs::Reports::next_object_text))]
fn put_next_object(
    alloc: Global,
    out: &mut Vec<u8>,
    file: &str,
    remark: &Remark,
) -> Result<(), AllocError>
    ensures { IfOk result (λ _. out.new.items
        ≡ out.old.items ++ next_object_text file.now remark.now) }
{
    out.extend_from_slice(b",\n")?;
    put_object(alloc, out, file, remark)
}

/// Adds the objects behind the first one.
fn put_more_objects(
    alloc: Global,
    out: &mut Vec<u8>,
    file: &str,
    remarks: &[Remark],
) -> Result<(), AllocError>
    ensures { IfOk result (λ _. out.new.items
        ≡ out.old.items ++ more_objects_text file.now remarks.now) }
{
    for remark in remarks {
        put_next_object(alloc, out, file, remark)?;
    }
    Ok(())
}

fn put_objects(
    alloc: Global,
    out: &mut Vec<u8>,
    file: &str,
    remarks: &[Remark],
) -> Result<(), AllocError>
    ensures { IfOk result (λ _. out.new.items
        ≡ out.old.items ++ objects_text file.now remarks.now) }
{
    let [first, rest @ ..] = remarks else {
        return out.extend_from_slice(b"[]\n");
    };
    out.extend_from_slice(b"[\n")?;
    put_object(alloc, out, file, first)?;
    put_more_objects(alloc, out, file, rest)?;
    out.extend_from_slice(b"\n]\n")?;
    Ok(())
}

/// The text of a report.
fn report_text(
    alloc: Global,
    form: Form,
    file: &str,
    remarks: &[Remark],
) -> Result<Vec<u8>, AllocError>
    ensures { IfOk result (λ v. v.items ≡ report_text form file.now remarks.now) }
{
    let mut out = Vec::new(alloc);
    match form {
        Form::Text => put_lines(alloc, &mut out, file, remarks)?,
        Form::Json => put_objects(alloc, &mut out, file, remarks)?,
    }
    Ok(out)
}

/// The verdict on a table with these remarks.
fn verdict_on(remarks: &[Remark]) -> LintVerdict
    ensures { result ≡ verdict_on (map head remarks.now) }
{
    match remarks {
        [] => LintVerdict::Accepted,
        [_, ..] => LintVerdict::Warned,
    }
}

/// The remarks on a text, and the verdict.
#[derive(Drop)]
struct Judgement {
    remarks: Vec<Remark>,
    verdict: LintVerdict,
}

/// The remarks on the text without the warnings that are `allowed`, and the verdict.
fn judge(alloc: Global, allowed: &[&str], text: &[u8]) -> Result<Judgement, AllocError>
    ensures heads { IfOk result (λ j. map head j.remarks.items
        ≡ heads_by (map (λ w. w.now) allowed.now) text.now (table_of text.now)) }
    ensures places { IfOk result (λ j. All (λ (r : Remark). IsLocationIn text.now r.location)
        j.remarks.items) }
    ensures details { IfOk result (λ j. HaveDetails (map (λ w. w.now) allowed.now) text.now
        j.remarks.items) }
    ensures verdict { IfOk result (λ j. j.verdict
        ≡ verdict_by (table_of text.now) (map head j.remarks.items)) }
{
    match read_table(alloc, text) {
        Ok(table) => {
            let remarks = remarks_on_table(alloc, text, &table, allowed)?;
            let verdict = verdict_on(&remarks);
            Ok(Judgement { remarks, verdict })
        }
        Err(TableFault::Memory) => Err(AllocError),
        Err(_) => {
            let remarks = remarks_on_faults(alloc, text)?;
            let verdict = LintVerdict::Refused;
            Ok(Judgement { remarks, verdict })
        }
    }
}

/// The report on the text: all its faults, or else its warnings but for those that are `allowed`,
/// each with its place in the text. `file` is the name under which the text is reported. As text it
/// has a line for each remark: `FILE:LINE:COLUMN: error: TEXT`, or `warning` in place of `error`.
/// As JSON it is an array with an object for each remark, one a line. Fails only for want of
/// memory.
pub fn report_on(
    alloc: Global,
    form: Form,
    file: &str,
    allowed: &[&str],
    text: &[u8],
) -> Result<Report, AllocError>
    ensures { IfOk result (IsReportOn form file.now (map (λ w. w.now) allowed.now) text.now) }
{
    let judgement = judge(alloc, allowed, text)?;
    let report = report_text(alloc, form, file, &judgement.remarks)?;
    Ok(Report {
        text: report,
        verdict: judgement.verdict,
    })
}

/// A report in lines has a line for each remark: no text of a table breaks a line.
pub fn reports_have_a_line_for_each_remark()
    ensures { HasALineForEach }
{}
