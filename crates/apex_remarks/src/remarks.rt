//! The remarks on a table's text: its faults, or else its warnings.
ghost use Rattle.std.specs.Prelude.{◌≡◌, map, string_bytes, IfOk};
ghost use Rattle.std.specs.List.{All, filter};
ghost use Rattle.apex_faults.specs.Locations.{IsLocationIn};
ghost use Rattle.apex_faults.specs.declared.Finding.{Finding};
ghost use Rattle.apex_words.specs.Subjects.{whole};
ghost use Rattle.apex_remarks.specs.Details.{entry_name, maker_name, name_part, part_and_reason, reason_part, step_and_reason, step_part, text_of, warning_detail};
ghost use Rattle.apex_remarks.specs.Remarks.{at, detail, details_of_warnings, fault_head, head, heads_of_faults, heads_of_warnings, is_told, severity_word, step_subject, warning_head, warning_subject};
ghost use Rattle.apex_remarks.specs.Terms.{Remark};
ghost use Rattle.apex_warnings.specs.Warnings.{warnings};

use apex_configs::Table;
use apex_faults::{Finding, Location, findings_of, locate};
use apex_names::{object_name, process_name};
use apex_types::Origin;
use apex_warnings::{StepWarning, Warning, is_among, lint};
use apex_words::{Key, Part, Place, Section, Subject};
use std::alloc::{AllocError, Global};
use std::str;

/// How much a remark matters.
#[derive(Clone, Copy, PartialEq, Eq)]
pub enum Severity {
    /// The table is refused.
    Error,
    /// The table is read, and can hardly mean what it says.
    Warning,
}

impl Severity {
    /// The word in a line.
    pub fn word(self) -> &'static str
        ensures { result.now ≡ severity_word self }
    {
        match self {
            Severity::Error => "error",
            Severity::Warning => "warning",
        }
    }
}

/// A fault of a table's text, or a warning about the table.
#[derive(Drop)]
pub struct Remark {
    /// Whether it is a fault or a warning.
    pub severity: Severity,
    /// The fault's word, or the word by which the warning is left out.
    pub code: &'static str,
    /// What it is about; none if the text is no TOML.
    pub subject: Option<Subject>,
    /// Where it begins in the text.
    pub location: Location,
    /// The text behind the subject's place: the name of the entry, the key or the step, and what is
    /// wrong.
    pub detail: String,
}

/// What a step is about, in the terms of faults.
fn step_subject(origin: Origin) -> Subject
    ensures { result ≡ step_subject origin }
{
    match origin {
        Origin::Init(place) => Subject {
            place: Place {
                section: Section::Init,
                number: u32::from(place) + 1,
            },
            part: Part::Step(usize::from(place)),
        },
        Origin::Script(process, place) => Subject {
            place: Place {
                section: Section::Process,
                number: u32::from(process.number()),
            },
            part: Part::Step(usize::from(place)),
        },
    }
}

/// An entry as a whole.
fn entry_subject(section: Section, number: u32) -> Subject
    ensures { result ≡ whole (at section number) }
{
    Subject {
        place: Place { section, number },
        part: Part::Whole,
    }
}

/// What a warning is about, in the terms of faults.
fn warning_subject(warning: Warning) -> Subject
    ensures { result ≡ warning_subject warning }
{
    match warning {
        Warning::Process(_, process) => {
            entry_subject(Section::Process, u32::from(process.number()))
        }
        Warning::Step(_, origin) => step_subject(origin),
        Warning::UnusedObject(group, place) => {
            entry_subject(group.section(), u32::from(place) + 1)
        }
        Warning::UnusedCore(_) => Subject {
            place: Place {
                section: Section::Top,
                number: 0,
            },
            part: Part::Key(Key::Cores),
        },
    }
}

/// The name of the process that makes the step; no byte if no process makes it.
fn maker_name(table: &Table, origin: Origin) -> &[u8]
    ensures { result.now ≡ maker_name table.now origin }
{
    match origin {
        Origin::Init(_) => &[],
        Origin::Script(process, _) => process_name(table, process),
    }
}

/// The name of the entry that the warning is about; no byte if it is about none.
fn entry_name(table: &Table, warning: Warning) -> &[u8]
    ensures { result.now ≡ entry_name table.now warning }
{
    match warning {
        Warning::Process(_, process) => process_name(table, process),
        Warning::Step(_, origin) => maker_name(table, origin),
        Warning::UnusedObject(group, place) => object_name(table, &group.queue(place)),
        Warning::UnusedCore(_) => &[],
    }
}

/// The text of these bytes; no byte if they are none.
#[tactic(auto, using(crate::proofs::Further::text_stays, crate::proofs::Further::no_text_is_empty))]
fn text_of(name: &[u8]) -> &str
    ensures { result.now ≡ text_of name.now }
{
    match str::from_utf8(name) {
        Ok(text) => text,
        Err(_) => "",
    }
}

/// The name in quotes, with a space before it; nothing if it has no byte.
fn name_part(alloc: Global, name: &str) -> Result<String, AllocError>
    ensures { IfOk result (λ s. string_bytes s ≡ name_part name.now) }
{
    if name.is_empty() {
        return Ok(String::new(alloc));
    }
    format!(in alloc; " \"{name}\"")
}

/// The step of a script that a warning is about; nothing for a step of the init list.
fn step_part(alloc: Global, origin: Origin) -> Result<String, AllocError>
    ensures { IfOk result (λ s. string_bytes s ≡ step_part origin) }
{
    match origin {
        Origin::Init(_) => Ok(String::new(alloc)),
        Origin::Script(_, place) => {
            let number = u32::from(place) + 1;
            format!(in alloc; ", step {number}")
        }
    }
}

/// A reason, behind a colon.
#[tactic(auto, unfolding(crate::specs::Details::reason_part))]
fn reason_part(alloc: Global, reason: &str) -> Result<String, AllocError>
    ensures { IfOk result (λ s. string_bytes s ≡ reason_part reason.now) }
{
    format!(in alloc; ": {reason}")
}

/// The step of a script that a warning is about, and the reason.
#[tactic(auto, unfolding(crate::specs::Details::step_and_reason))]
fn step_and_reason(
    alloc: Global,
    warning: StepWarning,
    origin: Origin,
) -> Result<String, AllocError>
    ensures { IfOk result (λ s. string_bytes s ≡ step_and_reason warning origin) }
{
    let step = step_part(alloc, origin)?;
    let reason = reason_part(alloc, warning.reason())?;
    format!(in alloc; "{step}{reason}")
}

/// The part of the entry that a warning is about, and the reason.
fn part_and_reason(alloc: Global, warning: &Warning) -> Result<String, AllocError>
    ensures { IfOk result (λ s. string_bytes s ≡ part_and_reason warning.now) }
{
    match *warning {
        Warning::Process(warning, _) => reason_part(alloc, warning.reason()),
        Warning::Step(warning, origin) => step_and_reason(alloc, warning, origin),
        Warning::UnusedObject(_, _) => {
            String::from_str(alloc, ": no step names it, apart from its creation")
        }
        Warning::UnusedCore(core) => {
            let number = core.number();
            format!(in alloc; ", key cores: the init list binds no process to core {number}")
        }
    }
}

/// The text of a warning behind its place.
#[tactic(auto, unfolding(crate::specs::Details::warning_detail))]
fn warning_detail(alloc: Global, table: &Table, warning: &Warning) -> Result<String, AllocError>
    ensures { IfOk result (λ s. string_bytes s ≡ warning_detail table.now warning.now) }
{
    let name = name_part(alloc, text_of(entry_name(table, *warning)))?;
    let rest = part_and_reason(alloc, warning)?;
    format!(in alloc; "{name}{rest}")
}

/// The remark on a warning about the table of the text.
fn remark_of_warning(
    alloc: Global,
    text: &[u8],
    table: &Table,
    warning: Warning,
) -> Result<Remark, AllocError>
    ensures head { IfOk result (λ r. head r ≡ warning_head warning) }
    ensures place { IfOk result (λ r. IsLocationIn text.now r.location) }
    ensures detail { IfOk result (λ r. detail r ≡ warning_detail table.now warning) }
{
    let subject = warning_subject(warning);
    Ok(Remark {
        severity: Severity::Warning,
        code: warning.word(),
        subject: Some(subject),
        location: locate(text, subject, ""),
        detail: warning_detail(alloc, table, &warning)?,
    })
}

/// The remark on a fault.
fn remark_of_fault(finding: &Finding) -> Result<Remark, AllocError>
    ensures head { IfOk result (λ r. head r ≡ fault_head finding.now.fault) }
    ensures place { IfOk result (λ r. r.location ≡ finding.now.location) }
{
    let (code, subject) = finding.fault.parts();
    Ok(Remark {
        severity: Severity::Error,
        code,
        subject,
        location: finding.location,
        detail: finding.detail.clone()?,
    })
}

/// Leaves out the warnings with one of these words.
fn leave_out(allowed: &[&str], warnings: &mut Vec<Warning>)
    ensures { warnings.new.items
        ≡ filter (is_told (map (λ w. w.now) allowed.now)) warnings.old.items }
{
    warnings.retain(|warning| !is_among(warning.word(), allowed));
}

/// The warnings about the table, but for those with one of these words.
fn told(alloc: Global, table: &Table, allowed: &[&str]) -> Result<Vec<Warning>, AllocError>
    ensures { IfOk result (λ v. v.items
        ≡ filter (is_told (map (λ w. w.now) allowed.now)) (warnings table.now)) }
{
    let mut told = lint(alloc, table)?;
    leave_out(allowed, &mut told);
    Ok(told)
}

/// The remarks on these warnings about the table of the text.
fn remarks_of_warnings(
    alloc: Global,
    text: &[u8],
    table: &Table,
    warnings: &[Warning],
) -> Result<Vec<Remark>, AllocError>
    ensures heads { IfOk result (λ v. map head v.items ≡ map warning_head warnings.now) }
    ensures places { IfOk result (λ v. All (λ (r : Remark). IsLocationIn text.now r.location)
        v.items) }
    ensures details { IfOk result (λ v. map detail v.items
        ≡ map (warning_detail table.now) warnings.now) }
{
    let mut remarks = Vec::new(alloc);
    for warning in warnings {
        remarks.push(remark_of_warning(alloc, text, table, *warning)?)?;
    }
    Ok(remarks)
}

/// The remarks on these faults, which stand in the text.
fn remarks_of_faults(
    alloc: Global,
    text: &[u8],
    findings: &[Finding],
) -> Result<Vec<Remark>, AllocError>
    requires { All (λ (f : Finding). IsLocationIn text.now f.location) findings.now }
    ensures heads { IfOk result (λ v. map head v.items
        ≡ map (λ (f : Finding). fault_head f.fault) findings.now) }
    ensures places { IfOk result (λ v. All (λ (r : Remark). IsLocationIn text.now r.location)
        v.items) }
{
    let mut remarks = Vec::new(alloc);
    for finding in findings {
        remarks.push(remark_of_fault(finding)?)?;
    }
    Ok(remarks)
}

/// The remarks on the warnings about the table of the text, but for those with one of these words.
/// Fails only for want of memory.
pub fn remarks_on_table(
    alloc: Global,
    text: &[u8],
    table: &Table,
    allowed: &[&str],
) -> Result<Vec<Remark>, AllocError>
    ensures heads { IfOk result (λ v. map head v.items
        ≡ heads_of_warnings (map (λ w. w.now) allowed.now) table.now) }
    ensures places { IfOk result (λ v. All (λ (r : Remark). IsLocationIn text.now r.location)
        v.items) }
    ensures details { IfOk result (λ v. map detail v.items
        ≡ details_of_warnings (map (λ w. w.now) allowed.now) table.now) }
{
    let warnings = told(alloc, table, allowed)?;
    remarks_of_warnings(alloc, text, table, &warnings)
}

/// The remarks on the faults of the text. Fails only for want of memory.
#[tactic(auto, using(crate::proofs::Further::heads_made))]
pub fn remarks_on_faults(alloc: Global, text: &[u8]) -> Result<Vec<Remark>, AllocError>
    ensures heads { IfOk result (λ v. map head v.items ≡ heads_of_faults text.now) }
    ensures places { IfOk result (λ v. All (λ (r : Remark). IsLocationIn text.now r.location)
        v.items) }
{
    let findings = findings_of(alloc, text)?;
    remarks_of_faults(alloc, text, &findings)
}
