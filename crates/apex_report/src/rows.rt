//! The rows of processes, cores and services, each put together from its parts.
ghost use Rattle.std.specs.Prelude.{◌≡◌, ◌+◌, ◌≤◌, ◌++◌, ℕ, List, option_map};
ghost use Rattle.arrayvec.specs.ArrayVec.{array_vec_len};
ghost use Rattle.apex_json.specs.declared.Form as forms;
ghost use Rattle.apex_machine.specs.table.Table as tables;
ghost use Rattle.apex_report.specs.Jobs.{response};
ghost use Rattle.apex_report.specs.Members.{members_in};
ghost use Rattle.apex_report.specs.Rows.{core_members, core_row, counted_row, is_listed};
ghost use Rattle.apex_report.specs.Rows.{process_members, process_row, refusal_members, service_row};
ghost use Rattle.apex_report.specs.declared.lines.TheConstants.{LINE_ROOM};
ghost use Rattle.apex_report.specs.declared.rows.TheConstants.{FRONT};

use crate::cores::CoreFigures;
use crate::jobs::Job;
use crate::lines::Line;
use crate::members::{Member, put_members, put_name};
use crate::processes::ProcessFigures;
use crate::refusals::Refusals;
use crate::services::ServiceFigures;
use apex_calls::row_of;
use apex_configs::Table;
use apex_json::{Form, pick};
use apex_names::process_name;
use apex_texts::{put, put_number};

/// The most bytes in a line before a row.
pub(crate) const FRONT: usize = 2;

/// Figures that a report has as a row.
pub(crate) trait Figures {
    // The row's text.
    ghost text: { forms.Form → tables.Table → Self → List ℕ };

    /// Adds the row to a line.
    fn put_row(&self, line: &mut Line, form: Form, table: &Table)
        requires { array_vec_len line.old ≤ FRONT }
        ensures { line.new.items ≡ line.old.items ++ text form table.now self.now };
}

#[tactic(auto, unfolding(crate::specs::Members::members_in))]
fn put_refusals(line: &mut Line, form: Form, refusals: &Refusals)
    requires { array_vec_len line.old + 200 ≤ LINE_ROOM }
    ensures text { line.new.items
        ≡ line.old.items ++ members_in form (refusal_members refusals.now) }
    ensures short { array_vec_len line.new ≤ array_vec_len line.old + 200 }
{
    put_members(
        line,
        form,
        &[
            Member("NO_ACTION", Some(u64::from(refusals.no_action))),
            Member("NOT_AVAILABLE", Some(u64::from(refusals.not_available))),
            Member("INVALID_PARAM", Some(u64::from(refusals.invalid_param))),
            Member("INVALID_CONFIG", Some(u64::from(refusals.invalid_config))),
            Member("INVALID_MODE", Some(u64::from(refusals.invalid_mode))),
        ],
    );
}

/// The response of a job, in ticks.
fn response_of(job: &Option<Job>) -> Option<u64>
    ensures { result ≡ option_map response job.now }
{
    match job {
        Some(job) => Some(job.response()),
        None => None,
    }
}

/// The number of the entry that ended a job.
fn end_of(job: &Option<Job>) -> Option<u64>
    ensures { result ≡ option_map (λ job. job.number) job.now }
{
    match job {
        Some(job) => Some(u64::from(job.number)),
        None => None,
    }
}

#[tactic(auto, unfolding(crate::specs::Members::members_in))]
fn put_process_members(line: &mut Line, form: Form, figures: &ProcessFigures)
    requires { array_vec_len line.old + 400 ≤ LINE_ROOM }
    ensures text { line.new.items
        ≡ line.old.items ++ members_in form (process_members figures.now) }
    ensures short { array_vec_len line.new ≤ array_vec_len line.old + 400 }
{
    let jobs = &figures.jobs;
    put_members(
        line,
        form,
        &[
            Member("turns", Some(u64::from(figures.turns))),
            Member("misses", Some(u64::from(figures.misses))),
            Member("timeouts", Some(u64::from(figures.timeouts))),
            Member("work_done", Some(figures.work_done)),
            Member("work_lost", Some(figures.work_lost)),
            Member("releases", Some(u64::from(jobs.releases))),
            Member("completions", Some(u64::from(jobs.completions))),
            Member("stops", Some(u64::from(jobs.stops))),
            Member("open", jobs.open_since),
            Member("best", response_of(&jobs.best)),
            Member("worst", response_of(&jobs.worst)),
            Member("at", end_of(&jobs.worst)),
        ],
    );
}

impl Figures for ProcessFigures {
    ghost text = { process_row };

    #[tactic(auto, using(std::proofs::Common::append_assoc))]
    fn put_row(&self, line: &mut Line, form: Form, table: &Table) {
        put(line, pick(form, "process ", "{\"process\":"));
        put_name(line, form, process_name(table, self.process));
        put_process_members(line, form, self);
        put_refusals(line, form, &self.refusals);
        put(line, pick(form, "\n", "}"));
    }
}

#[tactic(auto, unfolding(crate::specs::Members::members_in))]
fn put_core_members(line: &mut Line, form: Form, figures: &CoreFigures)
    requires { array_vec_len line.old + 400 ≤ LINE_ROOM }
    ensures text { line.new.items ≡ line.old.items ++ members_in form (core_members figures.now) }
    ensures short { array_vec_len line.new ≤ array_vec_len line.old + 400 }
{
    put_members(
        line,
        form,
        &[
            Member("turns", Some(u64::from(figures.turns))),
            Member("idle", Some(u64::from(figures.idle))),
            Member("calls", Some(u64::from(figures.calls))),
            Member("lost", Some(u64::from(figures.lost))),
            Member("work_done", Some(figures.work_done)),
            Member("work_lost", Some(figures.work_lost)),
            Member("busy_ticks", Some(figures.busy_ticks)),
            Member("idle_ticks", Some(figures.idle_ticks)),
            Member("busy_percent", figures.busy_percent()),
        ],
    );
}

impl Figures for CoreFigures {
    ghost text = { λ form _. core_row form };

    #[tactic(auto, using(std::proofs::Common::append_assoc))]
    fn put_row(&self, line: &mut Line, form: Form, _table: &Table) {
        put(line, pick(form, "core ", "{\"core\":"));
        put_number(line, u32::from(self.core.number()));
        put_core_members(line, form, self);
        put(line, pick(form, "\n", "}"));
    }
}

/// Adds the row of a service.
#[tactic(auto, using(std::proofs::Common::append_assoc))]
fn put_service(line: &mut Line, form: Form, figures: &ServiceFigures)
    requires { array_vec_len line.old ≤ FRONT }
    ensures { line.new.items ≡ line.old.items ++ counted_row form figures.now }
{
    put(line, pick(form, "service ", "{\"service\":\""));
    put(line, row_of(figures.service).word);
    put(line, pick(form, "", "\""));
    put_refusals(line, form, &figures.refusals);
    put(line, pick(form, "\n", "}"));
}

/// JSON has each service, and lines have those that refused a call.
fn is_listed(form: Form, figures: &ServiceFigures) -> bool
    ensures { result ≡ is_listed form figures.now }
{
    match form {
        Form::Text => figures.refusals.are_some(),
        Form::Json => true,
    }
}

impl Figures for ServiceFigures {
    ghost text = { λ form _. service_row form };

    fn put_row(&self, line: &mut Line, form: Form, _table: &Table) {
        if is_listed(form, self) {
            put_service(line, form, self);
        }
    }
}
