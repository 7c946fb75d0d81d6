//! The rows of objects, each put together from its parts.
ghost use Rattle.std.specs.Prelude.{◌≡◌, ◌+◌, ◌≤◌, ◌++◌, length, option_map};
ghost use Rattle.arrayvec.specs.ArrayVec.{array_vec_len};
ghost use Rattle.apex_report.specs.Members.{members_in};
ghost use Rattle.apex_report.specs.Ownerships.{held_ticks};
ghost use Rattle.apex_report.specs.Rows.{content_in, held_by_in, holder_in, kind_name, longest_in};
ghost use Rattle.apex_report.specs.Rows.{object_head, object_row, ownership_in, queue_members};
ghost use Rattle.apex_report.specs.declared.lines.TheConstants.{LINE_ROOM};
ghost use Rattle.apex_report.specs.declared.members.TheConstants.{MOST_STRING};
ghost use Rattle.apex_report.specs.declared.rows.TheConstants.{FRONT};

use crate::lines::Line;
use crate::members::{Member, put_key, put_members, put_name};
use crate::objects::{Level, ObjectFigures};
use crate::ownerships::Ownership;
use crate::rows::Figures;
use apex_configs::Table;
use apex_json::{Form, pick};
use apex_machine::Queue;
use apex_names::{object_name, process_name};
use apex_texts::put;

/// The kind of an object.
fn kind_name(queue: &Queue) -> &'static str
    ensures text { result.now ≡ kind_name queue.now }
    ensures short { length result.now ≤ 10 }
{
    match queue {
        Queue::Normal => "",
        Queue::Semaphore(_) => "semaphore",
        Queue::Buffer(_) => "buffer",
        Queue::Blackboard(_) => "blackboard",
        Queue::EventFlag(_) => "event",
        Queue::Mutex(_) => "mutex",
    }
}

/// Adds the kind and the name of an object.
#[tactic(auto, using(std::proofs::Common::append_assoc))]
fn put_head(line: &mut Line, form: Form, table: &Table, object: &Queue)
    requires { array_vec_len line.old ≤ FRONT }
    ensures text { line.new.items ≡ line.old.items ++ object_head form table.now object.now }
    ensures short { array_vec_len line.new ≤ MOST_STRING + 40 }
{
    put(line, pick(form, "", "{\"kind\":\""));
    put(line, kind_name(object));
    put(line, pick(form, " ", "\",\"object\":"));
    put_name(line, form, object_name(table, object));
}

/// The count of a level.
fn count_of(level: &Option<Level>) -> Option<u64>
    ensures { result ≡ option_map (λ level. level.count) level.now }
{
    match level {
        Some(level) => Some(level.count),
        None => None,
    }
}

/// The number of the first entry with a level.
fn entry_of(level: &Option<Level>) -> Option<u64>
    ensures { result ≡ option_map (λ level. level.number) level.now }
{
    match level {
        Some(level) => Some(u64::from(level.number)),
        None => None,
    }
}

#[tactic(auto, unfolding(crate::specs::Members::members_in))]
fn put_content(line: &mut Line, form: Form, figures: &ObjectFigures)
    requires { array_vec_len line.old + 80 ≤ LINE_ROOM }
    ensures text { line.new.items
        ≡ line.old.items ++ content_in form figures.now.object figures.now }
    ensures short { array_vec_len line.new ≤ array_vec_len line.old + 80 }
{
    match figures.object {
        Queue::Semaphore(_) | Queue::Buffer(_) => put_members(
            line,
            form,
            &[
                Member("greatest", count_of(&figures.greatest)),
                Member("greatest_at", entry_of(&figures.greatest)),
            ],
        ),
        _ => (),
    }
}

#[tactic(auto, unfolding(crate::specs::Members::members_in))]
fn put_queue(line: &mut Line, form: Form, figures: &ObjectFigures)
    requires { array_vec_len line.old + 100 ≤ LINE_ROOM }
    ensures text { line.new.items ≡ line.old.items ++ members_in form (queue_members figures.now) }
    ensures short { array_vec_len line.new ≤ array_vec_len line.old + 100 }
{
    put_members(
        line,
        form,
        &[
            Member("queue", count_of(&figures.longest_queue)),
            Member("queue_at", entry_of(&figures.longest_queue)),
            Member("timeouts", Some(figures.timeouts)),
        ],
    );
}

/// The length of an ownership, in ticks.
fn held_of(ownership: &Option<Ownership>) -> Option<u64>
    ensures { result ≡ option_map held_ticks ownership.now }
{
    match ownership {
        Some(ownership) => Some(ownership.held_ticks()),
        None => None,
    }
}

/// The number of the entry that ended an ownership.
fn end_of(ownership: &Option<Ownership>) -> Option<u64>
    ensures { result ≡ option_map (λ ownership. ownership.number) ownership.now }
{
    match ownership {
        Some(ownership) => Some(u64::from(ownership.number)),
        None => None,
    }
}

/// Adds the process of an ownership.
#[tactic(auto, using(std::proofs::Common::append_assoc))]
fn put_holder(line: &mut Line, form: Form, table: &Table, ownership: &Option<Ownership>)
    requires { array_vec_len line.old + MOST_STRING ≤ LINE_ROOM }
    ensures text { line.new.items ≡ line.old.items ++ holder_in form table.now ownership.now }
    ensures short { array_vec_len line.new ≤ array_vec_len line.old + MOST_STRING }
{
    match ownership {
        Some(ownership) => put_name(line, form, process_name(table, ownership.process)),
        None => put(line, pick(form, "-", "null")),
    }
}

/// Adds the process of an ownership behind its key.
#[tactic(auto, using(std::proofs::Common::append_assoc))]
fn put_held_by(line: &mut Line, form: Form, table: &Table, ownership: &Option<Ownership>)
    requires { array_vec_len line.old + MOST_STRING + 20 ≤ LINE_ROOM }
    ensures text { line.new.items ≡ line.old.items ++ held_by_in form table.now ownership.now }
    ensures short { array_vec_len line.new ≤ array_vec_len line.old + MOST_STRING + 20 }
{
    put_key(line, form, "held_by");
    put_holder(line, form, table, ownership);
}

#[tactic(auto, using(std::proofs::Common::append_assoc), unfolding(crate::specs::Members::members_in))]
fn put_longest(line: &mut Line, form: Form, table: &Table, ownership: &Option<Ownership>)
    requires { array_vec_len line.old + MOST_STRING + 100 ≤ LINE_ROOM }
    ensures text { line.new.items ≡ line.old.items ++ longest_in form table.now ownership.now }
    ensures short { array_vec_len line.new ≤ array_vec_len line.old + MOST_STRING + 100 }
{
    let held = Member("held", held_of(ownership));
    let held_at = Member("held_at", end_of(ownership));
    match form {
        Form::Text => {
            put_members(line, form, &[held]);
            put_held_by(line, form, table, ownership);
            put_members(line, form, &[held_at]);
        }
        Form::Json => {
            put_members(line, form, &[held, held_at]);
            put_held_by(line, form, table, ownership);
        }
    }
}

fn put_ownership(line: &mut Line, form: Form, table: &Table, figures: &ObjectFigures)
    requires { array_vec_len line.old + MOST_STRING + 100 ≤ LINE_ROOM }
    ensures text { line.new.items
        ≡ line.old.items ++ ownership_in form table.now figures.now.object figures.now }
    ensures short { array_vec_len line.new ≤ array_vec_len line.old + MOST_STRING + 100 }
{
    match figures.object {
        Queue::Mutex(_) => put_longest(line, form, table, &figures.longest_ownership),
        _ => (),
    }
}

impl Figures for ObjectFigures {
    ghost text = { object_row };

    #[tactic(auto, using(std::proofs::Common::append_assoc))]
    fn put_row(&self, line: &mut Line, form: Form, table: &Table) {
        put_head(line, form, table, &self.object);
        put_content(line, form, self);
        put_queue(line, form, self);
        put_ownership(line, form, table, self);
        put(line, pick(form, "\n", "}"));
    }
}
