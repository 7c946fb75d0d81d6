//! The section of processes.
ghost use Rattle.std.specs.Prelude.{◌≡◌, ◌≤◌, map, length, IfOk};
ghost use Rattle.apex_types.specs.declared.limits.TheConstants.{MOST_CORES, MOST_INIT_STEPS, MOST_STEPS};
ghost use Rattle.toml.specs.View.{view, table_view};
ghost use Rattle.apex_words.specs.Outcome.{Gives};
ghost use Rattle.apex_table.specs.Sections.{head_of};
ghost use Rattle.apex_table.specs.Processes.{some_process, texts, some_step, script_at, processes};

use crate::keys;
use crate::named::HasName;
use crate::sections::{EntryKind, SectionHead};
use apex_machine::{Attributes, Profile};
use apex_types::{CoreId, MOST_PRIORITY, MOST_STEPS, Name};
use apex_words::{Key, Place, Section, Subject, TableFault};
use std::alloc::Global;
use std::marker::Model;
use toml::{Table, Value};

/// A process whose script is still text.
#[derive(Drop)]
pub struct Draft<'a> {
    /// The name, which no other process has.
    pub name: Name,
    /// The priority, the period, the capacity and the type of deadline.
    pub attributes: Attributes,
    /// The core that the default init list gives it.
    pub core: CoreId,
    /// Whether the script begins anew after its last step.
    pub loops: bool,
    /// Whether the default init list starts it.
    pub starts: bool,
    /// The texts of its steps, 64 at the most.
    pub script: Vec<&'a str>,
}

impl<'a> Model for Draft<'a> {
    ghost use Rattle.std.specs.Prelude.{◌≤◌, map, length};
    ghost use Rattle.apex_types.specs.declared.limits.TheConstants.{MOST_STEPS};
    ghost use Rattle.apex_table.specs.Sections.{head_of};
    ghost use Rattle.apex_table.specs.Processes.{ProcessDraft};

    ghost Value = { ProcessDraft };

    ghost view = { λ d. record {
      name = d.name;
      attributes = d.attributes;
      core = d.core;
      loops = d.loops;
      start = d.starts;
      script = map (λ t. t.now) d.script.items;
    } };

    ghost invariant = { λ d. length d.script.items ≤ MOST_STEPS };
}

impl<'a> HasName for Draft<'a> {
    ghost name_of = { λ d. d.name };

    fn name(&self) -> &Name {
        &self.name
    }
}

fn texts<'a>(alloc: Global, at: Place, items: &'a [Value]) -> Result<Vec<&'a str>, TableFault>
    ensures gives { Gives (λ v. map (λ t. t.now) v.items) result (texts at (map view items.now)) }
    ensures count { IfOk result (λ v. length v.items ≡ length items.now) }
{
    let mut texts = Vec::new(alloc);
    for item in items {
        texts.push(keys::text(at.step(texts.len()), item)?)?;
    }
    Ok(texts)
}

/// Refuses a script without a step that is to begin anew.
fn some_step(subject: Subject, loops: bool, items: &[Value]) -> Result<(), TableFault>
    ensures { Gives (λ _. map view items.now) result
        (some_step subject loops (map view items.now)) }
{
    if loops && items.is_empty() {
        return Err(TableFault::OutOfRange(subject));
    }
    Ok(())
}

#[tactic(auto, unfolding(crate::specs::Processes::script_at))]
fn script_at<'a>(
    alloc: Global,
    at: Place,
    loops: bool,
    table: &'a Table,
) -> Result<Vec<&'a str>, TableFault>
    ensures gives { Gives (λ v. map (λ t. t.now) v.items) result
        (script_at at loops (table_view table.now)) }
    ensures few_steps { IfOk result (λ v. length v.items ≤ MOST_STEPS) }
{
    let items = keys::array_at(at, table, Key::Script)?;
    keys::at_most(at.key(Key::Script), MOST_STEPS, items)?;
    some_step(at.key(Key::Script), loops, items)?;
    texts(alloc, at, items)
}

const PROCESS_KEYS: &[Key] = &[
    Key::Name,
    Key::Priority,
    Key::Core,
    Key::Period,
    Key::Capacity,
    Key::Deadline,
    Key::Loop,
    Key::Start,
    Key::Script,
];

/// The kind of processes, in a profile and on `cores` cores.
#[derive(Drop)]
pub struct Processes {
    /// The profile, which limits the number of processes.
    pub profile: Profile,
    /// The number of cores, 1 to 8.
    pub cores: u32,
    ghost in_range: { (1 ≤ cores) × (cores ≤ MOST_CORES) },
}

impl<'a> EntryKind<'a> for Processes {
    type Entry = Draft<'a>;

    ghost head = { λ k. (processes k.profile k.cores).head };

    ghost read = { λ k. (processes k.profile k.cores).read };

    fn head(&self) -> SectionHead<'static>
        ensures head { head_of result ≡ (processes self.now.profile self.now.cores).head }
        ensures few_entries { result.most ≤ MOST_INIT_STEPS }
    {
        SectionHead {
            section: Section::Process,
            most: self.profile.processes(),
            keys: PROCESS_KEYS,
        }
    }

    #[tactic(auto, unfolding(crate::specs::Processes::process))]
    fn entry(
        &self,
        alloc: Global,
        at: Place,
        name: Name,
        table: &'a Table,
    ) -> Result<Draft<'a>, TableFault> {
        let priority = keys::number_at(at, 1, MOST_PRIORITY, table, Key::Priority)?;
        let core = keys::number_or(at, 0, 0, self.cores - 1, table, Key::Core)?;
        let period = keys::span_or_infinite(at, table, Key::Period)?;
        let capacity = keys::span_or_infinite(at, table, Key::Capacity)?;
        let deadline = keys::deadline_or_soft(at, table)?;
        let loops = keys::truth_or(at, false, table, Key::Loop)?;
        let starts = keys::truth_or(at, false, table, Key::Start)?;
        let script = script_at(alloc, at, loops, table)?;
        Ok(Draft {
            name,
            attributes: Attributes {
                priority: priority as u8,
                period,
                capacity,
                deadline,
            },
            core: CoreId::new(core as u8),
            loops,
            starts,
            script,
        })
    }
}

/// Refuses a table without a process.
pub fn some_process(drafts: &[Draft]) -> Result<(), TableFault>
    ensures { Gives (λ _. drafts.now) result (some_process drafts.now) }
{
    if drafts.is_empty() {
        return Err(TableFault::MissingKey(Place::of(Section::Process).whole()));
    }
    Ok(())
}
