//! The scripts of a table's processes.
ghost use Rattle.std.specs.Prelude.{◌≡◌, ◌<◌, ◌≤◌, map, length, IfOk};
ghost use Rattle.apex_types.specs.declared.limits.TheConstants.{MOST_PROCESSES, MOST_STEPS};
ghost use Rattle.apex_words.specs.Outcome.{Gives};
ghost use Rattle.apex_table.specs.Scripts.{script, next_entry, with_scripts};

use crate::names::Names;
use crate::processes::Draft;
use crate::steps::step;
use apex_configs::ProcessConfig;
use apex_machine::Step;
use apex_types::{Origin, ProcessId};
use apex_words::{Place, Section, TableFault};
use std::alloc::Global;

fn script(
    alloc: Global,
    at: Place,
    process: ProcessId,
    names: &Names,
    texts: &[&str],
) -> Result<Vec<Step>, TableFault>
    requires texts { length texts.now ≤ MOST_STEPS }
    ensures { Gives (λ v. v.items) result
        (script at process names.now (map (λ t. t.now) texts.now)) }
{
    let mut steps = Vec::new(alloc);
    for text in texts {
        let origin = Origin::Script(process, steps.len() as u8);
        steps.push(step(alloc, at, origin, names, text)?)?;
    }
    Ok(steps)
}

#[tactic(auto, unfolding(crate::specs::Scripts::next_entry))]
fn next_entry(
    alloc: Global,
    names: &Names,
    before: &[ProcessConfig],
    draft: &Draft,
) -> Result<ProcessConfig, TableFault>
    requires few_processes { length before.now < MOST_PROCESSES }
    ensures { Gives (λ p. p) result (next_entry names.now before.now draft.now) }
{
    let at = Place::next(Section::Process, before.len());
    let process = ProcessId::at(before.len() as u8);
    let script = script(alloc, at, process, names, &draft.script)?;
    Ok(ProcessConfig::new(
        draft.name,
        draft.attributes,
        draft.core,
        draft.loops,
        draft.starts,
        script,
    ))
}

/// The processes, now with the steps of their scripts.
pub fn with_scripts(
    alloc: Global,
    names: &Names,
    drafts: &[Draft],
) -> Result<Vec<ProcessConfig>, TableFault>
    requires { length drafts.now ≤ MOST_PROCESSES }
    ensures gives { Gives (λ v. v.items) result (with_scripts names.now drafts.now) }
    ensures count { IfOk result (λ v. length v.items ≡ length drafts.now) }
{
    let mut processes = Vec::new(alloc);
    for draft in drafts {
        processes.push(next_entry(alloc, names, &processes, draft)?)?;
    }
    Ok(processes)
}
