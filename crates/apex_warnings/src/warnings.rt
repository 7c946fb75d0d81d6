//! The warnings of a table.
ghost use Rattle.std.specs.Prelude.{◌≡◌, IfOk};
ghost use Rattle.apex_warnings.specs.Warnings.{warnings};

use crate::found::Found;
use crate::objects::Group;
use crate::process_warnings::ProcessWarning;
use crate::step_warnings::StepWarning;
use crate::steps::TableSteps;
use apex_configs::Table;
use apex_types::{CoreId, Origin, ProcessId};
use std::alloc::{AllocError, Global};
use std::mem::drop;

/// A warning about a table: what it can hardly mean, and where (this profile). Its text has the
/// place and the reason; processes, steps and objects are counted from 1 there.
#[derive(Clone, Copy)]
pub enum Warning {
    /// What the table can hardly mean of this process.
    Process(ProcessWarning, ProcessId),
    /// What the step at this place of its list can hardly mean.
    Step(StepWarning, Origin),
    /// No step names the object of this kind at this place, counted from 0, except to create it.
    UnusedObject(Group, u8),
    /// The init list binds no process to the core.
    UnusedCore(CoreId),
}

/// The warnings of the table; none says that the table is wrong. First come those about processes
/// and about steps, each in the order of the variants and then of the table, where the init list
/// comes before the scripts; then those about objects, kind by kind, and about cores. Fails only
/// for want of memory.
pub fn lint(alloc: Global, table: &Table) -> Result<Vec<Warning>, AllocError>
    ensures { IfOk result (λ v. v.items ≡ warnings table.now) }
{
    let steps = TableSteps::of(alloc, table)?;
    let mut found = Found::new(alloc);
    let added = found.add_all(&steps);
    drop(steps);
    added?;
    Ok(found.into_warnings())
}
