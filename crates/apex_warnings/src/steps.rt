//! A table with the calls of its steps.
ghost use Rattle.std.specs.Prelude.{◌≡◌, ◌<◌, ◌≤◌, ◌++◌, length, option_to_list, IfOk};
ghost use Rattle.std.specs.List.{list_any};
ghost use Rattle.apex_types.specs.declared.limits.TheConstants.{MOST_INIT_STEPS, MOST_STEPS};
ghost use Rattle.apex_warnings.specs.Acts.{does};
ghost use Rattle.apex_warnings.specs.Calls.{any_step, any_step_outside, calls_of, init_calls, script, scripts};

use crate::acts::Act;
use apex_configs::{ProcessConfig, Table};
use apex_types::{Call, MOST_INIT_STEPS, ProcessId};
use std::alloc::{AllocError, Global};
use std::marker::Model;

/// The call of a step.
#[derive(Drop)]
pub struct StepCall {
    pub(crate) call: Call,
}

impl Model for StepCall {
    ghost use Rattle.apex_warnings.specs.Terms.{Call};

    ghost Value = { Call };

    ghost view = { λ s. s.call };
}

impl StepCall {
    /// The call as the table gives it.
    pub fn call(&self) -> Call
        ensures { result ≡ self.now }
    {
        self.call
    }
}

/// The calls of a script, in order.
#[derive(Drop)]
struct Script {
    calls: Vec<StepCall>,
}

impl Model for Script {
    ghost use Rattle.std.specs.Prelude.{List};
    ghost use Rattle.apex_warnings.specs.Terms.{Call};

    ghost Value = { List Call };

    ghost view = { λ s. s.calls.items };
}

/// Adds the call, if there is one.
fn push_call(calls: &mut Vec<StepCall>, call: Option<Call>) -> Result<(), AllocError>
    ensures { IfOk result (λ _. calls.new.items ≡ calls.old.items ++ option_to_list call) }
{
    if let Some(call) = call {
        calls.push(StepCall { call })?;
    }
    Ok(())
}

impl Script {
    fn of(alloc: Global, process: &ProcessConfig) -> Result<Script, AllocError>
        ensures { IfOk result (λ s. s ≡ calls_of process.now.script) }
    {
        let mut calls = Vec::new(alloc);
        for place in 0..process.step_count() {
            push_call(&mut calls, process.call(place))?;
        }
        Ok(Script { calls })
    }

    fn has(&self, act: &Act) -> bool
        ensures { result ≡ list_any (does act.now) self.now }
    {
        act.is_among(&self.calls)
    }
}

/// One of the scripts has a step that is such an act.
fn one_has(scripts: &[Script], act: &Act) -> bool
    ensures { result ≡ list_any (list_any (does act.now)) scripts.now }
{
    scripts.iter().any(|script| script.has(act))
}

/// A table with the calls of its steps.
#[derive(Drop)]
pub struct TableSteps<'a> {
    table: &'a Table,
    init: Vec<StepCall>,
    by_process: Vec<Script>,
}

impl<'a> Model for TableSteps<'a> {
    ghost use Rattle.std.specs.Prelude.{◌≡◌};
    ghost use Rattle.apex_machine.specs.table.Table.{Table};
    ghost use Rattle.apex_warnings.specs.Calls.{init_calls, scripts};

    ghost Value = { Table };

    ghost view = { λ s. s.table.now };

    ghost invariant = { λ s. (s.init.items ≡ init_calls s.table.now)
        × (s.by_process.items ≡ scripts s.table.now) };
}

/// The calls of the table's init list.
fn init_of(alloc: Global, table: &Table) -> Result<Vec<StepCall>, AllocError>
    ensures { IfOk result (λ calls. calls.items ≡ init_calls table.now) }
{
    table.lawful();
    let mut calls = Vec::new(alloc);
    for place in 0..MOST_INIT_STEPS {
        push_call(&mut calls, table.init_call(place))?;
    }
    Ok(calls)
}

/// The calls of the table's scripts.
fn scripts_of(alloc: Global, table: &Table) -> Result<Vec<Script>, AllocError>
    ensures { IfOk result (λ s. s.items ≡ scripts table.now) }
{
    let mut scripts = Vec::new(alloc);
    for place in 0..table.process_count() {
        let process = table.process(ProcessId::at(place as u8));
        scripts.push(Script::of(alloc, process)?)?;
    }
    Ok(scripts)
}

impl<'a> TableSteps<'a> {
    /// The table with the calls of its steps, which are copied. Fails only for want of memory.
    pub fn of(alloc: Global, table: &'a Table) -> Result<TableSteps<'a>, AllocError>
        ensures { IfOk result (λ s. s ≡ table.now) }
    {
        let init = init_of(alloc, table)?;
        let by_process = scripts_of(alloc, table)?;
        Ok(TableSteps {
            table,
            init,
            by_process,
        })
    }

    /// The table whose steps these are.
    pub fn table(&self) -> &Table
        ensures { result.now ≡ self.now }
    {
        self.table
    }

    /// The calls of the init list.
    pub fn init(&self) -> &[StepCall]
        ensures value { result.now ≡ init_calls self.now }
        ensures range { length result.now ≤ MOST_INIT_STEPS }
    {
        self.table.lawful();
        &self.init
    }

    fn script_of(&self, process: ProcessId) -> &[StepCall]
        requires { process < length self.now.processes }
        ensures { result.now ≡ script self.now process }
    {
        &self.by_process[process.place()].calls
    }

    /// The calls of the process's script.
    pub fn script(&self, process: ProcessId) -> &[StepCall]
        requires { process < length self.now.processes }
        ensures value { result.now ≡ script self.now process }
        ensures range { length result.now ≤ MOST_STEPS }
    {
        self.table().lawful();
        self.script_of(process)
    }

    /// A step of the init list or of a script is such an act.
    pub fn have(&self, act: &Act) -> bool
        ensures { result ≡ any_step (does act.now) self.now }
    {
        act.is_among(&self.init) || one_has(&self.by_process, act)
    }

    /// A step of the init list, or of the script of another process, is such an act.
    pub fn have_outside(&self, process: ProcessId, act: &Act) -> bool
        requires { process < length self.now.processes }
        ensures { result ≡ any_step_outside process (does act.now) self.now }
    {
        let place = process.place();
        act.is_among(&self.init)
            || one_has(&self.by_process[..place], act)
            || one_has(&self.by_process[place + 1..], act)
    }
}
