//! The warnings that are found, kind by kind.
ghost use Rattle.std.specs.Prelude.{◌≡◌, ◌<◌, ◌++◌, [], length, IfOk};
ghost use Rattle.apex_warnings.specs.Warnings.{about_objects, about_processes, about_steps};
ghost use Rattle.apex_warnings.specs.Warnings.{cores_warned, init_warned, objects_warned};
ghost use Rattle.apex_warnings.specs.Warnings.{processes_warned, script_warned, steps_warned};
ghost use Rattle.apex_warnings.specs.Warnings.{warned, warnings};
ghost use Rattle.apex_warnings.specs.Cores.{core_is_unused, some_process_stays};

use crate::acts::Act;
use crate::objects::Group;
use crate::process_warnings::ProcessWarning;
use crate::step_warnings::StepWarning;
use crate::steps::TableSteps;
use crate::warnings::Warning;
use apex_types::{CoreId, Origin, ProcessId};
use std::alloc::{AllocError, Global};
use std::marker::Model;

/// The warnings that are found so far.
#[derive(Drop)]
pub struct Found {
    warnings: Vec<Warning>,
}

impl Model for Found {
    ghost use Rattle.std.specs.Prelude.{List};
    ghost use Rattle.apex_warnings.specs.Terms.{Warning};

    ghost Value = { List Warning };

    ghost view = { λ f. f.warnings.items };
}

/// A process stays on core 0, since no step of the init list binds it to another core.
fn some_process_stays(steps: &TableSteps) -> bool
    ensures { result ≡ some_process_stays steps.now }
{
    let cores = steps.table().cores();
    for place in 0..steps.table().process_count() {
        let process = ProcessId::at(place as u8);
        if !Act::BindAway(process, cores).is_among(steps.init()) {
            return true;
        }
    }
    false
}

fn core_is_unused(steps: &TableSteps, core: CoreId) -> bool
    ensures { result ≡ core_is_unused steps.now core }
{
    !Act::BindTo(core).is_among(steps.init()) && !(core.number() == 0 && some_process_stays(steps))
}

impl Found {
    /// No warning is found.
    pub fn new(alloc: Global) -> Found
        ensures { result ≡ [] }
    {
        Found {
            warnings: Vec::new(alloc),
        }
    }

    /// The warnings, in the order in which they were added.
    pub fn into_warnings(self) -> Vec<Warning>
        ensures { result.items ≡ self }
    {
        self.warnings
    }

    /// Adds the warning if it applies.
    fn add(&mut self, applies: bool, warning: Warning) -> Result<(), AllocError>
        ensures { IfOk result (λ _. self.new ≡ self.old ++ warned applies warning) }
    {
        if applies {
            // The push copies the warning, and a type within it is wanted by name here.
            if let Warning::Step(_, origin) = &warning {
                let _origin = origin;
            }
            self.warnings.push(warning)?;
        }
        Ok(())
    }

    /// Adds the warnings of this kind about processes.
    fn add_processes(
        &mut self,
        steps: &TableSteps,
        warning: ProcessWarning,
    ) -> Result<(), AllocError>
        ensures { IfOk result (λ _. self.new ≡ self.old ++ processes_warned steps.now warning) }
    {
        for place in 0..steps.table().process_count() {
            let process = ProcessId::at(place as u8);
            let applies = warning.is_about(steps, process);
            self.add(applies, Warning::Process(warning, process))?;
        }
        Ok(())
    }

    /// Adds the warnings of this kind about steps of the init list.
    fn add_init(&mut self, steps: &TableSteps, warning: StepWarning) -> Result<(), AllocError>
        ensures { IfOk result (λ _. self.new ≡ self.old ++ init_warned steps.now warning) }
    {
        let calls = steps.init();
        for (place, call) in calls.iter().enumerate() {
            let applies = warning.is_about_init(steps.table(), call.call());
            self.add(applies, Warning::Step(warning, Origin::Init(place as u16)))?;
        }
        Ok(())
    }

    /// Adds the warnings of this kind about steps of the process's script.
    fn add_script(
        &mut self,
        steps: &TableSteps,
        warning: StepWarning,
        process: ProcessId,
    ) -> Result<(), AllocError>
        requires { process < length steps.now.processes }
        ensures { IfOk result (λ _. self.new ≡ self.old
            ++ script_warned steps.now warning process) }
    {
        let calls = steps.script(process);
        for (place, call) in calls.iter().enumerate() {
            let applies = warning.is_about(steps, process, place, call.call());
            self.add(
                applies,
                Warning::Step(warning, Origin::Script(process, place as u8)),
            )?;
        }
        Ok(())
    }

    /// Adds the warnings of this kind about steps of the init list, and of the scripts in order.
    fn add_steps(&mut self, steps: &TableSteps, warning: StepWarning) -> Result<(), AllocError>
        ensures { IfOk result (λ _. self.new ≡ self.old ++ steps_warned steps.now warning) }
    {
        self.add_init(steps, warning)?;
        for place in 0..steps.table().process_count() {
            self.add_script(steps, warning, ProcessId::at(place as u8))?;
        }
        Ok(())
    }

    /// Adds a warning for each unused object of the group.
    fn add_objects(&mut self, steps: &TableSteps, group: Group) -> Result<(), AllocError>
        ensures { IfOk result (λ _. self.new ≡ self.old ++ objects_warned steps.now group) }
    {
        for place in 0..group.count(steps.table()) {
            let place = place as u8;
            let applies = !steps.have(&Act::Use(group.queue(place)));
            self.add(applies, Warning::UnusedObject(group, place))?;
        }
        Ok(())
    }

    /// Adds a warning for each unused core.
    fn add_cores(&mut self, steps: &TableSteps) -> Result<(), AllocError>
        ensures { IfOk result (λ _. self.new ≡ self.old ++ cores_warned steps.now) }
    {
        for number in 0..steps.table().cores() {
            let core = CoreId::new(number);
            let applies = core_is_unused(steps, core);
            self.add(applies, Warning::UnusedCore(core))?;
        }
        Ok(())
    }

    /// Adds the warnings of all kinds about processes.
    #[tactic(auto, using(std::proofs::Common::append_assoc))]
    fn add_all_of_processes(&mut self, steps: &TableSteps) -> Result<(), AllocError>
        ensures { IfOk result (λ _. self.new ≡ self.old ++ about_processes steps.now) }
    {
        self.add_processes(steps, ProcessWarning::EmptyScript)?;
        self.add_processes(steps, ProcessWarning::NotStarted)?;
        self.add_processes(steps, ProcessWarning::CapacityAbovePeriod)?;
        self.add_processes(steps, ProcessWarning::NoPeriodicWait)?;
        self.add_processes(steps, ProcessWarning::MuchWork)?;
        Ok(())
    }

    /// Adds the warnings of all kinds about steps.
    #[tactic(auto, using(std::proofs::Common::append_assoc))]
    fn add_all_of_steps(&mut self, steps: &TableSteps) -> Result<(), AllocError>
        ensures { IfOk result (λ _. self.new ≡ self.old ++ about_steps steps.now) }
    {
        self.add_steps(steps, StepWarning::MessageRefused)?;
        self.add_steps(steps, StepWarning::AperiodicWait)?;
        self.add_steps(steps, StepWarning::SuspendsPeriodic)?;
        self.add_steps(steps, StepWarning::LowCeiling)?;
        self.add_steps(steps, StepWarning::NotReleased)?;
        self.add_steps(steps, StepWarning::WaitsAsOwner)?;
        self.add_steps(steps, StepWarning::NeverAnswered)?;
        Ok(())
    }

    /// Adds the warnings of all kinds about objects.
    #[tactic(auto, using(std::proofs::Common::append_assoc))]
    fn add_all_of_objects(&mut self, steps: &TableSteps) -> Result<(), AllocError>
        ensures { IfOk result (λ _. self.new ≡ self.old ++ about_objects steps.now) }
    {
        self.add_objects(steps, Group::Semaphores)?;
        self.add_objects(steps, Group::Buffers)?;
        self.add_objects(steps, Group::Blackboards)?;
        self.add_objects(steps, Group::EventFlags)?;
        self.add_objects(steps, Group::Mutexes)?;
        Ok(())
    }

    /// Adds the warnings of all kinds, in their order.
    #[tactic(auto, using(std::proofs::Common::append_assoc))]
    pub fn add_all(&mut self, steps: &TableSteps) -> Result<(), AllocError>
        ensures { IfOk result (λ _. self.new ≡ self.old ++ warnings steps.now) }
    {
        self.add_all_of_processes(steps)?;
        self.add_all_of_steps(steps)?;
        self.add_all_of_objects(steps)?;
        self.add_cores(steps)?;
        Ok(())
    }
}
