//! The init list of a table that has none.
ghost use Rattle.std.specs.Prelude.{◌≡◌, ◌<◌, ◌≤◌, ◌++◌, length, IfOk};
ghost use Rattle.apex_types.specs.declared.limits.TheConstants.{MOST_OBJECTS, MOST_PROCESSES};
ghost use Rattle.apex_types.specs.Places.{map_places};
ghost use Rattle.apex_table.specs.DefaultInit.{create, creates, creates_objects, default_init};

use apex_calls::Kind;
use apex_configs::{Objects, ProcessConfig};
use apex_machine::Step;
use apex_types::{
    Call, Id, Named, ObjectCall, PartitionCall, ProcessId, ProcessService, RequestedMode,
};
use std::alloc::{AllocError, Global};

/// The CREATE of the thing of this kind at this place.
fn create(kind: Kind, place: usize) -> Call
    requires { place < 256 }
    ensures { result ≡ create kind place }
{
    let place = place as u8;
    match kind {
        Kind::Process => Call::Process(ObjectCall::Create(Named::Known(Id::at(place)))),
        Kind::Semaphore => Call::Semaphore(ObjectCall::Create(Named::Known(Id::at(place)))),
        Kind::Buffer => Call::Buffer(ObjectCall::Create(Named::Known(Id::at(place)))),
        Kind::Blackboard => Call::Blackboard(ObjectCall::Create(Named::Known(Id::at(place)))),
        Kind::EventFlag => Call::EventFlag(ObjectCall::Create(Named::Known(Id::at(place)))),
        Kind::Mutex => Call::Mutex(ObjectCall::Create(Named::Known(Id::at(place)))),
    }
}

/// Adds the CREATE of each of these objects, which are of the kind.
fn create_each<E>(init: &mut Vec<Step>, kind: Kind, objects: &[E]) -> Result<(), AllocError>
    requires { length objects.now ≤ MOST_OBJECTS }
    ensures { IfOk result (λ _. init.new.items ≡ init.old.items
        ++ map_places (creates kind) 0 objects.now) }
{
    for (place, _) in objects.iter().enumerate() {
        init.push(Step::of(create(kind, place)))?;
    }
    Ok(())
}

/// The CREATE of each object, kind by kind.
#[tactic(auto, unfolding(crate::specs::DefaultInit::creates_objects))]
fn create_objects(alloc: Global, objects: &Objects) -> Result<Vec<Step>, AllocError>
    ensures { IfOk result (λ init. init.items ≡ creates_objects objects.now) }
{
    let mut init = Vec::new(alloc);
    create_each(&mut init, Kind::Semaphore, &objects.semaphores)?;
    create_each(&mut init, Kind::Buffer, &objects.buffers)?;
    create_each(&mut init, Kind::Blackboard, &objects.blackboards)?;
    create_each(&mut init, Kind::EventFlag, &objects.event_flags)?;
    create_each(&mut init, Kind::Mutex, &objects.mutexes)?;
    Ok(init)
}

/// The init list of a table that gives none: it creates everything, starts the processes that are
/// to start, and enters NORMAL.
pub fn default_init(
    alloc: Global,
    processes: &[ProcessConfig],
    objects: &Objects,
) -> Result<Vec<Step>, AllocError>
    requires { length processes.now ≤ MOST_PROCESSES }
    ensures { IfOk result (λ init. init.items ≡ default_init processes.now objects.now) }
{
    let mut init = create_objects(alloc, objects)?;
    for (place, process) in processes.iter().enumerate() {
        let id = ProcessId::at(place as u8);
        let affinity = ProcessService::InitializeCoreAffinity(process.core().number());
        init.push(Step::of(create(Kind::Process, place)))?;
        init.push(Step::of(Call::Process(ObjectCall::KindService(id, affinity))))?;
    }
    for (place, process) in processes.iter().enumerate() {
        if process.starts() {
            let id = ProcessId::at(place as u8);
            init.push(Step::of(Call::Process(ObjectCall::KindService(id, ProcessService::Start))))?;
        }
    }
    init.push(Step::of(Call::Partition(PartitionCall::SetPartitionMode(RequestedMode::Normal))))?;
    Ok(init)
}
