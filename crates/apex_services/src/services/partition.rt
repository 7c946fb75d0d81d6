//! The services of partition management.

ghost use Rattle.std.specs.Prelude.{◌≡◌, ◌<◌, ◌≤◌, true, false, [], ◌++◌, length, IfSome};
ghost use Rattle.apex_types.specs.declared.limits.TheConstants.{MOST_NOTICES};
ghost use Rattle.apex_machine.specs.processes.Dues.{HasTime};
ghost use Rattle.apex_machine.specs.services.InTurn.{Makes};
ghost use Rattle.apex_machine.specs.services.PartitionServices as services;
ghost use Rattle.apex_types.specs.Modes.{is_normal};
ghost use Rattle.apex_machine.specs.processes.Roster.{record_at};
ghost use Rattle.apex_machine.specs.services.Rows.{Leaves};
ghost use Rattle.apex_machine.specs.services.Premises.{CanServe};
ghost use Rattle.apex_machine.specs.processes.Stamps.{HasOrderlyStarts, HasStamps, may_wait};

use crate::objects::Objects;
use apex_machine::{Queue, Wait};
use apex_store::Store;
use apex_types::{
    Mode, Notice, Notices, PartitionCall, ProcessId, Reply, RequestedMode, ReturnCode,
};

/// The delay in ticks of a start that waits for NORMAL.
fn delay_of(wait: Option<Wait>) -> u32
    ensures { result ≡ services.delay_of wait }
{
    match wait {
        Some(Wait::Normal(delay)) => delay,
        _ => 0,
    }
}

/// The start of a process that waited for NORMAL begins: a release if its delay is 0, else a wait
/// for its start.
#[tactic(auto, using(apex_machine::proofs::Dues::from_now))]
fn begin_waiter<S: Store>(store: &mut S, process: ProcessId, notices: &mut Notices)
    requires known { process < length (S.roster store.old).records }
    requires free { may_wait (record_at (S.roster store.old) process) ≡ true }
    requires stamps { HasStamps (S.roster store.old) }
    requires time { HasTime (S.roster store.old) }
    requires room { length notices.old < MOST_NOTICES }
    ensures { Makes (services.begin_waiter (S.roster store.old) process)
        (S.roster store.new) notices.old notices.new }
{
    let delay = delay_of(store.record(process).wait);
    if delay == 0 {
        store.release(process);
        notices.push(Notice::Released(process));
    } else {
        let due = store.now() + u64::from(delay);
        store.block(process, Wait::Start, Some(due));
    }
}

/// The process that has waited for NORMAL for the longest time.
fn first_to_start<S: Store>(store: &S) -> Option<ProcessId>
    ensures value { result ≡ services.first_to_start (S.roster store.now) }
    ensures known { IfSome result (λ p. p < length (S.roster store.now).records) }
{
    store.first(Queue::Normal)
}

/// The entry into NORMAL: begins the starts that wait for it, the longest wait first.
#[tactic(auto, unfolding(apex_machine::specs::services::PartitionServices::enter_normal))]
fn enter_normal<S: Store>(store: &mut S, notices: &mut Notices)
    requires early { is_normal (S.roster store.old).mode ≡ false }
    requires starts { HasOrderlyStarts (S.roster store.old) }
    requires can { CanServe (S.roster store.old) notices.old }
    ensures { Makes (services.enter_normal (S.roster store.old))
        (S.roster store.new) notices.old notices.new }
{
    store.set_mode(Mode::Normal);
    for round in 0..store.process_count() {
        match first_to_start(store) {
            Some(process) => begin_waiter(store, process, notices),
            None => return,
        }
    }
}

/// IDLE: stops every process for good, without a notice.
fn enter_idle<S: Store>(store: &mut S)
    ensures { S.roster store.new ≡ services.enter_idle (S.roster store.old) }
{
    store.set_mode(Mode::Idle);
    for place in 0..store.process_count() {
        store.stop(ProcessId::at(place as u8));
    }
}

/// SET_PARTITION_MODE: NO_ACTION if NORMAL is asked for in NORMAL.
fn set_partition_mode<S: Store>(
    store: &mut S,
    objects: &Objects,
    requested: RequestedMode,
    notices: &mut Notices,
) -> Reply
    requires starts { HasOrderlyStarts (S.roster store.old) }
    requires can { CanServe (S.roster store.old) notices.old }
    ensures { Leaves (services.set_partition_mode (S.roster store.old) objects.now requested)
        (S.roster store.new) objects.now result notices.old notices.new }
{
    match requested {
        RequestedMode::Idle => {
            enter_idle(store);
            Reply::Gone
        }
        RequestedMode::Normal => {
            if store.mode().is_normal() {
                return Reply::Code(ReturnCode::NoAction);
            }
            enter_normal(store, notices);
            Reply::Code(ReturnCode::NoError)
        }
    }
}

/// The number of a mode (ARINC 653 Part 1).
fn mode_number(mode: Mode) -> u32
    ensures { result ≡ services.mode_number mode }
{
    match mode {
        Mode::Idle => 0,
        Mode::ColdStart => 1,
        Mode::Normal => 3,
    }
}

/// Carries out a call of a service of partition management.
pub(crate) fn serve<S: Store>(
    store: &mut S,
    objects: &Objects,
    call: &PartitionCall,
    notices: &mut Notices,
) -> Reply
    requires starts { HasOrderlyStarts (S.roster store.old) }
    requires can { CanServe (S.roster store.old) notices.old }
    ensures { Leaves (services.partition_service (S.roster store.old) objects.now call.now)
        (S.roster store.new) objects.now result notices.old notices.new }
{
    match call {
        PartitionCall::SetPartitionMode(requested) => {
            set_partition_mode(store, objects, *requested, notices)
        }
        PartitionCall::GetPartitionStatus => {
            Reply::Status(mode_number(store.mode()), u32::from(store.cores()))
        }
    }
}
