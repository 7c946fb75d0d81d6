//! A situation that is known, in the memory of another one of its table.
ghost use Rattle.std.specs.Prelude.{◌≡◌, ℕ};
ghost use Rattle.apex_types.specs.declared.limits.TheConstants.{MOST_CORES};
ghost use Rattle.apex_choices.specs.Counts.{IsSamePaced, count_at, paced_in};
ghost use Rattle.apex_dispatch.specs.Works.{work_at};
ghost use Rattle.apex_recall.specs.Copied.{AreOfKinds, AreSameBuffers, works_before};
ghost use Rattle.apex_recall.specs.Restored.{IsOfTable, IsStored, paced_from};

use crate::restored::first_stamp;
use crate::values::mode_in;
use apex_buffer::Buffer;
use apex_choices::{Counts, PacedSituation};
use apex_configs::Table;
use apex_dispatch::{Situation, Works};
use apex_services::Objects;
use apex_store::{Object, Store};
use apex_types::{CoreId, MOST_CORE_PLACES, MOST_CORES, MOST_MESSAGES, Message};
use arrayvec::ArrayVec;

/// The messages of the buffer.
fn messages_of(buffer: &Buffer) -> ArrayVec<Message, MOST_MESSAGES>
    ensures { result.items ≡ buffer.now.messages }
{
    let mut messages = ArrayVec::new();
    let done = messages.try_extend_from_slice(buffer.messages());
    let fits = done.is_ok();
    prove!(fits);
    messages
}

/// The buffers are as these others from now on.
fn copy_buffers(buffers: &mut [Buffer], others: &[Buffer])
    requires { AreSameBuffers buffers.old others.now }
    ensures { buffers.new ≡ others.now }
{
    for place in 0..buffers.len() {
        let other = &others[place];
        buffers[place].restore(other.is_created(), messages_of(other));
    }
}

/// The objects are as these others from now on.
fn copy_objects(objects: &mut Objects, others: &Objects)
    requires { AreOfKinds objects.old others.now }
    ensures { objects.new ≡ others.now }
{
    objects
        .processes
        .as_mut_slice()
        .copy_from_slice(others.processes.as_slice());
    objects
        .semaphores
        .as_mut_slice()
        .copy_from_slice(others.semaphores.as_slice());
    copy_buffers(objects.buffers.as_mut_slice(), others.buffers.as_slice());
    objects
        .blackboards
        .as_mut_slice()
        .copy_from_slice(others.blackboards.as_slice());
    objects
        .event_flags
        .as_mut_slice()
        .copy_from_slice(others.event_flags.as_slice());
    objects
        .mutexes
        .as_mut_slice()
        .copy_from_slice(others.mutexes.as_slice());
}

/// The work of each core, as it is in this situation.
fn works_of(paced: &PacedSituation) -> Works
    ensures { (core : ℕ) → work_at result core
        ≡ works_before MOST_CORES (paced_in paced.now).situation.works core }
{
    let mut of_core = [None; MOST_CORE_PLACES];
    for number in 0..MOST_CORES as u8 {
        of_core[usize::from(number)] = paced.work(CoreId::new(number));
    }
    Works::of(of_core)
}

/// What the pace counts of each core, as it is here.
fn counts_of(paced: &PacedSituation) -> Counts
    ensures turns { (core : ℕ) → count_at result.turns core ≡ (paced_in paced.now).turns core }
    ensures worked { (core : ℕ) → count_at result.worked core ≡ (paced_in paced.now).worked core }
{
    paced.counts.cover_all();
    let mut counts = Counts::new();
    for number in 0..MOST_CORES as u8 {
        let core = CoreId::new(number);
        counts.set(core, paced.counts.turns(core), paced.counts.worked(core));
    }
    counts
}

/// The situation of these words and what the pace counts there, in the memory of this one;
/// `known` is that situation.
pub fn restore_known(
    paced: PacedSituation,
    table: &Table,
    known: &PacedSituation,
    words: &[u64],
) -> PacedSituation
    requires table { IsOfTable table.now (paced_in paced).situation }
    requires words { IsStored table.now words.now }
    requires known { IsSamePaced (paced_in known.now) (paced_from table.now words.now) }
    ensures { IsSamePaced (paced_in result) (paced_from table.now words.now) }
{
    table.lawful();
    let PacedSituation { situation, .. } = paced;
    let (mut store, mut objects, _, _) = situation.into_parts();
    let young = first_stamp(store.process_count());
    store.put_all(known.situation.store());
    store.set_clock(mode_in(words[0]), words[1], young, 0);
    copy_objects(&mut objects, known.situation.objects());
    PacedSituation {
        situation: Situation::new(store, objects, works_of(known), words[2] as usize),
        counts: counts_of(known),
    }
}
