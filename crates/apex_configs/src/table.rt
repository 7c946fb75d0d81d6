//! A partition's table.
ghost use Rattle.std.specs.Prelude.{◌≡◌, ◌<◌, ◌≤◌, length, option_map, slice_get};
ghost use Rattle.apex_types.specs.declared.limits.TheConstants.{MOST_CORES, MOST_ENTRIES, MOST_LITERAL, MOST_OBJECTS, MOST_PROCESSES};
ghost use Rattle.apex_machine.specs.table.Table.{IsLawful, process_config, semaphore_config, buffer_config, blackboard_config, event_flag_config, mutex_config, call_in, literal_text};
ghost use Rattle.apex_configs.specs.Tables.{table_with};
ghost use Rattle.apex_configs.specs.Texts.{step_text, IsWithTexts};

use crate::configs::{
    BlackboardConfig, BufferConfig, EventFlagConfig, MutexConfig, ProcessConfig, SemaphoreConfig,
};
use crate::listed::{call_in, literal_in};
use crate::objects::Objects;
use crate::script_texts::ScriptTexts;
use apex_machine::{Profile, Step};
use apex_types::{BlackboardId, BufferId, Call, EventId, MutexId, Origin, ProcessId, SemaphoreId};
use std::marker::Model;

/// A partition's table. Its type ensures that every range and every reference in it is right.
pub struct Table {
    profile: Profile,
    cores: u8,
    limit: u32,
    processes: Vec<ProcessConfig>,
    objects: Objects,
    init: Vec<Step>,
    /// The texts of the steps of all scripts, by process.
    texts: Vec<ScriptTexts>,
}

// Whoever owns a table lets it go in one step, and not in one for each field.
impl Drop for Table {
    fn drop(self) {
        let Table {
            profile: _profile,
            cores: _cores,
            limit: _limit,
            processes: _processes,
            objects: _objects,
            init: _init,
            texts: _texts,
        } = self;
    }
}

impl Model for Table {
    ghost use Rattle.apex_machine.specs.table.Table.{Table};
    ghost use Rattle.apex_configs.specs.Tables.{table_with};
    ghost use Rattle.apex_configs.specs.Texts.{IsWithTexts};

    ghost Value = { Table };

    ghost view = { λ t. table_with t.profile t.cores t.limit t.processes.items t.objects
        t.init.items };

    ghost invariant = { λ t. IsWithTexts t.texts.items
        (table_with t.profile t.cores t.limit t.processes.items t.objects t.init.items) };
}

impl Table {
    /// The table of these parts.
    pub fn new(
        profile: Profile,
        cores: u8,
        limit: u32,
        processes: Vec<ProcessConfig>,
        objects: Objects,
        init: Vec<Step>,
        texts: Vec<ScriptTexts>,
    ) -> Table
        requires { IsWithTexts texts.items
            (table_with profile cores limit processes.items objects init.items) }
        ensures { result ≡ table_with profile cores limit processes.items objects init.items }
    {
        Table {
            profile,
            cores,
            limit,
            processes,
            objects,
            init,
            texts,
        }
    }

    /// The table's profile.
    pub fn profile(&self) -> Profile
        ensures { result ≡ self.now.profile }
    {
        self.profile
    }

    /// The number of cores that the partition has, 1 to 8.
    pub fn cores(&self) -> u8
        ensures value { result ≡ self.now.cores }
        ensures range { (1 ≤ result) × (result ≤ MOST_CORES) }
    {
        self.cores
    }

    /// The most entries that the history may have, 1 to 65,536.
    pub fn limit(&self) -> u32
        ensures value { result ≡ self.now.limit }
        ensures range { (1 ≤ result) × (result ≤ MOST_ENTRIES) }
    {
        self.limit
    }

    /// The number of processes, 1 to 64.
    #[tactic(auto, using(apex_machine::proofs::BothProfiles::lawful_count))]
    pub fn process_count(&self) -> usize
        ensures value { result ≡ length self.now.processes }
        ensures range { (1 ≤ result) × (result ≤ MOST_PROCESSES) }
    {
        self.processes.len()
    }

    /// The process of this id.
    pub fn process(&self, id: ProcessId) -> &ProcessConfig
        requires { id < length self.now.processes }
        ensures place { slice_get self.now.processes id ≡ Some result.now }
        ensures entry { result.now ≡ process_config self.now id }
    {
        &self.processes[id.place()]
    }

    /// The number of semaphores, at most 16.
    pub fn semaphore_count(&self) -> usize
        ensures value { result ≡ length self.now.semaphores }
        ensures range { result ≤ MOST_OBJECTS }
    {
        self.objects.semaphores.len()
    }

    /// The semaphore of this id.
    pub fn semaphore(&self, id: SemaphoreId) -> &SemaphoreConfig
        requires { id < length self.now.semaphores }
        ensures place { slice_get self.now.semaphores id ≡ Some result.now }
        ensures entry { result.now ≡ semaphore_config self.now id }
    {
        &self.objects.semaphores[id.place()]
    }

    /// The number of buffers, at most 16.
    pub fn buffer_count(&self) -> usize
        ensures value { result ≡ length self.now.buffers }
        ensures range { result ≤ MOST_OBJECTS }
    {
        self.objects.buffers.len()
    }

    /// The buffer of this id.
    pub fn buffer(&self, id: BufferId) -> &BufferConfig
        requires { id < length self.now.buffers }
        ensures place { slice_get self.now.buffers id ≡ Some result.now }
        ensures entry { result.now ≡ buffer_config self.now id }
    {
        &self.objects.buffers[id.place()]
    }

    /// The number of blackboards, at most 16.
    pub fn blackboard_count(&self) -> usize
        ensures value { result ≡ length self.now.blackboards }
        ensures range { result ≤ MOST_OBJECTS }
    {
        self.objects.blackboards.len()
    }

    /// The blackboard of this id.
    pub fn blackboard(&self, id: BlackboardId) -> &BlackboardConfig
        requires { id < length self.now.blackboards }
        ensures place { slice_get self.now.blackboards id ≡ Some result.now }
        ensures entry { result.now ≡ blackboard_config self.now id }
    {
        &self.objects.blackboards[id.place()]
    }

    /// The number of event flags, at most 16.
    pub fn event_flag_count(&self) -> usize
        ensures value { result ≡ length self.now.event_flags }
        ensures range { result ≤ MOST_OBJECTS }
    {
        self.objects.event_flags.len()
    }

    /// The event flag of this id.
    pub fn event_flag(&self, id: EventId) -> &EventFlagConfig
        requires { id < length self.now.event_flags }
        ensures place { slice_get self.now.event_flags id ≡ Some result.now }
        ensures entry { result.now ≡ event_flag_config self.now id }
    {
        &self.objects.event_flags[id.place()]
    }

    /// The number of mutexes, at most 16.
    pub fn mutex_count(&self) -> usize
        ensures value { result ≡ length self.now.mutexes }
        ensures range { result ≤ MOST_OBJECTS }
    {
        self.objects.mutexes.len()
    }

    /// The mutex of this id.
    pub fn mutex(&self, id: MutexId) -> &MutexConfig
        requires { id < length self.now.mutexes }
        ensures place { slice_get self.now.mutexes id ≡ Some result.now }
        ensures entry { result.now ≡ mutex_config self.now id }
    {
        &self.objects.mutexes[id.place()]
    }

    /// The call of the step at this place of the init list, counted from 0, or none past its end.
    pub fn init_call(&self, place: usize) -> Option<Call>
        ensures { result ≡ call_in self.now.init place }
    {
        call_in(&self.init, place)
    }

    /// The call of the step at this place of the process's script, counted from 0, or none past its
    /// end.
    pub fn step_call(&self, process: ProcessId, place: usize) -> Option<Call>
        ensures { result ≡ call_in (process_config self.now process).script place }
    {
        match self.processes.get(process.place()) {
            Some(process) => process.call(place),
            None => None,
        }
    }

    /// The text of the step at this place of the process's script, counted from 0, or none past its
    /// end: its call, as a line writes it.
    #[tactic(auto, using(crate::proofs::KeptTexts::text_at))]
    pub fn step_text(&self, process: ProcessId, place: usize) -> Option<&[u8]>
        ensures { option_map (λ text. text.now) result ≡ step_text self.now process place }
    {
        match self.texts.get(process.place()) {
            Some(texts) => texts.get(place),
            None => None,
        }
    }

    /// The literal of the step of this origin, which has no byte if there is no such step.
    pub fn literal(&self, origin: Origin) -> &[u8]
        ensures value { result.now ≡ literal_text self.now origin }
        ensures range { length result.now ≤ MOST_LITERAL }
    {
        match origin {
            Origin::Init(place) => literal_in(&self.init, usize::from(place)),
            Origin::Script(process, place) => match self.processes.get(process.place()) {
                Some(process) => process.literal(usize::from(place)),
                None => &[],
            },
        }
    }

    /// Hands the caller the facts about every accepted table.
    pub fn lawful(&self)
        ensures { IsLawful self.now }
    {
        let _cores = &self.cores;
    }
}
