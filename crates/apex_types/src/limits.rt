//! The limits of this profile. The code takes each limit from here by its name, and so do the
//! definitions and the clauses.
ghost use Rattle.std.specs.Prelude.{◌≡◌};
ghost use Rattle.apex_types.specs.declared.limits.TheConstants.{MOST_PROFILE, MOST_CORES, MOST_CORE_PLACES, MOST_PROCESSES, MOST_PROCESSES_IN_ONE, MOST_OBJECTS, MOST_NAME, MOST_STEPS, MOST_INIT_STEPS, MOST_MESSAGE, MOST_LITERAL, MOST_MESSAGES, MOST_ENTRIES, USUAL_ENTRIES, MOST_TICKS, MOST_WORK, MOST_NOTICES, MOST_PRIORITY, MOST_OWNED, MOST_OWNED_IN_ONE, MOST_DEPTH, MOST_VALUE, MOST_SPAN, MOST_LINE};

/// The number of the largest profile; the smallest is 1.
pub const MOST_PROFILE: u32 = 2;

/// The most cores of a partition.
pub const MOST_CORES: u32 = 8;

/// The most places of a list that has one for each core.
pub const MOST_CORE_PLACES: usize = MOST_CORES as usize;

/// The most processes of a table.
pub const MOST_PROCESSES: usize = 64;

/// The most processes of a table of profile 1.
pub const MOST_PROCESSES_IN_ONE: usize = 32;

/// The most objects of one kind.
pub const MOST_OBJECTS: usize = 16;

/// The most bytes of a name.
pub const MOST_NAME: usize = 30;

/// The most steps of a script.
pub const MOST_STEPS: usize = 64;

/// The most steps of an init list.
pub const MOST_INIT_STEPS: usize = 512;

/// The most bytes of a message.
pub const MOST_MESSAGE: usize = 64;

/// The most bytes of a step's literal: those of a message or of a name.
pub const MOST_LITERAL: usize = 64;

/// The most messages that a buffer holds.
pub const MOST_MESSAGES: usize = 16;

/// The most entries of a history.
pub const MOST_ENTRIES: u32 = 65_536;

/// The limit of a history if the table gives none.
pub const USUAL_ENTRIES: u32 = 4_096;

/// The most ticks of one tick.
pub const MOST_TICKS: u32 = 1_048_576;

/// The most units of work of one step.
pub const MOST_WORK: u32 = 1_048_576;

/// The most notices of one event: two for each process.
pub const MOST_NOTICES: usize = 2 * MOST_PROCESSES;

/// The highest priority; the lowest is 1.
pub const MOST_PRIORITY: u32 = 239;

/// The most mutexes that a process owns at once.
pub const MOST_OWNED: usize = 4;

/// The most mutexes that a process owns at once in profile 1.
pub const MOST_OWNED_IN_ONE: usize = 1;

/// The greatest depth at which a process owns a mutex.
pub const MOST_DEPTH: u8 = 32;

/// The greatest maximum of a semaphore.
pub const MOST_VALUE: u32 = 32_767;

/// The longest span of time, in ticks.
pub const MOST_SPAN: u32 = u32::MAX;

/// The most bytes of a history's line.
pub const MOST_LINE: usize = 4_096;

/// Each limit is the number of this profile.
pub fn limits_of_the_profile()
    ensures most_profile { MOST_PROFILE ≡ 2 }
    ensures most_cores { MOST_CORES ≡ 8 }
    ensures most_core_places { MOST_CORE_PLACES ≡ 8 }
    ensures most_processes { MOST_PROCESSES ≡ 64 }
    ensures most_processes_in_one { MOST_PROCESSES_IN_ONE ≡ 32 }
    ensures most_objects { MOST_OBJECTS ≡ 16 }
    ensures most_name { MOST_NAME ≡ 30 }
    ensures most_steps { MOST_STEPS ≡ 64 }
    ensures most_init_steps { MOST_INIT_STEPS ≡ 512 }
    ensures most_message { MOST_MESSAGE ≡ 64 }
    ensures most_literal { MOST_LITERAL ≡ 64 }
    ensures most_messages { MOST_MESSAGES ≡ 16 }
    ensures most_entries { MOST_ENTRIES ≡ 65536 }
    ensures usual_entries { USUAL_ENTRIES ≡ 4096 }
    ensures most_ticks { MOST_TICKS ≡ 1048576 }
    ensures most_work { MOST_WORK ≡ 1048576 }
    ensures most_notices { MOST_NOTICES ≡ 128 }
    ensures most_priority { MOST_PRIORITY ≡ 239 }
    ensures most_owned { MOST_OWNED ≡ 4 }
    ensures most_owned_in_one { MOST_OWNED_IN_ONE ≡ 1 }
    ensures most_depth { MOST_DEPTH ≡ 32 }
    ensures most_value { MOST_VALUE ≡ 32767 }
    ensures most_span { MOST_SPAN ≡ 4294967295 }
    ensures most_line { MOST_LINE ≡ 4096 }
{}
