//! The modes of a partition, the states of a process, and what a table chooses of a queue and of a
//! deadline.
ghost use Rattle.std.specs.Prelude.{◌≡◌};
ghost use Rattle.apex_types.specs.Modes.{is_normal};

/// The partition's operating mode (ARINC 653 Part 1, partition management).
#[derive(Clone, Copy, PartialEq, Eq)]
pub enum Mode {
    /// No process runs any more: the partition never leaves this mode (this profile).
    Idle,
    /// Core 0 carries out the init list, and no process runs.
    ColdStart,
    /// The cores run the processes.
    Normal,
}

impl Mode {
    /// Whether it is NORMAL, the only mode in which processes run.
    pub fn is_normal(self) -> bool
        ensures { result ≡ is_normal self }
    {
        self == Mode::Normal
    }
}

/// A process's state (ARINC 653 Part 1, process management).
#[derive(Clone, Copy, PartialEq, Eq)]
pub enum State {
    /// Not started, or stopped since.
    Dormant,
    /// Eligible, but another process is its core's chosen one.
    Ready,
    /// Its core's chosen one.
    Running,
    /// Waiting for something, or suspended.
    Waiting,
}

/// The order in the queue of a semaphore, a buffer or a mutex (ARINC 653 Part 1, intrapartition
/// communication).
#[derive(Clone, Copy, PartialEq, Eq)]
pub enum Discipline {
    /// The longest waiter first.
    Fifo,
    /// The most urgent waiter first, and among equals the longest waiter.
    Priority,
}

/// The effect of a missed deadline on its process (ARINC 653 Part 1, process management).
#[derive(Clone, Copy, PartialEq, Eq)]
pub enum DeadlineType {
    /// The process goes on.
    Soft,
    /// The process is stopped (this profile).
    Hard,
}
