//! The tables that several tests read.

/// Two cores, a process that waits for a semaphore on the one, and one that signals it on the
/// other.
pub const WAITER_AND_SIGNALLER: &str = r#"
cores = 2

[[process]]
name = "P1"
priority = 10
core = 0
start = true
script = ["WAIT_SEMAPHORE S infinite"]

[[process]]
name = "P2"
priority = 10
core = 1
start = true
script = ["SIGNAL_SEMAPHORE S"]

[[semaphore]]
name = "S"
maximum = 1
initial = 0
discipline = "FIFO"
"#;

/// The init list of the table with the waiter and the signaller.
pub const STARTED: &str = "1 0 core0 init CREATE_SEMAPHORE S -> NO_ERROR
2 0 core0 init CREATE_PROCESS P1 -> NO_ERROR
3 0 core0 init INITIALIZE_PROCESS_CORE_AFFINITY P1 0 -> NO_ERROR
4 0 core0 init CREATE_PROCESS P2 -> NO_ERROR
5 0 core0 init INITIALIZE_PROCESS_CORE_AFFINITY P2 1 -> NO_ERROR
6 0 core0 init START P1 -> NO_ERROR
7 0 core0 init START P2 -> NO_ERROR
8 0 core0 init SET_PARTITION_MODE NORMAL -> NO_ERROR | released 1 | released 2
";
