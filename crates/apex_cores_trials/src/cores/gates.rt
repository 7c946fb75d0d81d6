//! A gate that counts its calls.

use apex_cores::Gate;
use apex_types::{CoreId, ProcessId};
use std::sync::atomic::{AtomicU64, Ordering};

/// Counts its calls, and adds up what it is called for.
#[derive(Drop)]
pub struct Counter {
    calls: AtomicU64,
    cores: AtomicU64,
    processes: AtomicU64,
    ticks: AtomicU64,
}

impl Counter {
    pub fn new() -> Counter {
        Counter {
            calls: AtomicU64::new(0),
            cores: AtomicU64::new(0),
            processes: AtomicU64::new(0),
            ticks: AtomicU64::new(0),
        }
    }

    /// The number of its calls.
    pub fn calls(&self) -> u64 {
        self.calls.load(Ordering::SeqCst)
    }

    /// The sums of the numbers of the cores, of the numbers of the processes, and of the units of
    /// work.
    pub fn sums(&self) -> (u64, u64, u64) {
        let cores = self.cores.load(Ordering::SeqCst);
        let processes = self.processes.load(Ordering::SeqCst);
        (cores, processes, self.ticks.load(Ordering::SeqCst))
    }
}

impl Gate for Counter {
    ghost use Rattle.std.specs.Prelude.{⊤};

    type Token = ();

    ghost enters = { λ _ _. ⊤ };

    ghost does = { λ _ _ _ _ _. ⊤ };

    fn enter(&self, _core: CoreId) {}

    fn work(&self, _token: &mut (), core: CoreId, process: ProcessId, ticks: u32) {
        self.calls.fetch_add(1, Ordering::SeqCst);
        self.cores
            .fetch_add(u64::from(core.number()), Ordering::SeqCst);
        self.processes
            .fetch_add(u64::from(process.number()), Ordering::SeqCst);
        self.ticks.fetch_add(u64::from(ticks), Ordering::SeqCst);
    }

    fn leave(&self, _token: ()) {}
}
