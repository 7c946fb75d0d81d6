//! Nothing is scanned, however many processes wait.

use apex_dispatch::Kernel;
use apex_links::Visits;
use apex_machine::Queue;
use apex_process::QueueStore;
use apex_store::Store;
use apex_table::read_table;
use apex_types::{CoreId, SemaphoreId};
use std::alloc::Global;
use std::mem::drop;
use std::process::Abort;

/// The table of two cores: on the one processes named after these numbers, which wait for ever for
/// a semaphore, on the other one that makes this step.
macro_rules! table {
    ($step:literal: $($waiter:literal)*) => {
        concat!(
            "cores = 2\n",
            $(
                "[[process]]\nname = \"W",
                $waiter,
                "\"\npriority = 10\ncore = 0\nstart = true\n",
                "script = [\"WAIT_SEMAPHORE S infinite\"]\n",
            )*
            "[[process]]\nname = \"K\"\npriority = 10\ncore = 1\nstart = true\n",
            "script = [\"",
            $step,
            "\"]\n",
            "[[semaphore]]\nname = \"S\"\nmaximum = 1\ninitial = 0\ndiscipline = \"FIFO\"\n",
        )
    };
}

/// A step, its table with 3 waiters, and that with 29.
macro_rules! few_and_many {
    ($step:literal) => {
        (
            $step,
            table!($step: 1 2 3),
            table!($step: 1 2 3 4 5 6 7 8 9 10 11 12 13 14 15 16 17 18 19 20 21 22 23 24 25 26 27
                28 29),
        )
    };
}

/// By the one a waiter leaves the queue since it is woken, by the other since it is stopped.
const STEPS: [(&str, &str, &str); 2] = [
    few_and_many!("SIGNAL_SEMAPHORE S"),
    few_and_many!("STOP W2"),
];

fn turn_of(rt: &impl Abort, kernel: &mut Kernel<QueueStore>, core: CoreId) {
    assert!(rt; core.number() < kernel.table().cores());
    assert!(rt; kernel.turn(core).is_ok());
}

/// The number of processes that wait for the semaphore.
fn waiting(kernel: &Kernel<QueueStore>) -> u32 {
    let queue = Queue::Semaphore(SemaphoreId::at(0));
    kernel.store().waiting(queue)
}

/// The number of records and nodes at which the store looks in the one turn of the step, by which
/// a waiter leaves the queue.
fn visits_of(rt: &impl Abort, kernel: &mut Kernel<QueueStore>, waiters: u32) -> u64 {
    for _turn in 0..200 {
        turn_of(rt, kernel, CoreId::new(0));
    }
    assert!(rt; waiting(kernel) == waiters);
    let before = kernel.store().visits();
    turn_of(rt, kernel, CoreId::new(1));
    let after = kernel.store().visits();
    assert!(rt; waiting(kernel).saturating_add(1) == waiters);
    after.saturating_sub(before)
}

/// The same number for a kernel of this table with n waiters, which is let go.
fn visits_beside<R: Abort>(rt: &R, alloc: Global, waiters: u32, text: &str) -> u64 {
    let table = read_table(alloc, text.as_bytes()).expect(rt, "the table is lawful");
    let store = QueueStore::new(alloc, &table).expect(rt, "memory");
    let mut kernel = Kernel::boot(alloc, table, store).expect(rt, "memory");
    let visits = visits_of(rt, &mut kernel, waiters);
    drop(kernel);
    visits
}

#[test]
fn a_queue_is_not_scanned(rt: HostRuntime) {
    for (step, three, twenty_nine) in STEPS {
        let few = visits_beside(&rt, rt.alloc(), 3, three);
        let many = visits_beside(&rt, rt.alloc(), 29, twenty_nine);
        assert!(rt;
            few >= 1 && few == many,
            "{few} and {many} visits of {step}"
        );
    }
}

#[test]
fn a_count_of_visits_stays_at_the_greatest(rt: HostRuntime) {
    let visits = Visits::new();
    visits.note_all(usize::MAX);
    visits.note();
    assert!(rt; visits.count() == u64::MAX);
}
