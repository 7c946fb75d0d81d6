//! The run of a table by a pace.
ghost use Rattle.std.specs.Prelude.{◌≡◌, IfOk, IfErr};
ghost use Rattle.apex_machine.specs.Machine.{opening, run};
ghost use Rattle.apex_pace.specs.First.{first_schedule};
ghost use Rattle.apex_rounds.specs.Rounds.{IsAtOpening};
ghost use Rattle.apex_console.specs.Reports.{Refuses, fault_of_events, runs_to};
ghost use Rattle.apex_views.specs.Paced.{paced_answer, rounds_until};

use apex_console::{CliFault, Run, kernel_for};
use apex_dispatch::Kernel;
use apex_pace::Pace;
use apex_rounds::Rounds;
use apex_store::Store;
use std::alloc::Global;

/// Makes the events of the first schedule of the pace up to a time in ticks, on a kernel before any
/// event. `HistoryFull` if there are more of them than the history has room for.
fn paced<S: Store>(rounds: &mut Rounds<S>, until: u64) -> Option<CliFault>
    requires { IsAtOpening rounds.old }
    ensures table { rounds.new.kernel.table ≡ rounds.old.kernel.table }
    ensures machine { rounds.new.kernel.machine ≡ run rounds.old.kernel.table
        (opening rounds.old.kernel.table)
        (first_schedule rounds.old.pace rounds.old.kernel.table until) }
    ensures fault { result ≡ fault_of_events rounds.old.kernel.table
        (rounds_until rounds.old.pace until rounds.old.kernel.table) }
{
    match rounds.run_until(until) {
        Ok(()) => None,
        Err(full) => Some(CliFault::HistoryFull(full.entries)),
    }
}

/// The kernel, before any event, after the first schedule of the pace up to a time in ticks, and the
/// fault of that schedule.
fn run_until<S: Store>(kernel: Kernel<S>, pace: Pace, until: u64) -> (Kernel<S>, Option<CliFault>)
    requires { kernel.machine ≡ opening kernel.table }
    ensures table { result.0.table ≡ kernel.table }
    ensures machine { result.0.machine
        ≡ run kernel.table (opening kernel.table) (first_schedule pace kernel.table until) }
    ensures fault { result.1
        ≡ fault_of_events kernel.table (rounds_until pace until kernel.table) }
{
    let mut rounds = Rounds::new(kernel, pace);
    let fault = paced(&mut rounds, until);
    (rounds.into_kernel(), fault)
}

/// Makes the first schedule of the pace up to a time in ticks, on the table of this text.
///
/// Its errors are the table's fault, and `Memory` whenever memory is refused.
pub fn run_at_pace(alloc: Global, pace: Pace, until: u64, text: &[u8]) -> Result<Run, CliFault>
    ensures ok { IfOk result (λ run. paced_answer pace until text.now
        ≡ runs_to run.kernel.table run.kernel.machine run.fault) }
    ensures err { IfErr result (λ fault. Refuses fault (paced_answer pace until text.now)) }
{
    let kernel = kernel_for(alloc, &[], text)?;
    let (kernel, fault) = run_until(kernel, pace, until);
    Ok(Run { kernel, fault })
}
