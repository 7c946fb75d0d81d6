//! The releases of periodic processes.

ghost use Rattle.std.specs.Prelude.{◌≡◌, ◌<◌, length};
ghost use Rattle.apex_machine.specs.processes.Dues.{HasTime, IsFrom};
ghost use Rattle.apex_machine.specs.processes.Periods.{HasNoFutureRelease, release_after};
ghost use Rattle.apex_machine.specs.processes.Roster.{record_at};

use crate::store::Store;
use apex_types::ProcessId;

/// The next release of the process, in ticks: the first instant above now that is one or more whole
/// periods after its last release. None for an aperiodic process.
pub fn release_after<S: Store>(store: &S, process: ProcessId) -> Option<u64>
    requires known { process < length (S.roster store.now).records }
    requires time { HasTime (S.roster store.now) }
    requires releases { HasNoFutureRelease (S.roster store.now) }
    ensures value { result ≡ release_after (S.roster store.now).now
        (record_at (S.roster store.now) process) }
    ensures later { IsFrom (S.roster store.now).now result }
{
    let fields = store.record(process);
    let period = u64::from(fields.attributes.period?.ticks());
    let passed = (store.now() - fields.release) / period;
    Some(fields.release + (passed + 1) * period)
}
