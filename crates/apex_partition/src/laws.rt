//! Laws of the fronts of a partition. Each law is the contract of a function that changes nothing.
ghost use Rattle.apex_partition.specs.Forward.{FrontsGoForward};

use apex_configs::Table;
use apex_laws::{histories_replay, time_goes_forward};

/// A front after a longer history has no fewer entries and no earlier time. So a reader's later
/// front has no fewer entries and no earlier time than each that it read before.
pub fn fronts_go_forward(table: &Table)
    ensures { FrontsGoForward table.now }
{
    table.lawful();
    histories_replay();
    time_goes_forward();
}
