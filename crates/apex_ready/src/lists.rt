//! Which list is the ready list of which core and priority.
ghost use Rattle.std.specs.Prelude.{◌≡◌, ◌<◌};
ghost use Rattle.apex_links.specs.declared.numbers.TheConstants.{READY_LISTS};
ghost use Rattle.apex_ready.specs.ReadyOrders.{ready_list};

use apex_links::{ListId, PRIORITIES};
use apex_types::CoreId;

/// The ready list of this priority on the core.
pub fn ready_list(core: CoreId, priority: u8) -> ListId
    ensures value { result ≡ ready_list core priority }
    ensures known { result < READY_LISTS }
{
    ListId::at(PRIORITIES as u16 * u16::from(core.number()) + u16::from(priority))
}
