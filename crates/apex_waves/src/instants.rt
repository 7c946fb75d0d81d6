//! The instants of a dump: where the moment after an entry is on its axis.
ghost use Rattle.std.specs.Prelude.{◌≡◌, ◌≤◌};
ghost use Rattle.apex_types.specs.Limits.{latest};
ghost use Rattle.apex_waves.specs.Instants.{units};

use apex_moments::{Instant, WIDE_MOMENTS};

/// The time of an instant, in units of which a tick has 100,000.
pub(crate) fn units(instant: Instant) -> u64
    requires { instant.now ≤ latest }
    ensures { result ≡ units instant }
{
    let place = u64::from(instant.place);
    let within = if place < WIDE_MOMENTS {
        100 * place
    } else {
        100 * WIDE_MOMENTS + (place - WIDE_MOMENTS)
    };
    100_000 * instant.now + within
}
