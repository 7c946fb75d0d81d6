//! The run whose reason or value changes are asked for.
ghost use Rattle.std.specs.Prelude.{◌≡◌};
ghost use Rattle.apex_history.specs.Counted.{inner_of, failures_of};
ghost use Rattle.apex_showings.specs.Showings.{source_said};
ghost use Rattle.apex_views.specs.Shows.{Gives};
ghost use Rattle.apex_lab_cli.specs.Listed.{outcome_of};

use apex_console::Run;
use apex_history::{Counted, Source};
use apex_showings::{Listing, RunSource, Showing, View};
use apex_views::{Departure, Given, GivenRun, ShowFault, given_by};
use std::alloc::Global;

/// A run that a source gave, and the departure behind it.
#[derive(Drop)]
pub(crate) struct Listed {
    pub(crate) run: Run,
    pub(crate) departure: Option<Departure>,
}

/// The run that the source gives, and the departure behind it.
#[tactic(auto, using(crate::proofs::Listings::is_listing))]
pub(crate) fn listed_by<R: Source>(
    alloc: Global,
    source: RunSource,
    reader: &mut Counted<R>,
) -> Result<Listed, ShowFault>
    ensures { Gives (R.remaining (inner_of reader.old)) (failures_of reader.old)
        (source_said source) (outcome_of result) (failures_of reader.new) }
{
    let showing = Showing {
        source,
        view: View::Listing(Listing::Schedule),
    };
    let given = given_by(alloc, &showing, reader);
    drop(showing);
    let Given { made, departure } = given?;
    match made {
        GivenRun::Listing(_, run) => Ok(Listed { run, departure }),
        // A listing is asked for.
        GivenRun::Picture(_) => unreachable!(),
        GivenRun::Empty(..) => unreachable!(),
        GivenRun::Lacking(..) => unreachable!(),
    }
}
