//! The worker of the ticker.
ghost use Rattle.std.specs.Prelude.{◌≡◌};
ghost use Rattle.apex_cores.specs.Runs.{HasTicked};

use apex_partition::{Naming, Shared, Ticker};
use std::sync::Wait;

/// The report of the worker of the ticker.
#[derive(Drop)]
pub struct TickerReport<P: Naming> {
    /// The ticker, with the entries of these ticks.
    pub ticker: Ticker<P>,
    /// The number of ticks that it made.
    pub ticks: u32,
    /// Whether a full history stopped it.
    pub full: bool,
}

/// Makes `ticks` ticks of 1, one after the other, and stops earlier only if the history is full.
/// Takes no memory.
pub fn run_ticker<P: Naming, R: Wait>(
    rt: &R,
    shared: &Shared<P>,
    ticker: Ticker<P>,
    ticks: u32,
) -> TickerReport<P>
    ensures { HasTicked ticker ticks result.ticker result.ticks result.full }
{
    let mut ticker = ticker;
    for made in 0..ticks {
        let Ok(_receipt) = shared.tick(rt, &mut ticker, 1) else {
            return TickerReport {
                ticker,
                ticks: made,
                full: true,
            };
        };
    }
    TickerReport {
        ticker,
        ticks,
        full: false,
    }
}
