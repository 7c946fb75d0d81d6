//! The workers of one core and of the ticker, one after the other.

use super::crews::put_back;
use super::gates::Counter;
use crate::closings::entry_count;
use crate::openings::{Audience, Open, open_and_play};
use crate::steps::Step;
use apex_cores::{TickerReport, run_core, run_ticker};
use apex_partition::{Naming, Receipt, Shared, Ticker};
use apex_types::Reply;
use std::process::Abort;
use std::sync::Wait;

/// The reply of a shift's last turn.
#[derive(Clone, Copy)]
enum Last {
    Begun,
    Done,
    Idle,
}

/// The turns of a core's worker.
#[derive(Clone, Copy)]
pub struct Shift {
    /// The turns for which it is asked, and those that it makes; fewer if the history is full.
    asked: u32,
    made: u32,
    /// The place of the last receipt, and the reply of its entry.
    place: u32,
    reply: Last,
    /// The calls of the gate, and the units of work of process 1 on core 0 in all of them.
    calls: u64,
    ticks: u64,
}

impl Last {
    fn is_reply(self, reply: Reply) -> bool {
        match self {
            Last::Begun => reply == Reply::Begun,
            Last::Done => reply == Reply::Done,
            Last::Idle => reply == Reply::Idle,
        }
    }
}

/// Whether this is the receipt of the shift's last turn.
fn is_last<P: Naming>(last: Option<&Receipt<P>>, shift: Shift) -> bool {
    match last {
        Some(last) => last.place() == shift.place && shift.reply.is_reply(last.entry().reply),
        None => false,
    }
}

/// Whether the worker of the last core makes the shift. When it ends, the gate has done the work
/// that these turns began, and no other work.
pub fn makes_turns<P: Naming, R: Abort + Wait>(rt: &R, open: &mut Open<P>, shift: Shift) -> bool {
    let gate = Counter::new();
    let seat = open.seats.pop().expect(rt, "the core has a seat");
    let report = run_core(rt, &open.shared, seat, shift.asked, &gate, &mut ());
    let made = put_back(rt, open, report);
    made == (shift.made, shift.made < shift.asked)
        && gate.calls() == shift.calls
        && gate.sums() == (0, shift.calls, shift.ticks)
        && is_last(open.receipts.as_slice().last(), shift)
}

/// Whether the ticker's worker, which is asked for `asked` ticks, makes `made`.
pub fn makes_ticks<P: Naming, R: Abort + Wait>(
    rt: &R,
    shared: &Shared<P>,
    place: &mut Option<Ticker<P>>,
    asked: u32,
    made: u32,
) -> bool {
    let ticker = place.take().expect(rt, "the ticker is not at work");
    let report = run_ticker(rt, shared, ticker, asked);
    let TickerReport {
        ticker,
        ticks,
        full,
    } = report;
    *place = Some(ticker);
    ticks == made && full == (made < asked)
}

// Four turns of the init list, then P's work, its end, P's stop, and idle turns.
const WORKER: &str = r#"
cores = 1
history = 10

[[process]]
name = "P"
priority = 10
start = true
script = ["work 3"]
"#;

/// Five turns begin the work, and one ends it. Then there is room for two ticks and two idle turns.
const SHIFTS: &[Step] = &[
    Step::Shift(Shift {
        asked: 5,
        made: 5,
        place: 5,
        reply: Last::Begun,
        calls: 1,
        ticks: 3,
    }),
    Step::Seat(0, (0, 5, false)),
    Step::Shift(Shift {
        asked: 1,
        made: 1,
        place: 6,
        reply: Last::Done,
        calls: 0,
        ticks: 0,
    }),
    Step::Seat(0, (0, 6, false)),
    Step::Ticks(2, 2),
    Step::Ticker((2, 2, false)),
    Step::Shift(Shift {
        asked: 5,
        made: 2,
        place: 8,
        reply: Last::Idle,
        calls: 0,
        ticks: 0,
    }),
    Step::Seat(0, (0, 8, true)),
    Step::Ticks(5, 0),
    Step::Ticker((2, 2, true)),
];

#[test]
fn workers_stop_at_a_full_history(rt: HostRuntime) {
    let outcome = open_and_play(&rt, rt.alloc(), WORKER, Audience::Nobody, SHIFTS);
    assert!(rt; entry_count(outcome.partition) == 10);
}
