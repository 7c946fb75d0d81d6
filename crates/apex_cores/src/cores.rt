//! The worker of one core.
ghost use Rattle.std.specs.Prelude.{◌≡◌, ◌<◌, MatchOption};
ghost use Rattle.apex_cores.specs.Runs.{HasRun, IsLast};
ghost use Rattle.apex_cores.specs.Works.{HasServed, HaveBeenDone};

use crate::gates::{Gate, follow_turn};
use apex_partition::{Naming, Receipt, Seat, Shared};
use crossbeam_utils::Backoff;
use std::sync::Wait;

/// The report of the worker of a core.
#[derive(Drop)]
pub struct CoreReport<P: Naming> {
    /// The seat, with the entries of these turns.
    pub seat: Seat<P>,
    /// The number of turns that it made.
    pub turns: u32,
    /// The receipt of the last of them, if there was one.
    pub last: Option<Receipt<P>>,
    /// Whether a full history stopped it.
    pub full: bool,
}

/// Takes `turns` turns of the seat's core, one after the other, and stops earlier only if the
/// history is full. The gate does the work that a turn has begun before the next turn, with the
/// worker's token, and after an idle turn the worker backs off. Takes no memory, if the gate takes
/// none.
pub fn run_core<P: Naming, G: Gate, R: Wait>(
    rt: &R,
    shared: &Shared<P>,
    seat: Seat<P>,
    turns: u32,
    gate: &G,
    token: &mut G::Token,
) -> CoreReport<P>
    ensures ran { HasRun seat turns result.seat result.turns result.full }
    ensures last { MatchOption result.last (result.turns ≡ 0)
        (λ r. (0 < result.turns) × IsLast result.seat r) }
    ensures works { HaveBeenDone G.does seat result.seat token.old token.new }
{
    let backoff = Backoff::new();
    let core = seat.core();
    let mut seat = seat;
    if turns == 0 {
        return CoreReport {
            seat,
            turns,
            last: None,
            full: false,
        };
    }
    let Ok(mut last) = shared.turn(rt, &mut seat) else {
        return CoreReport {
            seat,
            turns: 0,
            last: None,
            full: true,
        };
    };
    follow_turn(gate, token, &backoff, core, last.entry());
    for made in 1..turns {
        let Ok(()) = shared.turn_into(rt, &mut seat, &mut last) else {
            return CoreReport {
                seat,
                turns: made,
                last: Some(last),
                full: true,
            };
        };
        follow_turn(gate, token, &backoff, core, last.entry());
    }
    CoreReport {
        seat,
        turns,
        last: Some(last),
        full: false,
    }
}

/// Takes `turns` turns of the seat's core, as `run_core` does, with a token of its own.
pub fn run_worker<P: Naming, G: Gate, R: Wait>(
    rt: &R,
    shared: &Shared<P>,
    seat: Seat<P>,
    turns: u32,
    gate: &G,
) -> CoreReport<P>
    ensures ran { HasRun seat turns result.seat result.turns result.full }
    ensures works { HasServed G.enters G.does seat result.seat }
{
    let mut token = gate.enter(seat.core());
    let report = run_core(rt, shared, seat, turns, gate, &mut token);
    gate.leave(token);
    report
}
