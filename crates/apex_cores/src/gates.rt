//! The gate, at which the work of processes is done outside the lock.
ghost use Rattle.std.specs.Prelude.{◌≡◌, ℕ};
ghost use Rattle.apex_cores.specs.Works.{DidWork, begun_in};

use apex_machine::Work;
use apex_types::{Call, Caller, CoreId, Entry, ProcessId, Reply};
use crossbeam_utils::Backoff;

/// The gate, which does the work that a process begins (this profile). The workers of all cores
/// share it.
pub trait Gate {
    /// What the worker of a core carries from one work to the next. Nothing but the gate makes,
    /// changes or takes it, so a worker that has it shows the works that the gate did.
    type Token;

    // The works that may be done: the worker's token before, the core, the process, the units of
    // work, and the token afterwards.
    ghost does: { Self.Token → ℕ → ℕ → ℕ → Self.Token → Type 0 };

    // The tokens with which the worker of a core may begin.
    ghost enters: { ℕ → Self.Token → Type 0 };

    /// The token with which the worker of this core begins.
    fn enter(&self, core: CoreId) -> Self::Token
        ensures { enters core result };

    /// Does `ticks` units of work of this process on this core. The worker of the core calls it
    /// with no lock held, and takes the core's next turn when it returns.
    fn work(&self, token: &mut Self::Token, core: CoreId, process: ProcessId, ticks: u32)
        ensures { does token.old core process ticks token.new };

    /// Takes the token of a worker that has come to its end.
    fn leave(&self, token: Self::Token);
}

/// The work that this entry has begun, if it has.
fn begun(entry: &Entry) -> Option<Work>
    ensures { result ≡ begun_in entry.entry.now }
{
    let Caller::Process(process) = entry.process else {
        return None;
    };
    let Some(Call::Work(amount)) = entry.call else {
        return None;
    };
    let Reply::Begun = entry.reply else {
        return None;
    };
    Some(Work { process, amount })
}

/// The worker's part behind a turn, with no lock held: the work that its turn has begun, or after an
/// idle turn a pause, longer each time.
pub fn follow_turn<G: Gate>(
    gate: &G,
    token: &mut G::Token,
    backoff: &Backoff,
    core: CoreId,
    entry: &Entry,
)
    ensures { DidWork G.does core (begun_in entry.entry.now) token.old token.new }
{
    let Some(work) = begun(entry) else {
        if entry.reply == Reply::Idle {
            backoff.snooze();
        } else {
            backoff.reset();
        }
        return;
    };
    backoff.reset();
    gate.work(token, core, work.process, work.amount.ticks());
}
