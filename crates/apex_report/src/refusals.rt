//! The replies that refused a call.
ghost use Rattle.std.specs.Prelude.{◌≡◌, true};
ghost use Rattle.apex_types.specs.declared.limits.TheConstants.{MOST_ENTRIES};
ghost use Rattle.apex_report.specs.Refusals.{some_refused};
ghost use Rattle.apex_report.specs.Steps.{is_refusal, no_refusals, refusals_with, AreUpTo};

use apex_types::{Reply, ReturnCode};

/// The number of replies with each return code that refuses a call (this profile). TIMED_OUT is no
/// reply: it ends a wait by a notice.
#[derive(Clone, Copy)]
pub struct Refusals {
    pub no_action: u32,
    pub not_available: u32,
    pub invalid_param: u32,
    pub invalid_config: u32,
    pub invalid_mode: u32,
}

/// The reply refuses the call.
pub(crate) fn is_refusal(reply: &Reply) -> bool
    ensures { result ≡ is_refusal reply.now }
{
    match reply {
        Reply::Code(ReturnCode::NoError | ReturnCode::TimedOut) => false,
        Reply::Code(_) => true,
        _ => false,
    }
}

impl Refusals {
    /// There are none.
    pub(crate) fn none() -> Refusals
        ensures { result ≡ no_refusals }
    {
        Refusals {
            no_action: 0,
            not_available: 0,
            invalid_param: 0,
            invalid_config: 0,
            invalid_mode: 0,
        }
    }

    /// Counts the reply if it refuses its call.
    pub(crate) fn note(&mut self, reply: &Reply)
        requires { AreUpTo MOST_ENTRIES self.old }
        ensures { self.new ≡ refusals_with true reply.now self.old }
    {
        match reply {
            Reply::Code(ReturnCode::NoAction) => self.no_action += 1,
            Reply::Code(ReturnCode::NotAvailable) => self.not_available += 1,
            Reply::Code(ReturnCode::InvalidParam) => self.invalid_param += 1,
            Reply::Code(ReturnCode::InvalidConfig) => self.invalid_config += 1,
            Reply::Code(ReturnCode::InvalidMode) => self.invalid_mode += 1,
            _ => (),
        }
    }

    /// There is one with some code.
    pub fn are_some(&self) -> bool
        ensures { result ≡ some_refused self.now }
    {
        self.no_action > 0
            || self.not_available > 0
            || self.invalid_param > 0
            || self.invalid_config > 0
            || self.invalid_mode > 0
    }
}
