//! The guards of the services' rows, each with its return code and its sentence.
ghost use Rattle.std.specs.Prelude.{◌≡◌, ◌≤◌, length};
ghost use Rattle.apex_reasons.specs.Guards.{code_of, sentence_of};
ghost use Rattle.apex_reasons.specs.declared.guards.TheConstants.{MOST_SENTENCE};

use apex_types::ReturnCode;

/// The most bytes of a sentence.
pub(crate) const MOST_SENTENCE: usize = 96;

/// A guard of a service's row. The first one that holds refuses the call with its code (this
/// profile).
#[derive(Clone, Copy)]
pub enum Guard {
    /// The mode is NORMAL, and the service is of the start of a partition.
    ModeIsNormal,
    /// The mode that is asked for is the mode already.
    ModeIsNormalAlready,
    /// The table has no entry of the name.
    NoSuchEntry,
    /// The named process or object is created already.
    AlreadyCreated,
    /// The named process or object is not created.
    NotCreated,
    /// The process or object whose id is asked for is not created.
    IdNotCreated,
    /// The core is not below the number of cores.
    NoSuchCore,
    /// The priority is not 1 to 239.
    PriorityOutOfRange,
    /// The process whose priority is to be set is dormant.
    DormantForPriority,
    /// The process that is to be started is not dormant.
    AlreadyStarted,
    /// The delay is infinite, or not below the period of a periodic process.
    UnfitDelay,
    /// The named process is the caller.
    NamesCaller,
    /// The process that is to be stopped is dormant.
    AlreadyDormant,
    /// The process that is to be suspended or resumed is dormant or periodic.
    DormantOrPeriodic,
    /// The process that is to be suspended is suspended.
    AlreadySuspended,
    /// The process that is to be resumed is not suspended.
    NotSuspended,
    /// The process that is to be suspended owns a mutex.
    OwnsMutex,
    /// No process calls: an init step asks for the service.
    NoCaller,
    /// The caller is periodic.
    CallerIsPeriodic,
    /// The caller is aperiodic.
    CallerIsAperiodic,
    /// The caller owns a mutex.
    CallerOwnsMutex,
    /// The caller owns a mutex and the timeout is not 0.
    OwnerWithTimeout,
    /// The timeout of a TIMED_WAIT is infinite.
    InfiniteTimedWait,
    /// The capacity of the caller is infinite.
    InfiniteCapacity,
    /// The deadline that is asked for is later than the next release of a periodic caller.
    DeadlinePastPeriod,
    /// No process waits for the semaphore, and its value is the maximum.
    SemaphoreIsFull,
    /// The message is empty, or longer than the object takes.
    UnfitMessage,
    /// The caller does not own the mutex, owns another one, and the timeout is not 0.
    OwnerOfAnotherWithTimeout,
    /// The caller does not own the mutex, and owns as many as it may.
    OwnsMost,
    /// The base priority of the caller is above the ceiling of the mutex.
    BaseAboveCeiling,
    /// The caller owns the mutex at depth 32.
    AtMostDepth,
    /// The caller does not own the mutex.
    CallerIsNotOwner,
}

impl Guard {
    /// The return code with which the guard refuses a call.
    pub fn code(self) -> ReturnCode
        ensures { result ≡ code_of self }
    {
        match self {
            Guard::ModeIsNormal => ReturnCode::InvalidMode,
            Guard::DormantForPriority => ReturnCode::InvalidMode,
            Guard::DormantOrPeriodic => ReturnCode::InvalidMode,
            Guard::OwnsMutex => ReturnCode::InvalidMode,
            Guard::NoCaller => ReturnCode::InvalidMode,
            Guard::CallerIsPeriodic => ReturnCode::InvalidMode,
            Guard::CallerIsAperiodic => ReturnCode::InvalidMode,
            Guard::CallerOwnsMutex => ReturnCode::InvalidMode,
            Guard::OwnerWithTimeout => ReturnCode::InvalidMode,
            Guard::DeadlinePastPeriod => ReturnCode::InvalidMode,
            Guard::OwnerOfAnotherWithTimeout => ReturnCode::InvalidMode,
            Guard::OwnsMost => ReturnCode::InvalidMode,
            Guard::BaseAboveCeiling => ReturnCode::InvalidMode,
            Guard::AtMostDepth => ReturnCode::InvalidMode,
            Guard::CallerIsNotOwner => ReturnCode::InvalidMode,
            Guard::ModeIsNormalAlready => ReturnCode::NoAction,
            Guard::AlreadyCreated => ReturnCode::NoAction,
            Guard::AlreadyStarted => ReturnCode::NoAction,
            Guard::AlreadyDormant => ReturnCode::NoAction,
            Guard::AlreadySuspended => ReturnCode::NoAction,
            Guard::NotSuspended => ReturnCode::NoAction,
            Guard::InfiniteCapacity => ReturnCode::NoAction,
            Guard::SemaphoreIsFull => ReturnCode::NoAction,
            Guard::NoSuchEntry => ReturnCode::InvalidConfig,
            Guard::IdNotCreated => ReturnCode::InvalidConfig,
            Guard::NoSuchCore => ReturnCode::InvalidConfig,
            Guard::NotCreated => ReturnCode::InvalidParam,
            Guard::PriorityOutOfRange => ReturnCode::InvalidParam,
            Guard::UnfitDelay => ReturnCode::InvalidParam,
            Guard::NamesCaller => ReturnCode::InvalidParam,
            Guard::InfiniteTimedWait => ReturnCode::InvalidParam,
            Guard::UnfitMessage => ReturnCode::InvalidParam,
        }
    }

    /// The guard in words, without a full stop: at most [`MOST_SENTENCE`] bytes.
    pub fn sentence(self) -> &'static str
        ensures value { result.now ≡ sentence_of self }
        ensures short { length result.now ≤ MOST_SENTENCE }
    {
        match self {
            Guard::ModeIsNormal => "the mode is NORMAL",
            Guard::ModeIsNormalAlready => "the mode is NORMAL already",
            Guard::NoSuchEntry => "no entry has the name",
            Guard::AlreadyCreated => "the named process or object is created already",
            Guard::NotCreated => "the named process or object is not created",
            Guard::IdNotCreated => "the named process or object is not created",
            Guard::NoSuchCore => "the core is not below the number of cores",
            Guard::PriorityOutOfRange => "the priority is not 1 to 239",
            Guard::DormantForPriority => "the named process is dormant",
            Guard::AlreadyStarted => "the named process is not dormant",
            Guard::UnfitDelay => {
                "the delay is infinite, or not below the period of the named process"
            }
            Guard::NamesCaller => "the named process is the caller",
            Guard::AlreadyDormant => "the named process is dormant",
            Guard::DormantOrPeriodic => "the named process is dormant or periodic",
            Guard::AlreadySuspended => "the named process is suspended already",
            Guard::NotSuspended => "the named process is not suspended",
            Guard::OwnsMutex => "the named process owns a mutex",
            Guard::NoCaller => "no process calls",
            Guard::CallerIsPeriodic => "the caller is periodic",
            Guard::CallerIsAperiodic => "the caller is aperiodic",
            Guard::CallerOwnsMutex => "the caller owns a mutex",
            Guard::OwnerWithTimeout => "the caller owns a mutex and the timeout is not 0",
            Guard::InfiniteTimedWait => "the timeout is infinite",
            Guard::InfiniteCapacity => "the capacity of the caller is infinite",
            Guard::DeadlinePastPeriod => {
                "the deadline would be later than the end of the period of the caller"
            }
            Guard::SemaphoreIsFull => "no process waits and the value is the maximum",
            Guard::UnfitMessage => "the message is empty or longer than the object takes",
            Guard::OwnerOfAnotherWithTimeout => {
                "the caller owns another mutex, but not this one, and the timeout is not 0"
            }
            Guard::OwnsMost => "the caller does not own the mutex, and owns as many as it may",
            Guard::BaseAboveCeiling => "the base priority of the caller is above the ceiling",
            Guard::AtMostDepth => "the caller owns the mutex at depth 32",
            Guard::CallerIsNotOwner => "the caller does not own the mutex",
        }
    }
}
