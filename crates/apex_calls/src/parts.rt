//! A call as the arguments of its service, and back.
ghost use Rattle.std.specs.Prelude.{◌≡◌, ◌≤◌};
ghost use Rattle.std.specs.List.{AllByRecursion};
ghost use Rattle.apex_types.specs.declared.calls.ObjectCall.TheVariants.{Create, GetId, GetStatus, KindService};
ghost use Rattle.apex_calls.specs.Catalogue.{row_of};
ghost use Rattle.apex_calls.specs.Parts.{IsInRange, call_of, parts_of, no_arguments, of_entry, of_named, blackboard_parts, blackboard_service_parts, buffer_parts, buffer_service_parts, caller_parts, event_flag_parts, event_flag_service_parts, mutex_parts, mutex_service_parts, partition_parts, process_parts, process_service_parts, semaphore_parts, semaphore_service_parts, time_parts};

use crate::catalogue::Service;
use apex_types::{
    BlackboardCall, BlackboardService, BufferCall, BufferService, Call, CallerCall, EventFlagCall,
    EventFlagService, Id, Message, MutexCall, MutexService, Named, ObjectCall, Origin,
    PartitionCall, ProcessCall, ProcessService, RequestedMode, SemaphoreCall, SemaphoreService,
    Span, TimeCall, Timeout,
};

/// The arguments that the words behind a service give, each in the field of its shape. A field that
/// no word of the service fills is that of [`Arguments::none`].
#[derive(Clone, Copy)]
pub struct Arguments {
    /// The thing that a name is for, by its place, counted from 0.
    pub named: Named<u8>,
    /// The entry, by its place, counted from 0.
    pub entry: u8,
    /// The core, the priority, the ticks of a budget, or the units of work.
    pub number: u32,
    /// The longest time to wait, or the delay of a start.
    pub timeout: Timeout,
    /// The message that is sent or displayed.
    pub message: Message,
    /// The mode that SET_PARTITION_MODE asks for.
    pub mode: RequestedMode,
}

impl Arguments {
    /// The arguments of a service without any.
    pub fn none() -> Arguments
        ensures { result ≡ no_arguments }
    {
        Arguments {
            named: Named::Known(0),
            entry: 0,
            number: 0,
            timeout: Timeout::Poll,
            message: Message {
                origin: Origin::Init(0),
                length: 0,
            },
            mode: RequestedMode::Idle,
        }
    }

    fn of_entry<K: Copy>(id: Id<K>) -> Arguments
        ensures { result ≡ of_entry id }
    {
        Arguments {
            entry: id.place() as u8,
            ..Arguments::none()
        }
    }

    fn of_named<K: Copy>(named: &Named<Id<K>>) -> Arguments
        ensures { result ≡ of_named named.now }
    {
        let named = match named {
            Named::Known(id) => Named::Known(id.place() as u8),
            Named::Unknown(origin) => Named::Unknown(*origin),
        };
        Arguments {
            named,
            ..Arguments::none()
        }
    }

    fn numbered(self, number: u32) -> Arguments
        ensures { result ≡ record self { number = number } }
    {
        Arguments { number, ..self }
    }

    fn timed(self, timeout: &Timeout) -> Arguments
        ensures { result ≡ record self { timeout = timeout.now } }
    {
        Arguments {
            timeout: *timeout,
            ..self
        }
    }

    fn with_message(self, message: &Message) -> Arguments
        ensures { result ≡ record self { message = message.now } }
    {
        Arguments {
            message: *message,
            ..self
        }
    }

    fn with_mode(self, mode: &RequestedMode) -> Arguments
        ensures { result ≡ record self { mode = mode.now } }
    {
        Arguments {
            mode: *mode,
            ..self
        }
    }

    /// The thing of any name.
    fn named<K>(&self) -> Named<Id<K>>
        ensures { result ≡ self.now.named }
    {
        match self.named {
            Named::Known(place) => Named::Known(Id::at(place)),
            Named::Unknown(origin) => Named::Unknown(origin),
        }
    }
}

fn create<K, W>(arguments: &Arguments) -> ObjectCall<Id<K>, W>
    ensures { result ≡ Create arguments.now.named }
{
    ObjectCall::Create(arguments.named())
}

fn get_id<K, W>(arguments: &Arguments) -> ObjectCall<Id<K>, W>
    ensures { result ≡ GetId arguments.now.named }
{
    ObjectCall::GetId(arguments.named())
}

fn get_status<K, W>(arguments: &Arguments) -> ObjectCall<Id<K>, W>
    ensures { result ≡ GetStatus arguments.now.entry }
{
    ObjectCall::GetStatus(Id::at(arguments.entry))
}

fn kind_service<K, W>(arguments: &Arguments, service: W) -> ObjectCall<Id<K>, W>
    ensures { result ≡ KindService arguments.now.entry service }
{
    ObjectCall::KindService(Id::at(arguments.entry), service)
}

/// The call of a service with these arguments. The numbers of these are in the ranges of the
/// service's row.
pub fn call_of(service: Service, arguments: &Arguments) -> Call
    requires { AllByRecursion (IsInRange arguments.now) (row_of service).shapes }
    ensures { result ≡ call_of service arguments.now }
{
    use Service::*;
    let Arguments {
        number,
        timeout,
        message,
        mode,
        ..
    } = *arguments;
    match service {
        SetPartitionMode => Call::Partition(PartitionCall::SetPartitionMode(mode)),
        GetPartitionStatus => Call::Partition(PartitionCall::GetPartitionStatus),
        CreateProcess => Call::Process(create(arguments)),
        GetProcessId => Call::Process(get_id(arguments)),
        GetProcessStatus => Call::Process(get_status(arguments)),
        InitializeProcessCoreAffinity => Call::Process(kind_service(
            arguments,
            ProcessService::InitializeCoreAffinity(number as u8),
        )),
        SetPriority => Call::Process(kind_service(
            arguments,
            ProcessService::SetPriority(number as u16),
        )),
        Start => Call::Process(kind_service(arguments, ProcessService::Start)),
        DelayedStart => Call::Process(kind_service(
            arguments,
            ProcessService::DelayedStart(timeout),
        )),
        Stop => Call::Process(kind_service(arguments, ProcessService::Stop)),
        Suspend => Call::Process(kind_service(arguments, ProcessService::Suspend)),
        Resume => Call::Process(kind_service(arguments, ProcessService::Resume)),
        StopSelf => Call::Caller(CallerCall::StopSelf),
        SuspendSelf => Call::Caller(CallerCall::SuspendSelf(timeout)),
        GetMyId => Call::Caller(CallerCall::GetMyId),
        GetMyProcessorCoreId => Call::Caller(CallerCall::GetMyProcessorCoreId),
        TimedWait => Call::Time(TimeCall::TimedWait(timeout)),
        PeriodicWait => Call::Time(TimeCall::PeriodicWait),
        Replenish => Call::Time(TimeCall::Replenish(Span::of(number))),
        GetTime => Call::Time(TimeCall::GetTime),
        Work => Call::Work(Span::of(number)),
        CreateSemaphore => Call::Semaphore(create(arguments)),
        GetSemaphoreId => Call::Semaphore(get_id(arguments)),
        GetSemaphoreStatus => Call::Semaphore(get_status(arguments)),
        WaitSemaphore => Call::Semaphore(kind_service(arguments, SemaphoreService::Wait(timeout))),
        SignalSemaphore => Call::Semaphore(kind_service(arguments, SemaphoreService::Signal)),
        CreateBuffer => Call::Buffer(create(arguments)),
        GetBufferId => Call::Buffer(get_id(arguments)),
        GetBufferStatus => Call::Buffer(get_status(arguments)),
        SendBuffer => Call::Buffer(kind_service(arguments, BufferService::Send(message, timeout))),
        ReceiveBuffer => Call::Buffer(kind_service(arguments, BufferService::Receive(timeout))),
        CreateBlackboard => Call::Blackboard(create(arguments)),
        GetBlackboardId => Call::Blackboard(get_id(arguments)),
        GetBlackboardStatus => Call::Blackboard(get_status(arguments)),
        DisplayBlackboard => Call::Blackboard(kind_service(
            arguments,
            BlackboardService::Display(message),
        )),
        ReadBlackboard => Call::Blackboard(kind_service(
            arguments,
            BlackboardService::Read(timeout),
        )),
        ClearBlackboard => Call::Blackboard(kind_service(arguments, BlackboardService::Clear)),
        CreateEvent => Call::EventFlag(create(arguments)),
        GetEventId => Call::EventFlag(get_id(arguments)),
        GetEventStatus => Call::EventFlag(get_status(arguments)),
        SetEvent => Call::EventFlag(kind_service(arguments, EventFlagService::Set)),
        ResetEvent => Call::EventFlag(kind_service(arguments, EventFlagService::Reset)),
        WaitEvent => Call::EventFlag(kind_service(arguments, EventFlagService::Wait(timeout))),
        CreateMutex => Call::Mutex(create(arguments)),
        GetMutexId => Call::Mutex(get_id(arguments)),
        GetMutexStatus => Call::Mutex(get_status(arguments)),
        AcquireMutex => Call::Mutex(kind_service(arguments, MutexService::Acquire(timeout))),
        ReleaseMutex => Call::Mutex(kind_service(arguments, MutexService::Release)),
    }
}

fn process_service_parts(service: &ProcessService, entry: Arguments) -> (Service, Arguments)
    ensures { result ≡ process_service_parts service.now entry }
{
    match service {
        ProcessService::InitializeCoreAffinity(core) => (
            Service::InitializeProcessCoreAffinity,
            entry.numbered(u32::from(*core)),
        ),
        ProcessService::SetPriority(priority) => (
            Service::SetPriority,
            entry.numbered(u32::from(*priority)),
        ),
        ProcessService::Start => (Service::Start, entry),
        ProcessService::DelayedStart(timeout) => (Service::DelayedStart, entry.timed(timeout)),
        ProcessService::Stop => (Service::Stop, entry),
        ProcessService::Suspend => (Service::Suspend, entry),
        ProcessService::Resume => (Service::Resume, entry),
    }
}

fn process_parts(call: &ProcessCall) -> (Service, Arguments)
    ensures { result ≡ process_parts call.now }
{
    match call {
        ObjectCall::Create(named) => (Service::CreateProcess, Arguments::of_named(named)),
        ObjectCall::GetId(named) => (Service::GetProcessId, Arguments::of_named(named)),
        ObjectCall::GetStatus(id) => (Service::GetProcessStatus, Arguments::of_entry(*id)),
        ObjectCall::KindService(id, service) => process_service_parts(
            service,
            Arguments::of_entry(*id),
        ),
    }
}

fn semaphore_service_parts(service: &SemaphoreService, entry: Arguments) -> (Service, Arguments)
    ensures { result ≡ semaphore_service_parts service.now entry }
{
    match service {
        SemaphoreService::Wait(timeout) => (Service::WaitSemaphore, entry.timed(timeout)),
        SemaphoreService::Signal => (Service::SignalSemaphore, entry),
    }
}

fn semaphore_parts(call: &SemaphoreCall) -> (Service, Arguments)
    ensures { result ≡ semaphore_parts call.now }
{
    match call {
        ObjectCall::Create(named) => (Service::CreateSemaphore, Arguments::of_named(named)),
        ObjectCall::GetId(named) => (Service::GetSemaphoreId, Arguments::of_named(named)),
        ObjectCall::GetStatus(id) => (Service::GetSemaphoreStatus, Arguments::of_entry(*id)),
        ObjectCall::KindService(id, service) => semaphore_service_parts(
            service,
            Arguments::of_entry(*id),
        ),
    }
}

fn buffer_service_parts(service: &BufferService, entry: Arguments) -> (Service, Arguments)
    ensures { result ≡ buffer_service_parts service.now entry }
{
    match service {
        BufferService::Send(message, timeout) => (
            Service::SendBuffer,
            entry.with_message(message).timed(timeout),
        ),
        BufferService::Receive(timeout) => (Service::ReceiveBuffer, entry.timed(timeout)),
    }
}

fn buffer_parts(call: &BufferCall) -> (Service, Arguments)
    ensures { result ≡ buffer_parts call.now }
{
    match call {
        ObjectCall::Create(named) => (Service::CreateBuffer, Arguments::of_named(named)),
        ObjectCall::GetId(named) => (Service::GetBufferId, Arguments::of_named(named)),
        ObjectCall::GetStatus(id) => (Service::GetBufferStatus, Arguments::of_entry(*id)),
        ObjectCall::KindService(id, service) => buffer_service_parts(
            service,
            Arguments::of_entry(*id),
        ),
    }
}

fn blackboard_service_parts(service: &BlackboardService, entry: Arguments) -> (Service, Arguments)
    ensures { result ≡ blackboard_service_parts service.now entry }
{
    match service {
        BlackboardService::Display(message) => (
            Service::DisplayBlackboard,
            entry.with_message(message),
        ),
        BlackboardService::Read(timeout) => (Service::ReadBlackboard, entry.timed(timeout)),
        BlackboardService::Clear => (Service::ClearBlackboard, entry),
    }
}

fn blackboard_parts(call: &BlackboardCall) -> (Service, Arguments)
    ensures { result ≡ blackboard_parts call.now }
{
    match call {
        ObjectCall::Create(named) => (Service::CreateBlackboard, Arguments::of_named(named)),
        ObjectCall::GetId(named) => (Service::GetBlackboardId, Arguments::of_named(named)),
        ObjectCall::GetStatus(id) => (Service::GetBlackboardStatus, Arguments::of_entry(*id)),
        ObjectCall::KindService(id, service) => blackboard_service_parts(
            service,
            Arguments::of_entry(*id),
        ),
    }
}

fn event_flag_service_parts(service: &EventFlagService, entry: Arguments) -> (Service, Arguments)
    ensures { result ≡ event_flag_service_parts service.now entry }
{
    match service {
        EventFlagService::Set => (Service::SetEvent, entry),
        EventFlagService::Reset => (Service::ResetEvent, entry),
        EventFlagService::Wait(timeout) => (Service::WaitEvent, entry.timed(timeout)),
    }
}

fn event_flag_parts(call: &EventFlagCall) -> (Service, Arguments)
    ensures { result ≡ event_flag_parts call.now }
{
    match call {
        ObjectCall::Create(named) => (Service::CreateEvent, Arguments::of_named(named)),
        ObjectCall::GetId(named) => (Service::GetEventId, Arguments::of_named(named)),
        ObjectCall::GetStatus(id) => (Service::GetEventStatus, Arguments::of_entry(*id)),
        ObjectCall::KindService(id, service) => event_flag_service_parts(
            service,
            Arguments::of_entry(*id),
        ),
    }
}

fn mutex_service_parts(service: &MutexService, entry: Arguments) -> (Service, Arguments)
    ensures { result ≡ mutex_service_parts service.now entry }
{
    match service {
        MutexService::Acquire(timeout) => (Service::AcquireMutex, entry.timed(timeout)),
        MutexService::Release => (Service::ReleaseMutex, entry),
    }
}

fn mutex_parts(call: &MutexCall) -> (Service, Arguments)
    ensures { result ≡ mutex_parts call.now }
{
    match call {
        ObjectCall::Create(named) => (Service::CreateMutex, Arguments::of_named(named)),
        ObjectCall::GetId(named) => (Service::GetMutexId, Arguments::of_named(named)),
        ObjectCall::GetStatus(id) => (Service::GetMutexStatus, Arguments::of_entry(*id)),
        ObjectCall::KindService(id, service) => mutex_service_parts(
            service,
            Arguments::of_entry(*id),
        ),
    }
}

fn partition_parts(call: &PartitionCall) -> (Service, Arguments)
    ensures { result ≡ partition_parts call.now }
{
    let none = Arguments::none();
    match call {
        PartitionCall::SetPartitionMode(mode) => (Service::SetPartitionMode, none.with_mode(mode)),
        PartitionCall::GetPartitionStatus => (Service::GetPartitionStatus, none),
    }
}

fn caller_parts(call: &CallerCall) -> (Service, Arguments)
    ensures { result ≡ caller_parts call.now }
{
    let none = Arguments::none();
    match call {
        CallerCall::StopSelf => (Service::StopSelf, none),
        CallerCall::SuspendSelf(timeout) => (Service::SuspendSelf, none.timed(timeout)),
        CallerCall::GetMyId => (Service::GetMyId, none),
        CallerCall::GetMyProcessorCoreId => (Service::GetMyProcessorCoreId, none),
    }
}

fn time_parts(call: &TimeCall) -> (Service, Arguments)
    ensures { result ≡ time_parts call.now }
{
    let none = Arguments::none();
    match call {
        TimeCall::TimedWait(timeout) => (Service::TimedWait, none.timed(timeout)),
        TimeCall::PeriodicWait => (Service::PeriodicWait, none),
        TimeCall::Replenish(budget) => (Service::Replenish, none.numbered(budget.ticks())),
        TimeCall::GetTime => (Service::GetTime, none),
    }
}

/// The service that a call asks for, and its arguments, of which the call is.
#[tactic(auto, using(crate::proofs::CallBack::call_back))]
pub fn parts_of(call: &Call) -> (Service, Arguments)
    ensures parts { result ≡ parts_of call.now }
    ensures back { call_of result.0 result.1 ≡ call.now }
{
    match call {
        Call::Partition(call) => partition_parts(call),
        Call::Process(call) => process_parts(call),
        Call::Caller(call) => caller_parts(call),
        Call::Time(call) => time_parts(call),
        Call::Semaphore(call) => semaphore_parts(call),
        Call::Buffer(call) => buffer_parts(call),
        Call::Blackboard(call) => blackboard_parts(call),
        Call::EventFlag(call) => event_flag_parts(call),
        Call::Mutex(call) => mutex_parts(call),
        Call::Work(amount) => (Service::Work, Arguments::none().numbered(amount.ticks())),
    }
}
