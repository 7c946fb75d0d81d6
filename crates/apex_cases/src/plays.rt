//! The program `apex` over devices in memory.
use apex_case_player::{
    Attempt, Case, CaseFault, Entry, Outcome, Plan, Report, Request, Written, unfolded,
};
use apex_cli::serve;
use apex_console::CliFault;
use apex_history::{Counted, FailAt, Source};
use std::alloc::{AllocError, Global};
use std::io::{self, Read};
use std::mem::drop;
use std::sync::Wait;
use std::thread::Threads;

/// Room on standard error for each line of a fault, in bytes.
const FAULT_ROOM: usize = 256;

/// A reader over memory that gives `gives` bytes at a time at most.
#[derive(Drop)]
struct Narrow {
    device: FailAt,
    gives: usize,
}

impl Read for Narrow {
    fn read(&mut self, buf: &mut [u8]) -> io::Result<usize> {
        let most = buf.len().min(self.gives);
        self.device.give(&mut buf[..most])
    }
}

/// The bytes that the program reads.
fn bytes_of(alloc: Global, request: &Request<'_>) -> Result<Vec<u8>, AllocError> {
    let mut bytes = Vec::new(alloc);
    for text in &request.texts {
        bytes.extend_from_slice(text.as_bytes())?;
    }
    if let Some(at) = request.changed {
        if let Some(byte) = bytes.get_mut(at) {
            *byte ^= 1;
        }
    }
    Ok(bytes)
}

/// The program's name and these arguments.
fn arguments_with_name(alloc: Global, given: &[&str]) -> Result<Vec<String>, AllocError> {
    let mut arguments = Vec::new(alloc);
    arguments.push(String::from_str(alloc, "apex")?)?;
    for argument in given {
        arguments.push(String::from_str(alloc, argument)?)?;
    }
    Ok(arguments)
}

/// The program's name and its arguments; `Memory` if it had no memory to fetch them.
fn arguments_of(alloc: Global, request: &Request<'_>) -> Result<Vec<String>, CliFault> {
    match request.arguments {
        Some(given) => Ok(arguments_with_name(alloc, given)?),
        None => Err(CliFault::Memory),
    }
}

/// A device with this room, of which the write of this number fails.
fn paper(alloc: Global, room: usize, failing: u64) -> Result<Counted<FailAt>, AllocError> {
    let bytes = Vec::with_capacity(alloc, room)?;
    Ok(Counted::new(FailAt::new(bytes, failing)))
}

/// The devices in memory of a call of the program.
#[derive(Drop)]
struct Desk {
    reader: Counted<Narrow>,
    writer: Counted<FailAt>,
    error_writer: Counted<FailAt>,
}

impl Desk {
    fn new(alloc: Global, request: &Request<'_>) -> Result<Desk, AllocError> {
        let devices = request.devices;
        Ok(Desk {
            writer: paper(alloc, devices.room, devices.failing_write)?,
            error_writer: paper(alloc, FAULT_ROOM, devices.failing_error)?,
            reader: Counted::new(Narrow {
                device: FailAt::new(bytes_of(alloc, request)?, devices.failing_read),
                gives: devices.gives,
            }),
        })
    }

    /// Has the outcome of the call, which ended with this status, judged. Whether the lines that
    /// the program wrote are to be checked.
    fn judge(self, report: &mut Report, case: &mut Case<'_>, attempt: Attempt, status: u8) -> bool {
        let (failed_reads, failed_writes) = (self.reader.failures(), self.writer.failures());
        let output = self.writer.into_inner();
        let error = self.error_writer.into_inner();
        let outcome = Outcome {
            output: output.held(),
            error: error.held(),
            status,
            failed_reads,
            failed_writes,
        };
        let is_to_check = case.judge(report, attempt, &outcome);
        drop(output);
        drop(error);
        is_to_check
    }
}

/// Makes an attempt of a case, and has its outcome judged. Whether the lines that the program wrote
/// are to be checked.
fn attempt_once<R: Threads + Wait + Sync>(
    rt: &R,
    alloc: Global,
    report: &mut Report,
    case: &mut Case<'_>,
    attempt: Attempt,
) -> Result<bool, AllocError> {
    let request = case.request(attempt);
    let mut desk = Desk::new(alloc, &request)?;
    let status = serve(
        rt,
        alloc,
        arguments_of(alloc, &request),
        &mut desk.reader,
        &mut desk.writer,
        &mut desk.error_writer,
    );
    Ok(desk.judge(report, case, attempt, status))
}

/// Makes an attempt of a case, and has the lines that the program wrote checked if they are to be.
fn attempt_whole<R: Threads + Wait + Sync>(
    rt: &R,
    alloc: Global,
    report: &mut Report,
    case: &mut Case<'_>,
    attempt: Attempt,
) -> Result<(), AllocError> {
    if attempt_once(rt, alloc, report, case, attempt)? {
        attempt_once(rt, alloc, report, case, Attempt::Check)?;
    }
    Ok(())
}

/// Makes the attempts of a case, until one is not as it should be.
fn attempt_all<R: Threads + Wait + Sync>(
    rt: &R,
    alloc: Global,
    report: &mut Report,
    case: &mut Case<'_>,
) {
    let attempts = case.attempts(alloc, report);
    for attempt in attempts.as_slice() {
        if report.fault().is_none() && attempt_whole(rt, alloc, report, case, *attempt).is_err() {
            report.blame(CaseFault::Memory);
        }
    }
    drop(attempts);
}

/// Plays a case.
fn play<R: Threads + Wait + Sync>(
    rt: &R,
    alloc: Global,
    report: &mut Report,
    written: &Written<'_>,
) {
    let text = unfolded(alloc, written.lines);
    let mut case = Case::of(alloc, report, written.kind, &text);
    attempt_all(rt, alloc, report, &mut case);
    case.end(report, written);
    drop(case);
    drop(text);
}

/// Plays what is planned, and reports the totals; `Memory` if the plan lacks something.
pub fn play_all<R: Threads + Wait + Sync>(
    rt: &R,
    alloc: Global,
    report: &mut Report,
    plan: &Plan<'_>,
) -> Result<(), CaseFault> {
    for entry in plan.entries()? {
        match entry {
            Entry::Case(written) => play(rt, alloc, report, written),
            Entry::Examples => report.total_of_examples(),
            Entry::Readings(example) => report.total_of_readings(example),
        }
    }
    Ok(())
}
