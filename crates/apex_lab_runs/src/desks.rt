//! The devices in memory of a run.
use crate::runs::Run;
use apex_history::{Counted, FailAt};
use apex_inquiries::Progress;
use apex_lab_cli::serve;
use std::alloc::{AllocError, AllocGlobal, Global};
use std::thread::Threads;
use std::time::Clock;

/// Room on standard output, in bytes.
const OUTPUT_ROOM: usize = 1_048_576;

/// Room on standard error, in bytes.
const ERROR_ROOM: usize = 512;

/// The bytes that a run has written, and its exit status.
#[derive(Drop)]
pub struct Written {
    pub output: FailAt,
    pub error: FailAt,
    pub status: u8,
}

/// The program's name and the arguments of the run.
fn arguments_of(alloc: Global, run: &Run<'_>) -> Result<Vec<String>, AllocError> {
    let mut arguments = Vec::new(alloc);
    arguments.push(String::from_str(alloc, "apex_lab")?)?;
    for word in run.words.split(' ') {
        arguments.push(String::from_str(alloc, word)?)?;
    }
    if let Some(word) = run.word {
        arguments.push(String::from_str(alloc, word)?)?;
    }
    Ok(arguments)
}

/// The numbers of the read and of the call of standard output that fail; 0 if none fails, or if it is
/// no number.
fn failing_of(run: &Run<'_>) -> (u64, u64) {
    let (read, write) = match run.failing {
        Some(numbers) => numbers.split_once(' ').unwrap_or(("", "")),
        None => ("", ""),
    };
    (read.parse().unwrap_or(0), write.parse().unwrap_or(0))
}

/// A device that holds these bytes, and whose call of this number fails.
fn sheet(alloc: Global, text: &str, failing: u64) -> Result<Counted<FailAt>, AllocError> {
    let mut bytes = Vec::new(alloc);
    bytes.extend_from_slice(text.as_bytes())?;
    Ok(Counted::new(FailAt::new(bytes, failing)))
}

/// A device with room for this many bytes, whose call of this number fails.
fn paper(alloc: Global, room: usize, failing: u64) -> Result<Counted<FailAt>, AllocError> {
    let bytes = Vec::with_capacity(alloc, room)?;
    Ok(Counted::new(FailAt::new(bytes, failing)))
}

/// Makes the run, with this input.
pub fn make<R>(
    rt: &R,
    progress: &mut Progress<'_, R>,
    run: &Run<'_>,
    input: &str,
) -> Result<Written, AllocError>
where
    R: Threads + Sync + Clock + AllocGlobal,
{
    let alloc = rt.alloc();
    let arguments = arguments_of(alloc, run)?;
    let (failing_read, failing_write) = failing_of(run);
    let mut reader = sheet(alloc, input, failing_read)?;
    let mut writer = paper(alloc, OUTPUT_ROOM, failing_write)?;
    let mut error_writer = paper(alloc, ERROR_ROOM, 0)?;
    let status = serve(
        rt,
        progress,
        alloc,
        Ok(arguments),
        &mut reader,
        &mut writer,
        &mut error_writer,
    );
    Ok(Written {
        output: writer.into_inner(),
        error: error_writer.into_inner(),
        status,
    })
}
