//! The program `apex_lab_runs`: makes each run of `apex_lab` that the files of its arguments have, and
//! compares what it writes with what the file says.
#![tactic(auto)]

mod comparing;
mod desks;
mod runs;

use crate::comparing::Counts;
use apex_console::given_words;
use apex_inquiries::Progress;
use std::alloc::AllocGlobal;
use std::fs::Files;
use std::mem::drop;
use std::process::ExitCode;
use std::thread::Threads;
use std::time::Clock;
use std::{fs, io};

/// Makes the runs of all files, and prints how many there are.
fn compare_all<R>(rt: &R, progress: &mut Progress<'_, R>, files: &[String]) -> io::Result<bool>
where
    R: Files + Threads + Sync + Clock + Print + AllocGlobal,
{
    let mut counts = Counts::new();
    for file in files {
        let text = fs::read_to_string(rt, file.as_str())?;
        let added = counts.add_all(rt, progress, text.as_str());
        drop(text);
        added?;
    }
    counts.print(rt)?;
    Ok(counts.has_none_differing())
}

fn main(rt: HostRuntime) -> io::Result<ExitCode> {
    let words = match given_words(&rt) {
        Ok(words) => words,
        Err(_) => {
            // The status shows the fault even if its line cannot be written.
            let _ = eprintln!(rt; "apex_lab_runs: no arguments");
            return Ok(ExitCode::from(2));
        }
    };
    let files = words.as_slice().get(1..).unwrap_or(&[]);
    let mut progress = Progress::new(&rt, rt.stderr());
    if compare_all(&rt, &mut progress, files)? {
        Ok(ExitCode::SUCCESS)
    } else {
        Ok(ExitCode::FAILURE)
    }
}
