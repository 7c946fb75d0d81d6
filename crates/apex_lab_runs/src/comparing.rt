//! The comparison of what the runs write with what the files say.
use crate::desks::{Written, make};
use crate::runs::{Output, Run};
use apex_inquiries::Progress;
use std::alloc::AllocGlobal;
use std::mem::drop;
use std::thread::Threads;
use std::time::Clock;
use std::{io, str};

/// How many runs were made.
#[derive(Clone, Copy)]
pub struct Counts {
    /// The number of runs.
    runs: usize,
    /// The number of those that write something else, or end with another status.
    differing: usize,
}

/// Whether the text has a part as often as the line says: `times N PART`.
fn has_times(text: &str, line: &str) -> bool {
    let said = line.strip_prefix("times ");
    match said.and_then(|said| said.split_once(' ')) {
        Some((times, part)) => times.parse::<usize>() == Ok(text.split(part).count() - 1),
        None => false,
    }
}

/// Whether the text has the parts of these lines: that of a line `part PART` behind that of the line
/// before it, and that of a line `times N PART` N times.
fn has_parts(text: &str, lines: &str) -> bool {
    let mut rest = text;
    for line in lines.lines() {
        if let Some(part) = line.strip_prefix("part ") {
            match rest.split_once(part) {
                Some((_, behind)) => rest = behind,
                None => return false,
            }
        } else if !has_times(text, line) {
            return false;
        }
    }
    true
}

/// Whether these bytes were to be written on standard output.
fn is_output(said: &Output<'_>, written: &[u8]) -> bool {
    match *said {
        Output::Whole(text) => text.as_bytes() == written,
        Output::Prefix(text) => text.as_bytes().starts_with(written),
        Output::Parts(lines) => match str::from_utf8(written) {
            Ok(text) => has_parts(text, lines),
            Err(_) => false,
        },
    }
}

/// Whether the run wrote what its text says, and ended with its status.
fn is_as_said(run: &Run<'_>, written: &Written) -> bool {
    run.status.parse::<u8>() == Ok(written.status)
        && is_output(&run.output, written.output.held())
        && run.error.as_bytes() == written.error.held()
}

/// Prints what the run wrote.
fn show<R: Print + AllocGlobal>(rt: &R, title: &str, written: &Written) -> io::Result<()> {
    let status = written.status;
    let output = str::from_utf8(written.output.held()).unwrap_or("no text");
    let error = str::from_utf8(written.error.held()).unwrap_or("no text");
    println!(rt; "run {title}\nanswer {status}\n{output}{error}")
}

impl Counts {
    /// No run was made.
    pub fn new() -> Counts {
        Counts {
            runs: 0,
            differing: 0,
        }
    }

    /// Makes a run with this input, and shows what it wrote if that is not as it should be.
    fn add<R>(
        &mut self,
        rt: &R,
        progress: &mut Progress<'_, R>,
        run: &Run<'_>,
        input: &str,
    ) -> io::Result<()>
    where
        R: Threads + Sync + Clock + Print + AllocGlobal,
    {
        let written = make(rt, progress, run, input)?;
        self.runs = self.runs.saturating_add(1);
        if is_as_said(run, &written) {
            return Ok(());
        }
        self.differing = self.differing.saturating_add(1);
        let shown = show(rt, run.title, &written);
        drop(written);
        shown
    }

    /// Makes all runs of a file's text. The text before the first run is a comment.
    pub fn add_all<R>(
        &mut self,
        rt: &R,
        progress: &mut Progress<'_, R>,
        text: &str,
    ) -> io::Result<()>
    where
        R: Threads + Sync + Clock + Print + AllocGlobal,
    {
        let mut input = "";
        let mut runs = text.split("\nrun ");
        runs.next();
        for text in runs {
            let run = Run::of(text);
            if !run.input.is_empty() {
                input = run.input;
            }
            self.add(rt, progress, &run, input)?;
        }
        Ok(())
    }

    /// Whether each run was as it should be.
    pub fn has_none_differing(&self) -> bool {
        self.differing == 0
    }

    /// Prints the counts.
    pub fn print<R: Print>(&self, rt: &R) -> io::Result<()> {
        let Counts { runs, differing } = *self;
        println!(rt; "{runs} runs; {differing} with another answer")
    }
}
