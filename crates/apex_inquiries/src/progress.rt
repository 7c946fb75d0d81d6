//! The line of how far a long search has come.

use apex_explore::Watch;
use std::io::{IsTerminal, Result as IoResult, Stderr, Write};
use std::time::{Clock, Instant};

/// The seconds that pass before the first line, and between two lines.
const PAUSE: u64 = 1;

/// What erases the line of a terminal.
const ERASED: &str = "\r\x1b[K";

/// Shows on a terminal how far a search has come: its states, its depth and its rate, in a line that
/// is written anew each second.
#[derive(Drop)]
pub struct Progress<'r, C> {
    clock: &'r C,
    /// The error writer if it is a terminal, and the clock can be read.
    line: Option<Line>,
}

/// The line, and when the search began.
#[derive(Drop)]
struct Line {
    terminal: Stderr,
    begun: Instant,
    written: Option<Instant>,
}

impl Line {
    /// Writes the line if it is time for one.
    fn write(&mut self, now: Instant, states: usize, depth: usize) -> IoResult<()> {
        let last = self.written.unwrap_or(self.begun);
        if now.duration_since(last).as_secs() < PAUSE {
            return Ok(());
        }
        self.written = Some(now);
        let seconds = now.duration_since(self.begun).as_secs().max(1);
        let rate = states as u64 / seconds;
        write!(
            self.terminal,
            "{ERASED}apex_lab: {states} states, depth {depth}, {rate} a second"
        )
    }

    /// Erases the line if there is one.
    fn erase(&mut self) -> IoResult<()> {
        match self.written.take() {
            Some(_) => self.terminal.write_all(ERASED.as_bytes()),
            None => Ok(()),
        }
    }
}

impl<'r, C: Clock> Progress<'r, C> {
    /// Begins to count the time. Nothing is shown if the error writer is no terminal.
    pub fn new(clock: &'r C, stderr: Stderr) -> Progress<'r, C> {
        let line = match Instant::now(clock) {
            Ok(begun) if stderr.is_terminal() => Some(Line {
                terminal: stderr,
                begun,
                written: None,
            }),
            _ => None,
        };
        Progress { clock, line }
    }

    /// Erases the line. A terminal that can't be written is left as it is.
    pub fn clear(&mut self) {
        if let Some(line) = &mut self.line {
            let _ = line.erase();
        }
    }
}

impl<'r, C: Clock> Watch for Progress<'r, C> {
    fn reached(&mut self, states: usize, depth: usize) {
        let Some(line) = &mut self.line else {
            return;
        };
        if let Ok(now) = Instant::now(self.clock) {
            let _ = line.write(now, states, depth);
        }
    }
}
