//! The devices that the program runs over in a case.
use crate::reports::Report;

/// Room on standard output for the longest history of the cases, in bytes; also the most bytes that
/// a read gives.
pub(crate) const AMPLE: usize = 16_777_216;

/// Room on standard output for a verdict, or for the line of one turn.
pub(crate) const BRIEF: usize = 16_384;

/// The limits of a case's devices, and the numbers of the calls that fail, counted from 1; at 0
/// none fails.
#[derive(Clone, Copy)]
pub struct Devices {
    /// The read that fails.
    pub failing_read: u64,
    /// The most bytes that a read gives.
    pub gives: usize,
    /// The write on standard output that fails.
    pub failing_write: u64,
    /// The number of bytes for which standard output has room.
    pub room: usize,
    /// The write on standard error that fails.
    pub failing_error: u64,
}

impl Devices {
    /// Devices of which no call fails, with this room on standard output.
    pub(crate) fn sound(room: usize) -> Devices {
        Devices {
            failing_read: 0,
            gives: AMPLE,
            failing_write: 0,
            room,
            failing_error: 0,
        }
    }

    /// Takes a line about the devices; whether it is one.
    pub(crate) fn put(&mut self, report: &mut Report, field: &str, rest: &str) -> bool {
        match field {
            "gives" => self.gives = report.number_of(rest) as usize,
            "room" => self.room = report.number_of(rest) as usize,
            "mute" => self.failing_error = 1,
            _ => return false,
        }
        true
    }
}
