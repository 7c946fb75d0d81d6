//! The calls of the program that the cases are about, and their outcomes.
use crate::devices::Devices;

/// A call of the program.
#[derive(Clone, Copy)]
pub struct Request<'a> {
    /// The arguments, without the program's name; none if it had no memory to fetch them.
    pub arguments: Option<&'a [&'a str]>,
    /// The texts that it reads, one after the other.
    pub texts: [&'a str; 3],
    /// The place in them of the byte of which one bit is changed, if one is.
    pub changed: Option<usize>,
    /// The devices that it runs over.
    pub devices: Devices,
}

/// The outcome of a call of the program.
#[derive(Clone, Copy)]
pub struct Outcome<'a> {
    /// The bytes on standard output.
    pub output: &'a [u8],
    /// The bytes on standard error.
    pub error: &'a [u8],
    /// The exit status.
    pub status: u8,
    /// The number of its reads that failed.
    pub failed_reads: u64,
    /// The number of its writes on standard output that failed.
    pub failed_writes: u64,
}
