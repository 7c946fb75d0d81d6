//! A writer of which a call fails, and the count of its failures.

use crate::papers::paper;
use apex_history::{Counted, FailAt};
use std::io::{self, ErrorKind, Write};
use std::process::Abort;

/// The kind of a call's failure, if it failed.
fn failure_of(call: io::Result<()>) -> Option<ErrorKind> {
    match call {
        Ok(()) => None,
        Err(error) => Some(error.kind()),
    }
}

/// Of the calls of the writer, which has room for five bytes, the second one fails, and the one
/// that finds too little room.
fn fail_twice<R: Abort>(rt: &R, writer: &mut Counted<&mut FailAt>) {
    assert!(rt; failure_of(writer.write_all(b"ab")).is_none());
    assert!(rt; failure_of(writer.flush()).is_some() && writer.failures() == 1);
    assert!(rt; failure_of(writer.flush()).is_none());
    assert!(rt; failure_of(writer.write_all(b"")).is_none());
    let failure = failure_of(writer.write_all(b"cdef"));
    assert!(rt; failure == Some(ErrorKind::WriteZero) && writer.failures() == 2);
}

#[test]
fn failed_writes_are_counted(rt: HostRuntime) {
    let mut paper = paper(&rt, rt.alloc(), 5, 2);
    fail_twice(&rt, &mut Counted::new(&mut paper));
    assert!(rt; paper.held() == b"abcde".as_slice());
}
