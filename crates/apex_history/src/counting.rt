//! A reader or writer that counts its failures.
ghost use Rattle.std.specs.Prelude.{◌≡◌, ℕ, ◌-◌, ◌^◌, ◌<◌, List, Option, length, IfErr, IfOk, IsErr, OnOk, OnErr};
ghost use Rattle.std.specs.Io.{ReadsAtMost, WritesAtMost};
ghost use Rattle.std.specs.Io.KnownBytes.{Appends, Keeps, ReadConsumes, WriteAppends};
ghost use Rattle.apex_history.specs.Counted.{inner_of, failures_of, reads_left_of, one_more, CountsFailure, Tells, Writes, AppendsBeginning, IsOfWrite};

use crate::sources::{Sink, Source};
use std::io::{Error, ErrorKind, Read, Result, Write};

/// The number of reads that a counted reader lets through.
const READS: u64 = 4_294_967_296;

/// A reader or writer that counts the calls of `T` that failed.
///
/// A write of one byte or more that takes none has failed. 4,294,967,296 reads are let through:
/// each later one fails, and counts as failed, without asking `T`, so a reader that never ends is
/// ended. The count stays at its greatest number once it has reached it.
#[derive(Drop)]
pub struct Counted<T> {
    inner: T,
    failures: u64,
    reads_left: u64,
}

impl<T> Counted<T> {
    /// Counts the failures of `inner` from none on.
    pub fn new(inner: T) -> Counted<T>
        ensures inner { inner_of result ≡ inner }
        ensures failures { failures_of result ≡ 0 }
        ensures reads { reads_left_of result ≡ 2 ^ 32 }
    {
        Counted {
            inner,
            failures: 0,
            reads_left: READS,
        }
    }

    /// The number of calls that failed so far.
    pub fn failures(&self) -> u64
        ensures { result ≡ failures_of self.now }
    {
        self.failures
    }

    /// The reader or writer itself, which is counted no longer.
    pub fn into_inner(self) -> T
        ensures { result ≡ inner_of self }
    {
        self.inner
    }

    fn count_failure(&mut self)
        ensures inner { inner_of self.new ≡ inner_of self.old }
        ensures failures { failures_of self.new ≡ one_more (failures_of self.old) }
        ensures reads { reads_left_of self.new ≡ reads_left_of self.old }
    {
        self.failures = self.failures.saturating_add(1);
    }
}

impl<R: Source> Read for Counted<R> {
    ghost remaining = { λ c. R.remaining (inner_of c) };

    fn read(&mut self, buf: &mut [u8]) -> Result<usize>
        ensures bound { ReadsAtMost result buf.new }
        ensures bytes { ReadConsumes (R.remaining (inner_of self.old))
            (R.remaining (inner_of self.new)) result buf.new }
        ensures counted { CountsFailure result (failures_of self.old) (failures_of self.new) }
        ensures reads { reads_left_of self.new ≡ reads_left_of self.old - 1 }

        // A read that is let through gives the answer of `T`.
        ensures given { 0 < reads_left_of self.old
            → R.gives (inner_of self.old) buf.old result buf.new (inner_of self.new) }

        // No further read is let through.
        ensures spent { reads_left_of self.old ≡ 0 → IsErr result }
        ensures unasked { reads_left_of self.old ≡ 0 → inner_of self.new ≡ inner_of self.old }
    {
        if self.reads_left == 0 {
            self.count_failure();
            return Err(Error::new(ErrorKind::Other, "too many reads"));
        }
        self.reads_left -= 1;
        let answer = self.inner.give(buf);
        if answer.is_err() {
            self.count_failure();
        }
        answer
    }
}

impl<W: Sink> Write for Counted<W> {
    ghost contents = { λ c. W.contents (inner_of c) };

    fn write(&mut self, buf: &[u8]) -> Result<usize>
        ensures bound { WritesAtMost result buf.now }
        ensures bytes { WriteAppends (W.contents (inner_of self.old))
            (W.contents (inner_of self.new)) result buf.now }
        ensures counted { CountsFailure result (failures_of self.old) (failures_of self.new) }
        ensures taken { IfOk result (λ n. 0 < length buf.now → 0 < n) }
        ensures given { Tells (λ answer. W.accepts (inner_of self.old) buf.now answer
            (inner_of self.new))
            buf.now result }
        ensures reads { reads_left_of self.new ≡ reads_left_of self.old }
    {
        let answer = match self.inner.accept(buf) {
            Ok(0) if !buf.is_empty() => Err(Error::new(
                ErrorKind::WriteZero,
                "a write took nothing",
            )),
            answer => answer,
        };
        if answer.is_err() {
            self.count_failure();
        }
        answer
    }

    fn flush(&mut self) -> Result<()>
        ensures bytes { Keeps (W.contents (inner_of self.old)) (W.contents (inner_of self.new)) }
        ensures given { W.drains (inner_of self.old) result (inner_of self.new) }
        ensures counted { CountsFailure result (failures_of self.old) (failures_of self.new) }
        ensures reads { reads_left_of self.new ≡ reads_left_of self.old }
    {
        let answer = self.inner.drain();
        if answer.is_err() {
            self.count_failure();
        }
        answer
    }

    /// Writes the bytes whole, or stops at the first write that fails.
    fn write_all(&mut self, buf: &[u8]) -> Result<()>
        ensures bytes { OnOk result
            (Appends (W.contents (inner_of self.old)) (W.contents (inner_of self.new)) buf.now) }
        ensures beginning { OnErr result
            (AppendsBeginning (W.contents (inner_of self.old))
            (W.contents (inner_of self.new)) buf.now) }
        ensures counted { CountsFailure result (failures_of self.old) (failures_of self.new) }
        ensures reads { reads_left_of self.new ≡ reads_left_of self.old }
        ensures given { Writes W.accepts (inner_of self.old) buf.now result (inner_of self.new) }
        ensures failed { IfErr result (IsOfWrite W.accepts (inner_of self.new)) }
    {
        let mut rest = buf;
        while !rest.is_empty() {
            let taken = self.write(rest)?;
            rest = &rest[taken..];
        }
        Ok(())
    }
}
