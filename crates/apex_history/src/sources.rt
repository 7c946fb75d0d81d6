//! Readers, which give bytes, and writers, which take them.
ghost use Rattle.std.specs.Prelude.{ℕ, List, Option, Result};
ghost use Rattle.std.specs.Io.{ReadsAtMost, WritesAtMost};
ghost use Rattle.std.specs.Io.KnownBytes.{Keeps, ReadConsumes, WriteAppends};
ghost use Rattle.std.specs.declared.io.Error.{Error};

use std::io::{Read, Result, Write};

/// A reader whose reads have known answers in contracts. Each `Read` is one that may answer
/// anything.
pub trait Source {
    // The bytes that are left, if they are known.
    ghost remaining: { Self → Option (List ℕ) };

    // The answers that a read may give: the reader and the buffer, the answer, and both afterwards.
    ghost gives: { Self → List ℕ → Result ℕ Error → List ℕ → Self → Type 0 };

    /// A read: puts bytes at the front of `buf`, and gives their number. 0 means the end, unless
    /// `buf` has no byte.
    fn give(&mut self, buf: &mut [u8]) -> Result<usize>
        ensures bound { ReadsAtMost result buf.new }
        ensures bytes { ReadConsumes (remaining self.old) (remaining self.new) result buf.new }
        ensures gives { gives self.old buf.old result buf.new self.new };
}

/// A writer whose writes and flushes have known answers in contracts. Each `Write` is one that may
/// answer anything.
pub trait Sink {
    // The bytes that it holds, if they are known.
    ghost contents: { Self → Option (List ℕ) };

    // The answers that a write may give: the writer and the bytes, the answer, and the writer
    // afterwards.
    ghost accepts: { Self → List ℕ → Result ℕ Error → Self → Type 0 };

    // The answers that a flush may give.
    ghost drains: { Self → Result (Unit {0}) Error → Self → Type 0 };

    /// A write: takes bytes from the front of `buf`, and gives their number, which may be less than
    /// all.
    fn accept(&mut self, buf: &[u8]) -> Result<usize>
        ensures bound { WritesAtMost result buf.now }
        ensures bytes { WriteAppends (contents self.old) (contents self.new) result buf.now }
        ensures accepts { accepts self.old buf.now result self.new };

    /// A flush of what was taken.
    fn drain(&mut self) -> Result<()>
        ensures bytes { Keeps (contents self.old) (contents self.new) }
        ensures drains { drains self.old result self.new };
}

impl<R: Read> Source for R {
    ghost remaining = { R.remaining };

    ghost gives = { λ _ _ _ _ _. Unit {0} };

    fn give(&mut self, buf: &mut [u8]) -> Result<usize> {
        self.read(buf)
    }
}

impl<W: Write> Sink for W {
    ghost contents = { W.contents };

    ghost accepts = { λ _ _ _ _. Unit {0} };

    ghost drains = { λ _ _ _. Unit {0} };

    fn accept(&mut self, buf: &[u8]) -> Result<usize> {
        self.write(buf)
    }

    fn drain(&mut self) -> Result<()> {
        self.flush()
    }
}
