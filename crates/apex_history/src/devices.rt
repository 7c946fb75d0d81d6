//! Devices in memory for tests, of which a call that is known beforehand fails.
ghost use Rattle.std.specs.Prelude.{◌≡◌, ◌↔◌, Some, length, take, min, vec_capacity, IsErr};
ghost use Rattle.apex_history.specs.FailAt.{unread, called, FailsAt, Gives, Accepts, Drains};

use crate::sources::{Sink, Source};
use std::io::{Error, ErrorKind, Result};
use std::marker::Model;

/// A device for tests: a reader and writer over memory, one call of which fails; the number of this
/// call is known beforehand.
///
/// Reads take bytes from the front on. Writes append within the room that the memory had when the
/// device was made; a write that finds no room takes none.
#[derive(Drop)]
pub struct FailAt {
    bytes: Vec<u8>,
    room: usize,
    place: usize,
    fails_in: u64,
}

impl Model for FailAt {
    ghost use Rattle.std.specs.Prelude.{◌≤◌, vec_len, vec_capacity};
    ghost use Rattle.apex_history.specs.FailAt.{Device};

    ghost Value = { Device };

    ghost view = { λ a. record {
      bytes = a.bytes.items;
      room = a.room;
      place = a.place;
      fails_in = a.fails_in;
    } };

    ghost invariant = { λ a. (a.place ≤ vec_len a.bytes) × (vec_len a.bytes ≤ a.room)
        × (a.room ≤ vec_capacity a.bytes) };
}

impl FailAt {
    /// A device that holds these bytes, and whose call of this number fails, counted from 1. At 0
    /// none fails.
    pub fn new(bytes: Vec<u8>, call: u64) -> FailAt
        ensures bytes { result.bytes ≡ bytes.items }
        ensures room { result.room ≡ vec_capacity bytes }
        ensures place { result.place ≡ 0 }
        ensures call { result.fails_in ≡ call }
    {
        let room = bytes.capacity();
        FailAt {
            bytes,
            room,
            place: 0,
            fails_in: call,
        }
    }

    /// All the bytes that it holds, those that were read too.
    pub fn held(&self) -> &[u8]
        ensures { result.now ≡ self.now.bytes }
    {
        self.bytes.as_slice()
    }

    /// Makes one call more, which fails if it is the one that fails.
    fn call(&mut self) -> Result<()>
        ensures fails { FailsAt self.old result }
        ensures after { self.new ≡ called self.old }
    {
        let fails = self.fails_in == 1;
        self.fails_in = self.fails_in.saturating_sub(1);
        if fails {
            return Err(Error::new(ErrorKind::Other, "the call that fails"));
        }
        Ok(())
    }
}

/// Copies as many bytes as both slices have from the front of the one to the front of the other.
fn copy_front(to: &mut [u8], from: &[u8]) -> usize
    ensures amount { result ≡ min (length to.old) (length from.now) }
    ensures front { take result to.new ≡ take result from.now }
{
    let amount = from.len().min(to.len());
    to[..amount].copy_from_slice(&from[..amount]);
    amount
}

impl Source for FailAt {
    ghost remaining = { λ f. Some (unread f) };

    ghost gives = { λ old buf result _ new. Gives old buf result new };

    fn give(&mut self, buf: &mut [u8]) -> Result<usize> {
        self.call()?;
        let amount = copy_front(buf, &self.bytes[self.place..]);
        self.place += amount;
        Ok(amount)
    }
}

impl Sink for FailAt {
    ghost contents = { λ f. Some f.bytes };

    ghost accepts = { Accepts };

    ghost drains = { Drains };

    fn accept(&mut self, buf: &[u8]) -> Result<usize> {
        self.call()?;
        let amount = buf.len().min(self.room - self.bytes.len());
        let taken = self.bytes.extend_from_slice(&buf[..amount]);
        let fits = taken.is_ok();
        prove!(fits);
        Ok(amount)
    }

    fn drain(&mut self) -> Result<()> {
        self.call()
    }
}

impl Sink for &mut FailAt {
    ghost contents = { λ f. Some f.now.bytes };

    ghost accepts = { λ old buf result new. Accepts old.now buf result new.now };

    ghost drains = { λ old result new. Drains old.now result new.now };

    fn accept(&mut self, buf: &[u8]) -> Result<usize> {
        (**self).accept(buf)
    }

    fn drain(&mut self) -> Result<()> {
        (**self).drain()
    }
}
