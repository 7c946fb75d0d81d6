//! A device in memory to write on.
use apex_history::FailAt;
use std::alloc::Global;
use std::process::Abort;

/// An empty device with room for `room` bytes, whose call of this number fails.
pub fn paper<R: Abort>(rt: &R, alloc: Global, room: usize, call: u64) -> FailAt {
    let bytes = Vec::with_capacity(alloc, room).expect(rt, "memory");
    FailAt::new(bytes, call)
}
