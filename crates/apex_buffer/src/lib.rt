//! The services of buffers (ARINC 653 Part 1, intrapartition communication), over any store.
//!
//! A buffer is an object of its kind. Its messages are named by the steps that give them, so no
//! bytes are copied. The queue of a buffer holds receivers or senders.
#![tactic(auto)]

mod buffers;

pub use buffers::Buffer;
