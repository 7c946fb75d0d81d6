//! The tests of partitions that threads share: seats, receipts, gates, refused threads, and
//! contention. It has no code of its own.
#![tactic(auto)]

#[cfg(test)]
mod closings;
#[cfg(test)]
mod cores;
#[cfg(test)]
mod openings;
#[cfg(test)]
mod partition;
#[cfg(test)]
mod steps;
#[cfg(test)]
mod tables;
