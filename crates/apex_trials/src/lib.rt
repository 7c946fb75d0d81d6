//! The tests of what no stored case and no run can show: how many records a turn looks at, the longest
//! line, a writer that fails, a search of a small system, sets of facts, input of bytes that are no text,
//! of very long lines or without a last line feed, the arguments as the system gives them, and the texts
//! of faults. It has no code of its own.
#![tactic(auto)]

#[cfg(test)]
mod departures;
#[cfg(test)]
mod devices;
#[cfg(test)]
mod facts;
#[cfg(test)]
mod given;
#[cfg(test)]
mod jugs;
#[cfg(test)]
mod lines;
#[cfg(test)]
mod papers;
#[cfg(test)]
mod scans;
#[cfg(test)]
mod steps;
#[cfg(test)]
mod texts;
