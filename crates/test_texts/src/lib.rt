//! Tests of the crates of texts and streams: sources and sinks, lines and words, lines that are written and read, audits, and
//! tasks with their responses. They stand apart, so that they are proved without proving those crates again.
#![tactic(auto)]

#[cfg(test)]
mod audits;
#[cfg(test)]
mod differences;
#[cfg(test)]
mod fixed;
#[cfg(test)]
mod in_memory;
#[cfg(test)]
mod lines;
#[cfg(test)]
mod responses;
#[cfg(test)]
mod std_edge;
#[cfg(test)]
mod tasks;
#[cfg(test)]
mod traces;
