//! Tests of the parts of the kernel, each public call of them once on its happy path: sets, lists, waiters, due ticks, queues, timers,
//! signals, a server and the table of threads. They stand apart, so that they are proved without proving those crates again.
#![tactic(auto)]

#[cfg(test)]
mod arrivals;
#[cfg(test)]
mod bits;
#[cfg(test)]
mod calls;
#[cfg(test)]
mod links;
#[cfg(test)]
mod numbers;
#[cfg(test)]
mod queues;
#[cfg(test)]
mod ready;
#[cfg(test)]
mod server;
#[cfg(test)]
mod signals;
#[cfg(test)]
mod table;
#[cfg(test)]
mod texts;
#[cfg(test)]
mod timers;
#[cfg(test)]
mod waits;
#[cfg(test)]
mod wheel;
