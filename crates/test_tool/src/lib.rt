//! Tests of the one call of the tool, where a read, a write or an allocation fails, and of each public call of the parts below it that
//! no other test makes. They stand apart, so that they are proved without proving the tool again. What the tool answers to words and
//! inputs is in tests/answers and tests/worked.
#![tactic(auto)]

#[cfg(test)]
mod checks;
#[cfg(test)]
mod commands;
#[cfg(test)]
mod details;
#[cfg(test)]
mod failures;
#[cfg(test)]
mod generated;
#[cfg(test)]
mod order;
#[cfg(test)]
mod parts;
#[cfg(test)]
mod shows;
