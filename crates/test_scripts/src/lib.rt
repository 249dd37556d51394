//! Tests of the crates that read, write and flatten scripts, by what these export: texts that are scripts, texts that
//! are refused, canonical texts, and bodies unit by unit. They stand apart, so that they are proved without proving
//! those crates again.
#![tactic(auto)]

#[cfg(test)]
mod accepted;
#[cfg(test)]
mod bodies;
#[cfg(test)]
mod canonical;
#[cfg(test)]
mod clock;
#[cfg(test)]
mod printed;
#[cfg(test)]
mod refused;
#[cfg(test)]
mod versions;
