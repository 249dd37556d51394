//! The moves that all calls, due items and sweeps of the list machine are made of, in specs/. What every move keeps, every call, item,
//! sweep, tick and run keeps: the lemmas of proofs/, on which the laws of the machine stand.
//!
//! Proved: definitions and lemmas: what every move of the machine keeps. The laws of the machine stand on them.
#![tactic(auto)]
