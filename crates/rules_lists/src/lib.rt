//! The lists of runnable threads, as definitions that compute: 255 lists of distinct threads, one for each priority.
//!
//! Proved: how often a thread stands in a list after each change of it.
#![tactic(auto)]
