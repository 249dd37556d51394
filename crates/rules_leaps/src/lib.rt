//! The machine in leaps, as definitions that compute: what so many quiet ticks of the head come to at once, and how far a leap goes.
//! That a run in leaps is the run tick by tick is proved in `laws_leaps`.
//!
//! Proved: the machine in leaps, as definitions that compute; what they are is proved in `laws_leaps`.
#![tactic(auto)]
