//! The machine over the flat code of a script, as definitions: where its frames stand, and which calls and scripts it can run.
//! That its run has the script's trace is proved in `laws_flat_code`.
//!
//! Proved: the machine over flat code, as definitions that compute; what they are is proved in `laws_flat_code` and `laws_threads`.
#![tactic(auto)]
