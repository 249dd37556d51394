//! The list machine over two types of places: where both know the same of bodies, a run over the one is a run over the other.
//!
//! Proved: definitions and lemmas: a run over any places that know the same of bodies is the script's run. `laws_flat_code` and
//! `tool_commands` stand on them.
#![tactic(auto)]
