//! Phase 1: what each line is, and the bodies and blocks that it stands in.
pub(crate) mod blocks;
mod by_letter;
pub(crate) mod heading;
mod line;
pub(crate) mod lines;
pub(crate) mod statement;
