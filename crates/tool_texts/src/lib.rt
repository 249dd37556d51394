//! The commands that read or generate a text and run no kernel: `audit`, `upgrade`, `rta` and `gen`.
//!
//! Proved: each writes the answer that is defined for it, or a part of it and then a write failed; want of memory comes before anything
//! is written.
#![tactic(auto)]

mod audit;
mod generated;
mod responses;
mod upgrade;

pub use audit::audit_text;
pub use generated::tell_generated;
pub use responses::tell_responses;
pub use upgrade::upgrade_text;
