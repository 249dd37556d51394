//! Rows of equal values, as the structures of a kernel begin with.
//!
//! Proved: a row has as many values as were asked for, each the one that was given.
#![tactic(auto)]

ghost use Rattle.std.specs.Prelude.{◌≡◌, IfOk, replicate};

use std::alloc::{AllocError, Global};

/// So many times that value. `AllocError` comes where there is no memory for them.
pub fn filled<T: Copy>(alloc: Global, count: usize, value: T) -> Result<Vec<T>, AllocError>
    ensures { IfOk result (λ v. v.items ≡ replicate count value) }
{
    let mut items = Vec::with_capacity(alloc, count)?;
    for _ in 0..count {
        items.push(value)?;
    }
    Ok(items)
}
