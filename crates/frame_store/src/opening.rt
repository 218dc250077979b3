//! The buffers of a store's frames as they are at the start.

ghost use Rattle.std.specs.Prelude.{◌≡◌, ◌+◌, ◌≤◌, IfOk, OnOk, Some, replicate};
ghost use Rattle.vm_types.specs.declared.limits.TheConstants.{PAGE_BYTES};

use crate::frame::Frame;
use page_pool::Pool;
use std::alloc::{AllocError, Global};

/// So many frames of zeros with buffers of the pool.
pub(crate) fn zero_frames(alloc: Global, pool: &mut Pool, n: u32) -> Result<Vec<Frame>, AllocError>
    requires { n ≤ pool.old.left }
    ensures buffers { IfOk result (λ v.
        v.items ≡ replicate n (Some (record { pool = pool.old.name; bytes = replicate PAGE_BYTES 0 }))) }
    ensures left { OnOk result (pool.new.left + n ≡ pool.old.left) }
    ensures name { pool.new.name ≡ pool.old.name }
{
    let mut frames = Vec::with_capacity(alloc, n as usize)?;
    for _ in 0..n {
        frames.push(Frame::zeros(pool.take_spare().unwrap()))?;
    }
    Ok(frames)
}
