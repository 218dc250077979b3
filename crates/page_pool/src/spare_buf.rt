ghost use Rattle.std.specs.Prelude.{◌≡◌, replicate};

use crate::page_buf::PageBuf;
use crate::spare::Spare;
use std::marker::Model;

/// A buffer of 512 bytes, out of a pool, that isn't written yet: its memory isn't touched. A buffer that is
/// dropped isn't handed out again.
#[derive(Drop)]
pub struct SpareBuf {
    pub(crate) spare: Spare,
}

impl Model for SpareBuf {
    ghost use Rattle.vm_types.specs.declared.pool_name.PoolName.{PoolName};

    ghost Value = { PoolName };

    ghost view = { λ b. record { number = b.spare.name; size = b.spare.size } };
}

impl SpareBuf {
    /// The buffer with zeros for its bytes. Doesn't allocate.
    pub fn fill(self) -> PageBuf
        ensures { result ≡ record { pool = self; bytes = replicate 512 0 } }
    {
        let SpareBuf { spare } = self;
        PageBuf {
            part: spare.fill([0; 512]),
        }
    }
}
