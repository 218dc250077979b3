ghost use Rattle.std.specs.Prelude.{◌≡◌, IfOk};
ghost use Rattle.file_depot.specs.FileName.{AreOneToOne, file_name};

use std::alloc::{AllocError, Global};
use vm_types::BlockId;

/// The name of a block's file: `s2_3` is the block of section 2's page 3, `p7` is block 7 of the page
/// file, and `x0_2` the swap block of process 0's ring slot 2.
///
/// # Errors
/// `AllocError` if out of memory.
pub fn file_name(alloc: Global, id: BlockId) -> Result<String, AllocError>
    ensures { IfOk result (λ name. name.bytes.items ≡ file_name id) }
{
    match id {
        BlockId::Section(section, page) => format!(in alloc; "s{}_{page}", section.0),
        BlockId::PageFile(block) => format!(in alloc; "p{block}"),
        BlockId::Swap(process, slot) => format!(in alloc; "x{}_{slot}", process.0),
    }
}

/// No two blocks have one file's name.
pub fn names_are_one_to_one()
    ensures { AreOneToOne }
{}
