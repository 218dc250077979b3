ghost use Rattle.std.specs.Prelude.{◌≡◌, ◌<◌, ◌++◌, [], ◌∷◌, IfOk, OnErr, OnOk, length};
ghost use Rattle.file_depot.specs.FileName.{file_name};

use crate::block::{FileBlock, create_file};
use crate::name::file_name;
use disk_trait::{Block, Depot, MakeFault};
use std::alloc::{AllocError, Global};
use std::rt::Files;
use vm_types::{BlockId, NoMemory};

/// A depot whose blocks are files of 512 bytes in one folder, named by their blocks (`file_name`). It
/// ignores the calls that a block is to fail at.
#[derive(Drop)]
pub struct FileDepot<R: Files> {
    alloc: Global,
    runtime: R,
    folder: String,
    faults: u64,
    retired: Vec<(BlockId, FileBlock<R>)>,
}

impl<R: Files + Clone + Drop + Send> FileDepot<R> {
    /// A depot in that folder, which has not failed and has taken nothing back. It doesn't look
    /// whether the folder is there.
    ///
    /// # Errors
    /// `NoMemory` for want of memory.
    pub fn new(alloc: Global, runtime: R, folder: &str) -> Result<FileDepot<R>, NoMemory>
        ensures { IfOk result (λ d. ⟦<FileDepot<R> as Depot>⟧.seen d ≡ record { tells = ⟦<FileBlock<R> as Block>⟧.tells; retired = []; failures = 0 }) }
    {
        Ok(FileDepot {
            alloc,
            runtime,
            folder: folder.to_string(alloc)?,
            faults: 0,
            retired: Vec::new(alloc),
        })
    }
}

/// The path of a block's file in the folder.
fn path_of(alloc: Global, folder: &str, id: BlockId) -> Result<String, AllocError>
    ensures { IfOk result (λ path. path.bytes.items ≡ folder.now ++ 47 ∷ file_name id) }
{
    let name = file_name(alloc, id)?;
    format!(in alloc; "{folder}/{name}")
}

impl<R: Files + Clone + Drop + Send> Depot for FileDepot<R> {
    ghost use Rattle.std.specs.Prelude.{refl};
    ghost use Rattle.disk_trait.specs.DepotView.{depot_view};

    type Block = FileBlock<R>;

    ghost seen = { λ d. depot_view ⟦<FileBlock<R> as Block>⟧.seen ⟦<FileBlock<R> as Block>⟧.tells d.retired.items d.faults };

    ghost known = { λ _. refl };

    fn make(
        &mut self,
        id: BlockId,
        bytes: &[u8],
        _fails: &[u32],
    ) -> Result<FileBlock<R>, MakeFault> {
        let runtime = self.runtime.clone()?;
        let path = path_of(self.alloc, self.folder.as_str(), id)?;
        if create_file(&runtime, path.as_str(), bytes).is_err() {
            self.faults = self.faults.saturating_add(1);
            return Err(MakeFault::Failed);
        }
        Ok(FileBlock::new(runtime, path))
    }

    fn retire(&mut self, id: BlockId, block: FileBlock<R>) -> Result<(), NoMemory> {
        self.retired.push((id, block))?;
        Ok(())
    }

    fn retire_all(&mut self, mut blocks: Vec<(BlockId, FileBlock<R>)>) -> Result<(), NoMemory>
        ensures ok { OnOk result (self.new.retired.items ≡ self.old.retired.items ++ blocks.items) }
        ensures err { OnErr result ((self.new.retired.items ≡ self.old.retired.items) × (0 < length blocks.items)) }
        ensures faults { self.new.faults ≡ self.old.faults }
    {
        self.retired.append(&mut blocks)?;
        Ok(())
    }
}
