ghost use Rattle.std.specs.Prelude.{◌≡◌, [], All, IfOk, map, true, false};
ghost use Rattle.vm_types.specs.Configuration.{IsWellFormed};
ghost use Rattle.vm_types.specs.declared.names.BlockId.{BlockId};
ghost use Rattle.frame_store.specs.Blocks.{blocks_of};
ghost use Rattle.vm_state.specs.Made.{IsMade};

use crate::state::State;
use disk_trait::Block;
use first_parts::{FirstPageParts, FirstRows, first_page_parts, first_pages, first_rows};
use frame_store::Store;
use run_record::RunRecord;
use std::alloc::Global;
use vm_types::{BlockId, Config, NoMemory};

impl<B: Block> State<B> {
    /// The state before the first entry: all frames that aren't bad are free and empty, all processes
    /// are resident with empty working sets, and all blocks are home. They are given in their order,
    /// section blocks by section and page, page file blocks, swap blocks by process and slot, each as
    /// it was made. But for `reserve` and `add_request` no other call allocates.
    ///
    /// # Errors
    /// `NoMemory` if out of memory.
    pub fn start(
        alloc: Global,
        config: Config,
        blocks: Vec<(BlockId, B)>,
    ) -> Result<State<B>, NoMemory>
        requires formed { IsWellFormed config }
        requires names { map (λ (p : BlockId × B). p.0) blocks.items ≡ blocks_of config }
        requires made { All (λ (p : BlockId × B). IsMade B.tells config p.0 (B.seen p.1)) blocks.items }
        ensures { IfOk result (λ s. s ≡ record { config = config; past = []; spare = 0; pool = s.pool; halted = false; keeps = true }) }
    {
        State::start_with(alloc, config, blocks, RunRecord::new(alloc))
    }

    /// The same state, but its entries are only counted.
    ///
    /// # Errors
    /// `NoMemory` if out of memory.
    pub fn start_counting(
        alloc: Global,
        config: Config,
        blocks: Vec<(BlockId, B)>,
    ) -> Result<State<B>, NoMemory>
        requires formed { IsWellFormed config }
        requires names { map (λ (p : BlockId × B). p.0) blocks.items ≡ blocks_of config }
        requires made { All (λ (p : BlockId × B). IsMade B.tells config p.0 (B.seen p.1)) blocks.items }
        ensures { IfOk result (λ s. s ≡ record { config = config; past = []; spare = 0; pool = s.pool; halted = false; keeps = false }) }
    {
        State::start_with(alloc, config, blocks, RunRecord::counting(alloc))
    }

    /// The state with this record, which has no entries.
    fn start_with(
        alloc: Global,
        config: Config,
        blocks: Vec<(BlockId, B)>,
        journal: RunRecord,
    ) -> Result<State<B>, NoMemory>
        requires formed { IsWellFormed config }
        requires names { map (λ (p : BlockId × B). p.0) blocks.items ≡ blocks_of config }
        requires made { All (λ (p : BlockId × B). IsMade B.tells config p.0 (B.seen p.1)) blocks.items }
        requires empty { journal ≡ record { entries = []; spare = 0; keeps = journal.keeps } }
        ensures { IfOk result (λ s. s ≡ record { config = config; past = []; spare = 0; pool = s.pool; halted = false; keeps = journal.keeps }) }
    {
        let (firsts, total) = first_pages(alloc, &config)?;
        let rows = first_rows(alloc, &config)?;
        let parts = first_page_parts(alloc, &config, &firsts, total)?;
        let store = Store::new(alloc, &config, blocks)?;
        let FirstRows {
            roles,
            processes,
            spoken,
            busy,
        } = rows;
        let FirstPageParts {
            tables,
            sections,
            pages,
            globals,
            file,
            swaps,
        } = parts;
        Ok(State {
            config,
            journal,
            store,
            roles,
            processes,
            spoken,
            tables,
            sections,
            pages,
            globals,
            file,
            swaps,
            busy,
            in_flight: 0,
            failed: None,
            firsts,
            halted: false,
        })
    }
}
