use disk_trait::Block;
use frame_store::Store;
use global_pages::Globals;
use page_file::PageFile;
use page_tables::Tables;
use run_record::RunRecord;
use section_table::Sections;
use state_parts::{ChargedPages, ProcessRow, SpokenRow, SwapPages};
use std::marker::Model;
use vm_journal::Role;
use vm_types::{BlockId, Config};

/// The state of the pager: the tables, the bytes and the journal. What contracts see of it is its
/// history; the journal is a run, and all the rest stands for the state that it leads to.
#[derive(Drop)]
pub struct State<B: Block> {
    pub(crate) config: Config,
    pub(crate) journal: RunRecord,
    pub(crate) store: Store<B>,
    pub(crate) roles: Vec<Option<Role>>,
    pub(crate) processes: Vec<ProcessRow>,
    pub(crate) spoken: Vec<SpokenRow>,
    pub(crate) tables: Tables,
    pub(crate) sections: Sections,
    pub(crate) pages: ChargedPages,
    pub(crate) globals: Globals,
    pub(crate) file: PageFile,
    pub(crate) swaps: SwapPages,
    pub(crate) busy: Vec<u32>,
    pub(crate) in_flight: u32,
    pub(crate) failed: Option<BlockId>,
    pub(crate) firsts: Vec<u32>,
    pub(crate) halted: bool,
}

impl<B: Block> Model for State<B> {
    ghost use Rattle.std.specs.Prelude.{reverse};
    ghost use Rattle.vm_state.specs.History.{History};
    ghost use Rattle.vm_state.specs.StateKept.{IsState};

    ghost Value = { History };

    ghost view = { λ s. record {
      config = s.config;
      past = reverse s.journal.entries;
      spare = s.journal.spare;
      pool = s.store.pool;
      halted = s.halted;
      keeps = s.journal.keeps;
    } };

    ghost invariant = { λ s. IsState B.seen B.tells s.config (reverse s.journal.entries) s.journal.spare s.store
        (record {
          frames = (s.store).frames;
          starts = (s.store).flights;
          roles = s.roles.items;
          processes = s.processes.items;
          spoken = s.spoken.items;
          tables = s.tables;
          sections = s.sections;
          pages = s.pages;
          globals = s.globals;
          file = s.file;
          swaps = s.swaps;
          busy = s.busy.items;
          in_flight = s.in_flight;
          failed = s.failed;
        }) s.firsts.items };
}
