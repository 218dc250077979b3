ghost use Rattle.std.specs.Prelude.{◌≡◌, ◌≤◌, [], All, IfOk, IsErrOf, map, true};
ghost use Rattle.std.specs.List.{range_with_len};
ghost use Rattle.disk_trait.specs.declared.depot.MakeFault.{MakeFault};
ghost use Rattle.vm_types.specs.Configuration.{IsWellFormed};
ghost use Rattle.vm_types.specs.Counts.{Rose};
ghost use Rattle.vm_types.specs.declared.names.BlockId.{BlockId};
ghost use Rattle.frame_store.specs.Blocks.{blocks_of};
ghost use Rattle.vm_state.specs.History.{pager};
ghost use Rattle.vm_state.specs.Made.{IsMade};
ghost use Rattle.vm_state.specs.Readings.{row_at};
ghost use Rattle.seat_schedules.specs.Played.{AreNext, IsLeft, IsPlayed, lies_of, page_block_at};

use crate::act::Act;
use crate::lines::lines;
use crate::page_block::PageBlock;
use crate::schedule::play;
use crate::went::Went;
use crate::worker::all_workers;
use disk_trait::{Block, Depot, MakeFault};
use pager_laws::runs_have_lines;
use pfn_database::Row;
use run_blocks::make_blocks;
use std::alloc::Global;
use vm_journal::Entry;
use vm_state::State;
use vm_types::{BlockId, Config, NoMemory, Page, Pfn, Seat};

/// What a schedule leaves.
#[derive(Debug, Drop)]
pub struct Played {
    /// How its last step went.
    pub went: Went,
    /// The entries, oldest first.
    pub entries: Vec<Entry>,
    /// Their lines, each with the byte 10 that ends it.
    pub lines: Vec<u8>,
    /// What is known of each frame, by its number.
    pub frames: Vec<Row>,
    /// The frame after each frame on its list, by the frame's number; none if it is the last there, or
    /// on no list.
    pub nexts: Vec<Option<Pfn>>,
    /// What is known of each block of the page file, by its number.
    pub blocks: Vec<PageBlock>,
}

/// What is known of each frame of the configuration, by its number.
fn frames<B: Block>(alloc: Global, state: &State<B>) -> Result<Vec<Row>, NoMemory>
    ensures { IfOk result (λ rows. rows.items ≡ map (row_at state.now) (range_with_len 0 state.now.config.frames)) }
{
    let mut rows = Vec::new(alloc);
    for f in 0..state.config().frames {
        rows.push(state.frame(Pfn(f)))?;
    }
    Ok(rows)
}

/// The frame after each frame of the configuration on its list, by the frame's number.
fn nexts<B: Block>(alloc: Global, state: &State<B>) -> Result<Vec<Option<Pfn>>, NoMemory>
    ensures { IfOk result (λ nexts. AreNext (pager state.now) state.now.config.frames nexts.items) }
{
    let mut nexts = Vec::new(alloc);
    for f in 0..state.config().frames {
        nexts.push(state.next(Pfn(f)))?;
    }
    Ok(nexts)
}

/// The block in which a private page lies.
fn lies<B: Block>(state: &State<B>, page: Option<Page>) -> Option<BlockId>
    ensures { result ≡ lies_of (pager state.now) page }
{
    match page {
        Some(Page::Private(p, vpn)) => state.backing(Page::Private(p, vpn)).lies,
        _ => None,
    }
}

/// What is known of a block (any number) of the page file.
fn block<B: Block>(state: &State<B>, b: u32) -> PageBlock
    ensures { result ≡ page_block_at state.now b }
{
    let page = state.owner(b);
    let lies = lies(state, page);
    PageBlock { page, lies }
}

/// What is known of each block of the page file, by its number.
fn blocks<B: Block>(alloc: Global, state: &State<B>) -> Result<Vec<PageBlock>, NoMemory>
    ensures { IfOk result (λ blocks. blocks.items ≡ map (page_block_at state.now) (range_with_len 0 state.now.config.pagefile)) }
{
    let mut blocks = Vec::new(alloc);
    for b in 0..state.config().pagefile {
        blocks.push(block(state, b))?;
    }
    Ok(blocks)
}

/// What is left by a state.
fn left_by<B: Block>(alloc: Global, state: &State<B>, went: Went) -> Result<Played, NoMemory>
    requires { state.now.keeps ≡ true }
    ensures { IfOk result (IsLeft state.now) }
{
    state.run_law();
    runs_have_lines();
    let config = state.config();
    let names = config.sections.items();
    let procs = config.procs.items().len() as u32;
    let made = state.entries();
    let text = lines(alloc, made, procs, names)?;
    let rows = frames(alloc, state)?;
    let nexts = nexts(alloc, state)?;
    let blocks = blocks(alloc, state)?;
    let entries = Vec::from_slice(alloc, made)?;
    Ok(Played {
        went,
        entries,
        lines: text,
        frames: rows,
        nexts,
        blocks,
    })
}

/// The steps of a schedule, from the first entry on, up to the first one that doesn't go well.
///
/// # Errors
/// `NoMemory` if out of memory.
fn play_state<B: Block>(
    alloc: Global,
    state: &mut State<B>,
    steps: &[(Seat, Act)],
) -> Result<Played, NoMemory>
    requires first { state.old.past ≡ [] }
    requires keeps { state.old.keeps ≡ true }
    ensures { IfOk result (IsPlayed state.old.config) }
{
    let mut workers = all_workers(alloc, state)?;
    let went = play(state, &mut workers, steps)?;
    let played = left_by(alloc, state, went)?;
    state.run_law();
    Ok(played)
}

/// The steps of a schedule on a configuration and its blocks, which are dropped.
///
/// # Errors
/// `NoMemory` if out of memory.
fn play_blocks<B: Block>(
    alloc: Global,
    config: Config,
    blocks: Vec<(BlockId, B)>,
    steps: &[(Seat, Act)],
) -> Result<Played, NoMemory>
    requires formed { IsWellFormed config }
    requires names { map (λ (p : BlockId × B). p.0) blocks.items ≡ blocks_of config }
    requires made { All (λ (p : BlockId × B). IsMade B.tells config p.0 (B.seen p.1)) blocks.items }
    ensures { IfOk result (IsPlayed config) }
{
    let mut state = State::start(alloc, config, blocks)?;
    play_state(alloc, &mut state, steps)
}

/// Plays a schedule on a configuration, whose blocks a depot makes: its steps in their order, up to the
/// first one that doesn't go well. Transfers may be open at its end, and the blocks are dropped.
///
/// # Errors
/// `NoMemory` if out of memory, `Failed` only if the depot's count of failures rose.
pub fn play_schedule<D: Depot>(
    alloc: Global,
    config: Config,
    steps: &[(Seat, Act)],
    depot: &mut D,
) -> Result<Played, MakeFault>
    requires formed { IsWellFormed config }
    ensures played { IfOk result (IsPlayed config) }
    ensures failed { IsErrOf result MakeFault.Failed → Rose (D.seen depot.old).failures (D.seen depot.new).failures }
    ensures later { (D.seen depot.old).failures ≤ (D.seen depot.new).failures }
{
    let blocks = make_blocks(alloc, &config, depot)?;
    Ok(play_blocks(alloc, config, blocks, steps)?)
}
