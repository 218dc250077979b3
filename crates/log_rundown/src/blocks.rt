ghost use Rattle.std.specs.Prelude.{◌≡◌, Some};
ghost use Rattle.vm_types.specs.declared.names.BlockId.TheVariants.{PageFile};
ghost use Rattle.pager_model.specs.Lookups.{block_of};
ghost use Rattle.pager_policy.specs.WriteCluster.{block_out, filed_block, is_free_block, lowest_free, new_block, paged_block};
ghost use Rattle.shadow_pager.specs.Shown.{shown};

use shadow_pager::ShadowPager;
use shadow_tables::is_paged;
use vm_types::{BlockId, Config, Page, if_next};

/// Whether a block of the page file exists and is free.
fn is_free_block(config: &Config, pager: &ShadowPager, n: u32) -> bool
    ensures { result ≡ is_free_block config.now (shown pager.now).pager n }
{
    n < config.pagefile && pager.owners(BlockId::PageFile(n)) == 0
}

/// The lowest block of the page file that is free.
fn lowest_free(config: &Config, pager: &ShadowPager) -> Option<BlockId>
    ensures { result ≡ lowest_free config.now (shown pager.now).pager }
{
    for n in 0..config.pagefile {
        if is_free_block(config, pager, n) {
            return Some(BlockId::PageFile(n));
        }
    }
    None
}

/// The block of the page file after this one, if it exists and is free.
fn free_after(config: &Config, pager: &ShadowPager, n: u32) -> Option<BlockId>
    ensures { result ≡ new_block config.now (shown pager.now).pager (Some (PageFile n)) }
{
    if n >= config.pagefile {
        return None;
    }
    let next = n + 1;
    if is_free_block(config, pager, next) {
        Some(BlockId::PageFile(next))
    } else {
        None
    }
}

/// The block that a page without one takes: the lowest free block if there is no last block, else the
/// one after a last block of the page file, if it exists and is free.
fn new_block(config: &Config, pager: &ShadowPager, last: Option<BlockId>) -> Option<BlockId>
    ensures { result ≡ new_block config.now (shown pager.now).pager last }
{
    match last {
        Some(b) => match b {
            BlockId::Section(..) => None,
            BlockId::PageFile(n) => free_after(config, pager, n),
            BlockId::Swap(..) => None,
        },
        None => lowest_free(config, pager),
    }
}

/// The block to which a paged page is written behind the last block of a cluster: the one that is
/// assigned to it, or a new one; none if it doesn't adjoin that one.
fn paged_block(
    config: &Config,
    pager: &ShadowPager,
    last: Option<BlockId>,
    page: Page,
) -> Option<BlockId>
    ensures { result ≡ paged_block config.now (shown pager.now).pager last (block_of (shown pager.now).pager.assigned page) }
{
    match pager.block_of(page) {
        Some(n) => if_next(last, BlockId::PageFile(n)),
        None => new_block(config, pager, last),
    }
}

/// The block to which a page with a file is written behind the last block of a cluster: the one in which
/// it lies; none if it doesn't adjoin that one.
fn filed_block(pager: &ShadowPager, last: Option<BlockId>, page: Page) -> Option<BlockId>
    ensures { result ≡ filed_block last ((shown pager.now).pager.lies page) }
{
    match pager.lies(page) {
        Some(b) => if_next(last, b),
        None => None,
    }
}

/// The block to which a page of the modified list is written behind the last block of a cluster; none if
/// it doesn't adjoin that one.
fn page_block(
    config: &Config,
    pager: &ShadowPager,
    last: Option<BlockId>,
    page: Page,
) -> Option<BlockId>
    ensures { result ≡ block_out config.now (shown pager.now).pager last (Some page) }
{
    if is_paged(config, page) {
        return paged_block(config, pager, last, page);
    }
    filed_block(pager, last, page)
}

/// The same of a page that a frame may hold; none if it holds none.
pub(crate) fn block_out(
    config: &Config,
    pager: &ShadowPager,
    last: Option<BlockId>,
    page: Option<Page>,
) -> Option<BlockId>
    ensures { result ≡ block_out config.now (shown pager.now).pager last page }
{
    match page {
        Some(page) => page_block(config, pager, last, page),
        None => None,
    }
}
