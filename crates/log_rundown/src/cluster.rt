ghost use Rattle.std.specs.Prelude.{◌≡◌, IfOk, slice_get};
ghost use Rattle.std.specs.Option.{option_map};
ghost use Rattle.pager_policy.specs.Rundown.{written_for_need};
ghost use Rattle.shadow_pager.specs.Shown.{shown};
ghost use Rattle.log_rundown.specs.NextWrite.{write_at};
ghost use Rattle.log_rundown.specs.Written.{write_as, writes_as};

use crate::blocks::block_out;
use crate::write::Write;
use shadow_pager::ShadowPager;
use std::alloc::Global;
use vm_types::{BlockId, Config, NoMemory, Pfn};

/// The write of the frame at a place of the modified list, behind the last block of a cluster; none if
/// there is no such place, or its block doesn't adjoin the last one.
fn next_write(config: &Config, pager: &ShadowPager, last: Option<BlockId>, n: u32) -> Option<Write>
    ensures { option_map write_as result
        ≡ write_at config.now (shown pager.now).pager last (slice_get (shown pager.now).pager.modified n) }
{
    match pager.modified_list().get(n as usize) {
        Some(f) => {
            let frame = Pfn(*f);
            match block_out(config, pager, last, pager.page(frame)) {
                Some(block) => Some(Write { frame, block }),
                None => None,
            }
        }
        None => None,
    }
}

/// The writes of one cluster: the frames from the modified list's head on, as long as their blocks adjoin,
/// WRTCLUSTER at most.
///
/// # Errors
/// `NoMemory` if out of memory.
pub(crate) fn cluster_writes(
    alloc: Global,
    config: &Config,
    pager: &ShadowPager,
) -> Result<Vec<Write>, NoMemory>
    ensures { IfOk result (λ ws. writes_as ws.items ≡ written_for_need config.now (shown pager.now).pager) }
{
    let mut writes = Vec::new(alloc);
    let mut last = None;
    for n in 0..config.params.wrtcluster {
        match next_write(config, pager, last, n) {
            Some(write) => {
                writes.push(write)?;
                last = Some(write.block);
            }
            None => return Ok(writes),
        }
    }
    Ok(writes)
}
