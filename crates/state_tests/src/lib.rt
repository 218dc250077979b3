//! Tests of the pager's state, in which several seats have transfers open at once: the exact lines of
//! schedules that were worked out by hand, what they leave of the frames, and the greatest
//! configuration; and of what it stands on: the blocks of a run, the frames' memory and the disk's
//! blocks. Their contracts are proved where they stand; the tests show what no clause says: that a call
//! that takes memory returns, what files give back, and the greatest sizes.
#![tactic(auto)]

#[cfg(test)]
mod entries;
#[cfg(test)]
mod frames;
#[cfg(test)]
mod of_disk_trait;
#[cfg(test)]
mod of_frame_store;
#[cfg(test)]
mod of_page_pool;
#[cfg(test)]
mod of_run_blocks;
#[cfg(test)]
mod schedule;
#[cfg(test)]
mod schedules;
#[cfg(test)]
mod sizes;
#[cfg(test)]
mod waits;
