//! Tests of dumps: their bytes, and their text with the recount. Their contracts are proved where the
//! parts stand; the tests show what no clause says: that a call returns, bytes and texts that were
//! worked out by hand, and the greatest sizes.
#![tactic(auto)]

#[cfg(test)]
mod of_dump_bytes;
#[cfg(test)]
mod of_dump_lines;
#[cfg(test)]
mod of_great_dumps;
#[cfg(test)]
mod one_page;
