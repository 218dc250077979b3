//! Tests of the parts of the pager's state and of the definitions that compute. Their contracts are
//! proved where the parts stand; the tests show what no clause says: that a call that takes memory
//! returns, rows that were worked out by hand, and the greatest sizes.
#![tactic(auto)]

#[cfg(test)]
mod configs;
#[cfg(test)]
mod of_flat_model;
#[cfg(test)]
mod of_frame_changes;
#[cfg(test)]
mod of_global_pages;
#[cfg(test)]
mod of_page_file;
#[cfg(test)]
mod of_page_lists;
#[cfg(test)]
mod of_page_rows;
#[cfg(test)]
mod of_page_tables;
#[cfg(test)]
mod of_pfn_database;
#[cfg(test)]
mod of_pte_forms;
#[cfg(test)]
mod of_read_cluster;
#[cfg(test)]
mod of_section_table;
#[cfg(test)]
mod of_shadow_history;
#[cfg(test)]
mod of_state_parts;
#[cfg(test)]
mod of_vm_types;
#[cfg(test)]
mod of_working_set;
