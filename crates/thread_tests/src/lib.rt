//! Tests of runs of traces by threads, each at some schedule, and of what such runs stand on: the journal,
//! the lock that keeps one, the record of a run, transfers that are under way beside each other at one state, and
//! one call of each kind, also on a halted state. Their contracts are proved where they stand; the tests show what
//! no clause says: that a call that takes memory returns, and threads that take turns.
#![tactic(auto)]

#[cfg(test)]
mod desks;
#[cfg(test)]
mod meeting;
#[cfg(test)]
mod of_history_lock;
#[cfg(test)]
mod of_run_record;
#[cfg(test)]
mod of_vm_journal;
#[cfg(test)]
mod overlaps;
#[cfg(test)]
mod runs;
#[cfg(test)]
mod single_calls;
#[cfg(test)]
mod traces;
