//! Tests of runs and dumps: the exact text of runs that were worked out by hand, and of their dumps; what is said
//! when an end or a making fails; and the greatest sizes. The contracts are proved where the calls stand; no clause
//! says these texts.
#![tactic(auto)]

#[cfg(test)]
mod cut_traces;
#[cfg(test)]
mod dumps;
#[cfg(test)]
mod failing_blocks;
#[cfg(test)]
mod failing_ends;
#[cfg(test)]
mod replacement;
#[cfg(test)]
mod shared_run;
#[cfg(test)]
mod sizes;
#[cfg(test)]
mod texts;
#[cfg(test)]
mod version_two;
#[cfg(test)]
mod worked;
