//! Tests of the command `replay` over a source, a sink and a depot: what stands in its text on every
//! schedule, its statuses, and that `check` finds its logs legal. No code but tests.
#![tactic(auto)]

#[cfg(test)]
mod ends;
#[cfg(test)]
mod logs;
#[cfg(test)]
mod replays;
#[cfg(test)]
mod sharing;
