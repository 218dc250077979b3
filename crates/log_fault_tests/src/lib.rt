//! Tests of `check`: what it says of logs, whole ones and such that go wrong at one line, and of input that has
//! none. The contracts are proved where the calls stand; no clause says these texts.
#![tactic(auto)]

#[cfg(test)]
mod check_ends;
#[cfg(test)]
mod checks;
#[cfg(test)]
mod version_two;
#[cfg(test)]
mod wrong_lines;
