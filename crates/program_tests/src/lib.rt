//! Tests of the program's one call over a source, a sink and a depot, of the calls around it, and of the
//! parts by which commands end and say what is wrong. Their contracts are proved where they stand; the
//! tests show what no clause says: that a call returns, what command lines of every command are answered,
//! the words of messages, and what a made run and a study write.
#![tactic(auto)]

#[cfg(test)]
mod made_runs;
#[cfg(test)]
mod of_command_ends;
#[cfg(test)]
mod of_command_messages;
#[cfg(test)]
mod of_command_options;
#[cfg(test)]
mod of_run_commands;
#[cfg(test)]
mod of_study_command;
#[cfg(test)]
mod program_calls;
#[cfg(test)]
mod rows;
