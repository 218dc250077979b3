//! Tests of the parts that read and write bytes and texts, and of those that read a trace, make one, or say
//! how one is spelled. Their contracts are proved where the parts stand; the tests show what no clause
//! says: that a call returns, bytes, traces and texts that were worked out by hand, and the greatest
//! sizes.
#![tactic(auto)]

#[cfg(test)]
mod of_lines;
#[cfg(test)]
mod of_outside_io;
#[cfg(test)]
mod of_paging_study;
#[cfg(test)]
mod of_read_head;
#[cfg(test)]
mod of_read_line;
#[cfg(test)]
mod of_run_text;
#[cfg(test)]
mod of_trace_lines;
#[cfg(test)]
mod of_trace_maker;
#[cfg(test)]
mod of_trace_reader;
#[cfg(test)]
mod of_trace_spelling;
#[cfg(test)]
mod of_trace_words;
#[cfg(test)]
mod params;
