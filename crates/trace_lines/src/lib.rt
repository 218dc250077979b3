//! The lines of a trace: what a line says, by what the lines before it declare, or which rule it
//! breaks first, and by which word. Nothing here takes memory.
#![tactic(auto)]

mod breach;
mod declarations;
mod fails;
mod first_line;
mod headers;
mod judging;
mod keywords;
mod line;
mod lookups;
mod mappings;
mod part;
mod places;
mod plain;
mod ranges;
mod requests;
mod seen;

pub use breach::{Bound, Breach, Limited};
pub use first_line::plain_request;
pub use judging::{content, judge};
pub use keywords::Keyword;
pub use line::Line;
pub use part::{DEFAULTS, Part};
pub use places::Place;
pub use plain::plain_line;
pub use ranges::{CodedRange, Range, Written};
pub use seen::{Seen, block_key, page_key};
