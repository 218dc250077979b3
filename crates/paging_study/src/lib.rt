//! What a list of page references costs with so many frames: in the ring of a working set, with the
//! least recently used page replaced, and at the least. The intervals are those between two references
//! of a page that follow each other.
#![tactic(auto)]

mod bits;
mod cuts;
mod distinct;
mod dropped;
mod drops;
mod intervals;
mod kept;
mod laws;
mod least;
mod lru;
mod marks;
mod place_set;
mod references;
mod ring;
mod string;

pub use distinct::distinct_pages;
pub use dropped::dropped_places;
pub use laws::{cuts_bound_faults, least_faults_has_one_choice};
pub use least::{Least, least_faults};
pub use lru::lru_faults;
pub use references::page_string;
pub use ring::ring_faults;
pub use string::PageString;
