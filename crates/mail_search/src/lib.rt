//! What a search key matches, and which messages a SEARCH finds.
#![tactic(auto)]

mod marks;
mod matching;
mod searching;
mod spans;

pub use matching::{key_matches, set_holds};
pub use searching::search;
pub use spans::marks_of_set;
