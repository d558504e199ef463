//! A home serves each command as the one store does: a file a command. Nothing here runs.
#![tactic(auto)]

mod laws;

pub use laws::{a_home_answers_as_the_store, done_is_answered_where_a_name_is_open};
