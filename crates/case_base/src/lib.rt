//! Files of worked cases: what the programs that read them have in common.
//!
//! A case is a line `KIND | FIELD | .. => WANTED`: the text that a call gives for these fields has to be the one that is wanted. Bytes are
//! written in fields and texts as a schedule writes them. A text that is empty is written `-`. Lines that are empty or begin with `#` are no
//! cases.
#![tactic(auto)]

mod cases;
mod fault;
mod field;
mod steps;

pub use cases::{Cases, tell_all};
pub use fault::Fault;
pub use field::{bytes_of, number_of, parts_of, put_field, put_value, wide_number_of};
pub use steps::{Steps, put_steps};
