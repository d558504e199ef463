//! The bytes that a fetch item gives of a message.
#![tactic(auto)]

mod body;
mod flags;
mod item_text;

pub use item_text::{PartBytes, date_part, flags_part, part, size_part, uid_part};
