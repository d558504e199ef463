//! What every crate of the Murder speaks of: lists of bytes and of values, boxes, queues, the ordered map, names and
//! patterns of them, users, numbers as text, the points of a history, locations, phases and the limits.
#![tactic(auto)]

mod boxed;
mod copied;
mod home;
mod inbox;
pub mod limits;
mod list;
mod map;
mod memory;
mod name;
mod name_rules;
mod number;
mod pattern;
mod point;
mod queue;
mod user;

pub use boxed::Boxed;
pub use copied::Copied;
pub use home::{Location, Phase};
pub use inbox::{is_own, owns, shown, taken, what_is_shown_is_taken};
pub use list::{Bytes, Items};
pub use map::Map;
pub use memory::Memory;
pub use name::{Name, NameFault, NameRule};
pub use name_rules::{
    MailName, MailRule, NodeName, NodeRule, UserName, UserRule, mail_name, node_name, user_name,
};
pub use number::{put_number, read_number};
pub use pattern::matches;
pub use point::{AskId, Point, What};
pub use queue::Queue;
pub use user::{PASSWORD_LIMIT, User, Users, UsersFault, is_password};
