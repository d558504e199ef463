//! A frontend's replica of the master's table: what the lines of a stream make (RFC 3656, 4.11).
//!
//! [`Replica::take`] takes one line; `specs/Feed.antt` says what it changes. From an empty replica the lines of all records make these records
//! ([`lines_make_their_records`], `specs/RecLines.antt`). A name is looked up by [`Replica::find`], the nearest name above one that has a record by
//! [`Replica::nearest_above`], whom a command asks by [`Replica::server_of`] and [`Replica::home_for`] (`specs/Routes.antt`), and mailboxes are listed
//! by [`Replica::names`]. Its owner makes a new replica when its link to the master comes up, sends [`update_line`], and hands each line of the master to
//! [`Replica::hear`].
#![tactic(auto)]

mod above;
mod fault;
mod laws;
mod listing;
mod rec;
mod replica;
mod routes;
mod stream;

pub use fault::FeedFault;
pub use laws::lines_make_their_records;
pub use listing::MailNames;
pub use rec::Rec;
pub use replica::Replica;
pub use routes::one_name_is_nearest_above;
pub use stream::update_line;
