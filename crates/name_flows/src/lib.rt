//! A backend's half of its talk with the MUPDATE master (RFC 3656): how its mailboxes are made and deleted there, and how it learns what became of
//! them when the link comes up again.
//!
//! [`Flows`] is the state beside the mailboxes (`Held` of `node_record`): the CREATEs and DELETEs under way, at most one a name, the lines whose last
//! answer hasn't come, and the resync. There is one step for each thing that comes, and `specs/` has its definition by cases:
//!
//! | What comes | Call | Definition |
//! |---|---|---|
//! | the link with the master is up: LIST | [`Flows::link_up`] | `Listing.antt` |
//! | it ended | [`Flows::link_ended`] | `Link.antt` |
//! | a frontend asks for a mailbox to be made or deleted | [`Flows::asked`] | `Asked.antt` |
//! | a response of the master | [`Flows::heard`] | `Heard.antt`: `Creates`, `Deletes`, `Finds`, `Listing`, `Listed` |
//!
//! A step gives at most one entry, lines for the master and answers for frontends ([`Step`]). The mailboxes are changed by that entry alone, which goes
//! to the disk before the lines and the answers go out. A CREATE is RESERVE and ACTIVATE, a DELETE is DEACTIVATE and DELETE.
//!
//! A response names no command: it answers the first of the lines sent, so each step's lines stand behind those sent before.
#![tactic(auto)]

mod ask;
mod asked;
mod creates;
mod deletes;
mod finds;
mod flow;
mod flows;
mod gives;
mod heard;
mod laws;
mod link;
mod listed;
mod listing;
mod phases;
mod resync;
mod sent;

pub use ask::{Answers, AskKind, NameAsk, Told};
pub use flow::{Flow, Stage};
pub use flows::Flows;
pub use gives::{Lines, Step};
pub use laws::{
    a_response_is_one_of_each_name, an_ask_is_one_of_its_name, the_link_is_one_of_each_name,
};
pub use resync::{Listed, Resync};
pub use sent::{Sent, SentLine, SentLines};
