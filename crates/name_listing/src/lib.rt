//! What LIST tells of the names of mailboxes (RFC 9051, 6.3.9 and 7.3.1), without a store.
//!
//! | What | Definition |
//! |---|---|
//! | the pattern of a command, and what LIST tells of each name | `specs/Listing.antt` |
//! | how that is found | `specs/Found.antt` |
//! | levels above mailboxes, and patterns, in other words; the line of a reply | `specs/Told.antt` |
//!
//! [`Pattern::of`] joins what a command gives, and [`listing`] finds the one listing ([`there_is_one_listing`]): each name once, in the order of
//! bytes ([`each_line_tells_what_is_listed`]). A mailbox is listed if it matches ([`mailboxes_that_match_are_listed`]), and a level above
//! mailboxes that is none if it matches a pattern that ends in `%` ([`levels_above_mailboxes_are_listed`]). Whether a LIST asks for the separator
//! alone is [`asks_separator`].
#![tactic(auto)]

mod found;
mod laws;
mod level;
mod list;
mod pattern;

pub use laws::{
    a_plain_pattern_lists_one_mailbox, a_shown_name_can_be_listed, each_line_tells_what_is_listed,
    inbox_is_taken_as_in_names, levels_above_mailboxes_are_listed, mailboxes_that_match_are_listed,
    percent_lists_one_level, some_listings, star_lists_all_mailboxes, there_is_one_listing,
    what_is_listed_matches,
};
pub use level::Level;
pub use list::{Lines, listing, reply_lines};
pub use pattern::{Pattern, asks_separator};
