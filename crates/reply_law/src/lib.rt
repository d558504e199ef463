//! What clients read, byte for byte: lines of each command, sent to stores that are written out, and the lines that RFC 9051 has a server
//! send then. The contract of each function here is such talks. Nothing here runs.
#![tactic(auto)]

mod append;
mod authenticate;
mod close;
mod create;
mod delete;
mod expunge;
mod fetch;
mod idle;
mod limits;
mod list;
mod login;
mod names;
mod news;
mod search;
mod select;
mod states;
mod status;
mod store;

pub use append::{a_message_is_appended, a_message_is_not_appended};
pub use authenticate::{a_response_logs_in, other_responses_do_not_log_in};
pub use close::a_mailbox_is_closed;
pub use create::{a_mailbox_is_created, a_mailbox_is_not_created};
pub use delete::{a_deleted_mailbox_was_selected, a_mailbox_is_deleted, a_mailbox_is_not_deleted};
pub use expunge::{an_expunged_message_keeps_its_number, messages_are_expunged};
pub use fetch::{
    a_body_is_seen, items_are_fetched, messages_are_named_by_numbers, messages_are_named_by_uids,
    parts_of_bodies_are_fetched,
};
pub use idle::an_idle_ends_with_done;
pub use limits::{a_mailbox_has_limits, texts_have_limits};
pub use list::{levels_are_listed, mailboxes_are_listed, the_separator_is_listed};
pub use login::{a_session_begins_once, a_user_logs_in, others_do_not_log_in};
pub use names::{inbox_is_the_own_mailbox, others_are_refused};
pub use news::{
    another_mailbox_is_not_taken_for_it, changes_are_told_in_order, changes_are_told_once,
};
pub use search::{
    a_search_by_uid_tells_uids, keys_are_put_together, messages_are_searched_by_day,
    messages_are_searched_by_flags, messages_are_searched_by_numbers,
    messages_are_searched_by_size, messages_are_searched_by_uids, other_keys_are_no_keys,
};
pub use select::{a_mailbox_is_not_selected, a_mailbox_is_selected};
pub use states::{
    a_mailbox_has_to_be_selected_first, a_session_has_to_begin_first, other_lines_are_no_commands,
    some_commands_cannot_be_done, some_commands_need_no_state,
};
pub use status::{a_status_counts, a_status_is_refused};
pub use store::{flags_are_not_stored, flags_are_stored, flags_are_stored_silently};
