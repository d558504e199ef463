//! The mailbox store that a client of the cluster is to see: its boxes, its sessions, the reply of each
//! command, and the histories that are legal for it. Nothing here knows of nodes, links or disks.
#![tactic(auto)]

mod acting;
mod at_once;
mod beginning;
mod beside;
mod commands;
mod keys;
mod named_rows;
mod need;
mod news;
mod rights;
mod selected;
mod session;
mod setting;
mod store;
mod traits;
mod view;
mod viewing;
mod wait;
mod work;

pub use acting::act;
pub use beginning::begin;
pub use commands::append::append_reply;
pub use commands::close::left_by;
pub use commands::expunge::expunge_told;
pub use commands::fetch::{Fetching, fetch_told, sees};
pub use commands::fetch_rows::{asks_rows, rows_told};
pub use commands::fetch_summaries::{asks_summaries, summaries_told};
pub use commands::list::{Gathered, Listing};
pub use commands::noop::news_told;
pub use commands::search::{Searching, search_told};
pub use commands::search_rows::{are_keys_in_rows, rows_searched};
pub use commands::select::{Opening, select_told, unselected};
pub use commands::status::status_reply;
pub use commands::store::{FlagStore, store_refused, store_told};
pub use imap_types::{
    Answer, Atoms, Attribute, BadText, Bye, Code, Command, FlagNames, NoText, Op, Parts, Reply,
    ReplyLine, ReplyLines, Request, StatusCount, StatusCounts, StatusItem, StatusItems, Tag,
    Verdict, completed, refused,
};
pub use named_rows::uids_of;
pub use need::{Asking, Awaited, Begun, Need};
pub use news::Told;
pub use selected::gone;
pub use session::{Sess, Turn};
pub use setting::Setting;
pub use store::{Pair, Store};
pub use traits::{States, Traits, traits_of};
pub use view::View;
pub use wait::{Wait, begun_behind, wait_of, waits_begun, with_line};
pub use work::{NewsFor, ViewWork};
