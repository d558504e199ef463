//! Messages as a mailbox keeps them: flags, dates, a box's content and its changes; sets of numbers, search keys and fetch items.
#![tactic(auto)]

mod acl;
mod change;
mod date_text;
mod day;
mod flag_name;
mod flag_set;
mod item;
mod key;
mod keyword;
mod mail_box;
mod message;
mod mode;
mod ordered_rows;
mod set;
mod slots;
mod system_flags;
mod word;

pub use acl::first_acl;
pub use change::{Change, Changes};
pub use date_text::{DATE_LENGTH, DateText, date};
pub use day::Day;
pub use flag_name::{FlagFault, FlagName, flag};
pub use flag_set::FlagSet;
pub use item::{FetchItems, Item, Partial};
pub use key::{Key, Keys};
pub use keyword::{Keyword, Keywords};
pub use mail_box::MailBox;
pub use message::{Message, Messages, Row, Rows, Snapshot, Summaries, Summary, Uids};
pub use mode::Mode;
pub use ordered_rows::OrderedRows;
pub use set::{SetEnd, SetPart, SetParts};
pub use system_flags::{SystemFlag, SystemFlags};
