//! Names of mailboxes, locations and dates as parts of a grammar: which bytes they go on with, byte by byte, and what is read of them.
//!
//! [`NamesFrom`] reads a mailbox name as it comes, in quotes or of so many bytes: UTF-8 in levels of which none is empty
//! (`specs/Names.antt`). [`texts_of`] reads a location `server!partition` of so many bytes (`specs/Locations.antt`), and
//! [`Dates`] a date text (`specs/Dates.antt`). Each stops at the first byte with which none goes on.
#![tactic(auto)]

mod any;
mod dates;
mod locations;
mod names;

pub use any::Any;
pub use dates::{Dates, date_named, date_time_of, put_date_time};
pub use locations::{
    ShortByte, Texts, made_location, made_server, sized_location_of, sized_server_of, texts_of,
};
pub use names::{NamesFrom, made_name, sized_name_of};
