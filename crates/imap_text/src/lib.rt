//! The texts that a client's commands and a server's replies are both made of (RFC 9051, 9): atoms, strings, tags, and the names of flags and of STATUS items.
#![tactic(auto)]

mod flag_names;
mod status_items;
mod strings;
mod tags;
mod utf8;

pub use flag_names::{put_flag, system_name};
pub use status_items::{StatusItemForm, put_item};
pub use strings::{
    AstringChar, Atom, are_all, astring_of, crlf_of, is_atom, literal_of, put_astring, put_quoted,
    string_of,
};
pub use tags::put_tag;
