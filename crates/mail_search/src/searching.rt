// SEARCH.
ghost use Rattle.std.specs.Prelude.{◌≡◌, length, IfOk};
ghost use Rattle.mail_search.specs.Search.{found};

use crate::marks::{marked, marks_of_all};
use mail_message::{Keys, Summaries, Uids};
use mur_base::Memory;
use std::alloc::Global;

/// The UIDs of those messages that all keys match, in their order (RFC 9051, 6.4.4). The number of each message stands at its
/// place among the numbers; where `*` stands in a part of a set, it names nothing, so a number is put in its place first. Each
/// message costs what the keys cost: a set costs a step or two where the numbers rise, however many ranges it has.
pub fn search(alloc: Global, keys: &Keys, list: &Summaries, numbers: &Uids) -> Result<Uids, Memory>
    requires { length numbers.now ≡ length list.now }
    ensures { IfOk result (λ uids. uids ≡ found keys.now list.now numbers.now) }
{
    let messages = list.as_slice();
    let marks = marks_of_all(alloc, keys.as_slice(), messages, numbers.as_slice())?;
    Ok(marked(alloc, messages, &marks)?)
}
