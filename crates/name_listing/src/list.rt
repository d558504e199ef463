// What LIST tells of names.
ghost use Rattle.std.specs.Prelude.{◌≡◌, ◌≤◌, length, All, IfOk, map};
ghost use Rattle.std.specs.Ordering.{nat_cmp};
ghost use Rattle.std.specs.Cmp.Lexicographic.{slice_cmp};
ghost use Rattle.mur_base.specs.declared.limits.TheConstants.{NAME_LIMIT};
ghost use Rattle.mur_base.specs.Map.{IsInOrder};
ghost use Rattle.name_listing.specs.Found.{found_lines};
ghost use Rattle.name_listing.specs.Listing.{IsListing};
ghost use Rattle.name_listing.specs.Told.{line_of};

use crate::found::{Found, put_levels, put_mailboxes};
use crate::level::Level;
use crate::pattern::Pattern;
use imap_types::{Attribute, ReplyLine, ReplyLines};
use mur_base::{Bytes, Items, Memory};
use std::alloc::Global;

/// The names that a LIST tells, in the order of their bytes, with what it tells of each.
pub type Lines = Items<(Bytes, Attribute)>;

/// What LIST tells of mailboxes, where these are the names of all on which the user has rights, as they are shown. Its time grows as the number of
/// their levels, each of which is looked up and compared with the pattern; only what is listed is copied.
pub fn listing(alloc: Global, names: &[Level<'_>], pattern: &Pattern) -> Result<Lines, Memory>
    requires { All (λ name. length name ≤ NAME_LIMIT) names.now }
    ensures found { IfOk result (λ lines. lines ≡ found_lines pattern.now names.now) }
    ensures listing { IfOk result (λ lines. IsListing pattern.now names.now lines) }
{
    let mut found = Found::new(alloc);
    put_mailboxes(names, pattern, &mut found)?;
    if pattern.ends_in_percent() {
        put_levels(names, pattern, &mut found)?;
    }
    in_order(alloc, &found)
}

// The names that were found, as texts of their own.
fn in_order(alloc: Global, found: &Found<'_>) -> Result<Lines, Memory>
    ensures lines { IfOk result (λ lines. lines ≡ found.now) }
    ensures rising { IsInOrder (slice_cmp nat_cmp) found.now }
{
    let mut lines = Lines::new(alloc);
    for (level, attribute) in found.iter() {
        let name = Bytes::from_slice(alloc, level.as_bytes())?;
        lines.push((name, *attribute))?;
    }
    Ok(lines)
}

/// The lines of the reply, in the same order.
pub fn reply_lines(alloc: Global, found: Lines) -> Result<ReplyLines, Memory>
    ensures { IfOk result (λ lines. lines ≡ map line_of found) }
{
    let mut lines = ReplyLines::new(alloc);
    for (name, attribute) in found.into_vec() {
        lines.push(ReplyLine::Listed(attribute, name))?;
    }
    Ok(lines)
}
