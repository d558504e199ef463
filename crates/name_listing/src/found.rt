// The lines of a LIST are found.
ghost use Rattle.std.specs.Prelude.{◌≡◌, ◌≤◌, ◌<◌, length, All, OnOk, take, drop};
ghost use Rattle.std.specs.List.{fold};
ghost use Rattle.mur_base.specs.declared.limits.TheConstants.{NAME_LIMIT};
ghost use Rattle.std.specs.Prelude.{is_some, if◌then◌else◌};
ghost use Rattle.std.specs.Ordering.{nat_cmp};
ghost use Rattle.std.specs.Cmp.Lexicographic.{slice_cmp};
ghost use Rattle.mur_base.specs.Map.{value_at, with_entry};
ghost use Rattle.imap_types.specs.declared.reply.Attribute.TheVariants.{NonExistent};
ghost use Rattle.name_listing.specs.Found.{with_mailbox, with_level, with_levels};

use crate::level::Level;
use crate::pattern::Pattern;
use imap_types::Attribute;
use mur_base::{Map, Memory};

/// Names that are listed, with what is told of each.
pub type Found<'a> = Map<Level<'a>, Attribute>;

/// Puts in the mailboxes that match.
#[tactic(auto, unfolding(crate::specs::Found::with_mailbox))]
pub fn put_mailboxes<'a>(
    names: &[Level<'a>],
    pattern: &Pattern,
    found: &mut Found<'a>,
) -> Result<(), Memory>
    requires { All (λ name. length name ≤ NAME_LIMIT) names.now }
    ensures { OnOk result (found.new ≡ fold (with_mailbox pattern.now) found.old names.now) }
{
    for name in names {
        if pattern.fits(name.as_bytes()) {
            found.insert(Level::of(name.as_bytes()), Attribute::None)?;
        }
    }
    Ok(())
}

/// Puts in the levels that match and stand above mailboxes.
pub fn put_levels<'a>(
    names: &[Level<'a>],
    pattern: &Pattern,
    found: &mut Found<'a>,
) -> Result<(), Memory>
    requires { All (λ name. length name ≤ NAME_LIMIT) names.now }
    ensures { OnOk result (found.new ≡ fold (with_levels pattern.now) found.old names.now) }
{
    for name in names {
        put_levels_of(name.as_bytes(), pattern, found)?;
    }
    Ok(())
}

fn put_levels_of<'a>(name: &'a [u8], pattern: &Pattern, found: &mut Found<'a>) -> Result<(), Memory>
    requires { length name.now ≤ NAME_LIMIT }
    ensures { OnOk result (found.new ≡ with_levels pattern.now found.old name.now) }
{
    for i in 0..name.len() {
        if name[i] == b'.' {
            put_level(&name[..i], pattern, found)?;
        }
    }
    Ok(())
}

#[tactic(auto, unfolding(crate::specs::Found::with_level))]
fn put_level<'a>(level: &'a [u8], pattern: &Pattern, found: &mut Found<'a>) -> Result<(), Memory>
    requires { length level.now ≤ NAME_LIMIT }
    ensures { OnOk result (found.new ≡ with_level pattern.now found.old level.now) }
{
    // Most levels don't match, which is known sooner than whether they are there.
    if pattern.fits(level) {
        put_missing(level, found)?;
    }
    Ok(())
}

// Puts in a level that isn't there yet.
fn put_missing<'a>(level: &'a [u8], found: &mut Found<'a>) -> Result<(), Memory>
    ensures { OnOk result (found.new ≡ (if is_some (value_at (slice_cmp nat_cmp) found.old level.now) then found.old
        else with_entry (slice_cmp nat_cmp) found.old level.now NonExistent)) }
{
    let key = Level::of(level);
    if !found.contains_key(&key) {
        found.insert(key, Attribute::NonExistent)?;
    }
    Ok(())
}
