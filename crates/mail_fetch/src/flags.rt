// The flags of a message as text.
ghost use Rattle.std.specs.Prelude.{◌≡◌, [], ◌∷◌, ◌++◌, false, IfOk, OnOk};
ghost use Rattle.mail_fetch.specs.FlagText.{name_if_set, system_names, spaced_names, are_begun, flags_text};

use mail_message::{FlagSet, Keywords, SystemFlags};
use mur_base::{Bytes, Memory};

/// Puts the flags at the end of a text, in parentheses: the system flags, then the keywords in byte order.
pub fn put_flags(text: &mut Bytes, flags: &FlagSet) -> Result<(), Memory>
    ensures { OnOk result (text.new ≡ text.old ++ flags_text flags.now) }
{
    text.extend_from_slice(b"FLAGS (")?;
    let begun = put_system(text, flags.system())?;
    put_keywords(text, begun, flags.keywords())?;
    text.push(b')')
}

/// Puts the names of the system flags that are set, and tells whether there is one.
fn put_system(text: &mut Bytes, flags: SystemFlags) -> Result<bool, Memory>
    ensures text { OnOk result (text.new ≡ text.old ++ spaced_names false (system_names flags)) }
    ensures begun { IfOk result (λ begun. begun ≡ are_begun false (system_names flags)) }
{
    let begun = put_named(text, false, flags.answered, b"\\Answered")?;
    let begun = put_named(text, begun, flags.flagged, b"\\Flagged")?;
    let begun = put_named(text, begun, flags.deleted, b"\\Deleted")?;
    let begun = put_named(text, begun, flags.seen, b"\\Seen")?;
    put_named(text, begun, flags.draft, b"\\Draft")
}

/// Puts the name of a flag, if it is set, and tells whether a name has been put.
fn put_named(text: &mut Bytes, begun: bool, is_set: bool, name: &[u8]) -> Result<bool, Memory>
    ensures text { OnOk result (text.new ≡ text.old ++ spaced_names begun (name_if_set is_set name.now)) }
    ensures begun { IfOk result (λ now. now ≡ are_begun begun (name_if_set is_set name.now)) }
{
    if is_set {
        put_name(text, begun, name)?;
    }
    Ok(begun || is_set)
}

fn put_name(text: &mut Bytes, begun: bool, name: &[u8]) -> Result<(), Memory>
    ensures { OnOk result (text.new ≡ text.old ++ spaced_names begun (name.now ∷ [])) }
{
    if begun {
        text.push(b' ')?;
    }
    text.extend_from_slice(name)
}

fn put_keywords(text: &mut Bytes, begun: bool, keywords: &Keywords) -> Result<(), Memory>
    ensures { OnOk result (text.new ≡ text.old ++ spaced_names begun keywords.now) }
{
    let mut has_begun = begun;
    for keyword in keywords.iter() {
        put_name(text, has_begun, keyword.as_bytes())?;
        has_begun = true;
    }
    Ok(())
}
