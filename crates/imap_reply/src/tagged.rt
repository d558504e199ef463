// The tagged line of a reply (RFC 9051, 7.1).
ghost use Rattle.std.specs.Prelude.{◌≡◌, ◌++◌, OnOk, codes};
ghost use Rattle.imap_text.specs.Tags.{tag_text};
ghost use Rattle.imap_reply.specs.TaggedLine.{no_text, bad_text, ok_text, tagged_line};

use crate::code::put_code;
use imap_text::put_tag;
use imap_types::{BadText, Code, NoText, Tag, Verdict};
use mur_base::{Bytes, Memory};

/// Writes the line that ends a reply, if there is one.
#[tactic(auto, unfolding(crate::specs::TaggedLine::tagged_line, crate::specs::TaggedLine::under))]
pub fn put_tagged(tag: &Tag, verdict: &Verdict, out: &mut Bytes) -> Result<(), Memory>
    ensures { OnOk result (out.new ≡ out.old ++ tagged_line tag.now verdict.now) }
{
    match verdict {
        Verdict::Nothing => Ok(()),
        Verdict::Ok(code, name) => {
            put_begin(tag, out)?;
            put_ok(code, name.as_slice(), out)?;
            out.extend_from_slice(b"\r\n")
        }
        Verdict::No(why) => {
            put_begin(tag, out)?;
            put_no(*why, out)?;
            out.extend_from_slice(b"\r\n")
        }
        Verdict::Bad(why) => {
            put_begin(tag, out)?;
            put_bad(*why, out)?;
            out.extend_from_slice(b"\r\n")
        }
    }
}

fn put_begin(tag: &Tag, out: &mut Bytes) -> Result<(), Memory>
    ensures { OnOk result (out.new ≡ out.old ++ (tag_text tag.now ++ codes " ")) }
{
    put_tag(tag, out)?;
    out.push(b' ')
}

#[tactic(auto, unfolding(crate::specs::TaggedLine::ok_text))]
fn put_ok(code: &Code, name: &[u8], out: &mut Bytes) -> Result<(), Memory>
    ensures { OnOk result (out.new ≡ out.old ++ ok_text code.now name.now) }
{
    out.extend_from_slice(b"OK ")?;
    put_code(code, out)?;
    out.extend_from_slice(name)?;
    out.extend_from_slice(b" completed")
}

fn put_no(why: NoText, out: &mut Bytes) -> Result<(), Memory>
    ensures { OnOk result (out.new ≡ out.old ++ (codes "NO " ++ no_text why)) }
{
    out.extend_from_slice(b"NO ")?;
    out.extend_from_slice(no_text(why))
}

#[tactic(auto, unfolding(crate::specs::TaggedLine::no_text))]
fn no_text(why: NoText) -> &'static [u8]
    ensures { result.now ≡ no_text why }
{
    match why {
        NoText::AuthenticationFailed => b"[AUTHENTICATIONFAILED] login failed",
        NoText::AlreadyExists => b"[ALREADYEXISTS] mailbox exists",
        NoText::NonExistent => b"[NONEXISTENT] no such mailbox",
        NoText::TryCreate => b"[TRYCREATE] no such mailbox",
        NoText::NoPerm => b"[NOPERM] not permitted",
        NoText::Cannot => b"[CANNOT] cannot be done",
        NoText::Limit => b"[LIMIT] too large or too many",
        NoText::BeingMoved => b"[UNAVAILABLE] mailbox is being moved",
        NoText::NotReached => b"[UNAVAILABLE] server not reached",
    }
}

fn put_bad(why: BadText, out: &mut Bytes) -> Result<(), Memory>
    ensures { OnOk result (out.new ≡ out.old ++ (codes "BAD " ++ bad_text why)) }
{
    out.extend_from_slice(b"BAD ")?;
    out.extend_from_slice(bad_text(why))
}

#[tactic(auto, unfolding(crate::specs::TaggedLine::bad_text))]
fn bad_text(why: BadText) -> &'static [u8]
    ensures { result.now ≡ bad_text why }
{
    match why {
        BadText::Syntax => b"syntax error",
        BadText::State => b"not in this state",
        BadText::Message => b"no such message",
    }
}
