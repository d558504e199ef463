// A whole reply (RFC 9051, 7).
ghost use Rattle.std.specs.Prelude.{◌≡◌, ◌++◌, OnOk};
ghost use Rattle.imap_reply.specs.SoundTexts.{IsSound};
ghost use Rattle.imap_reply.specs.ReadAsMeant.{IsReadAsMeant};
ghost use Rattle.imap_reply.specs.ReplyText.{line_text, lines_text, reply_text};

use crate::access::{put_acl, put_my_rights};
use crate::bye::put_bye;
use crate::capability::put_capability;
use crate::enabled::put_enabled;
use crate::exists::put_exists;
use crate::expunge::put_expunge;
use crate::fetch::put_fetch;
use crate::flags::put_flags_line;
use crate::list::put_list;
use crate::ok_lines::{put_closed, put_permanent, put_uid_next, put_uid_validity};
use crate::search::put_search;
use crate::status::put_status;
use crate::tagged::put_tagged;
use imap_types::{Reply, ReplyLine, Tag};
use mur_base::{Bytes, Memory};

/// Writes a reply under the tag of its command: its untagged lines in order, and then the tagged one. A client reads of it what
/// was meant, whatever the texts in it are.
#[tactic(auto, using(std::proofs::lemmas::Grind::common_steps), unfolding(crate::specs::ReplyText::reply_text))]
pub fn write(tag: &Tag, reply: &Reply, out: &mut Bytes) -> Result<(), Memory>
    ensures text { OnOk result (out.new ≡ out.old ++ reply_text tag.now reply.now) }
    ensures read { IsSound tag.now reply.now → IsReadAsMeant tag.now reply.now }
{
    put_lines(tag, reply.lines.as_slice(), out)?;
    put_tagged(tag, &reply.verdict, out)
}

#[tactic(auto, using(std::proofs::lemmas::Grind::common_steps), unfolding(crate::specs::ReplyText::lines_text))]
fn put_lines(tag: &Tag, lines: &[ReplyLine], out: &mut Bytes) -> Result<(), Memory>
    ensures { OnOk result (out.new ≡ out.old ++ lines_text tag.now lines.now) }
{
    for line in lines {
        put_line(tag, line, out)?;
    }
    Ok(())
}

#[tactic(auto, unfolding(crate::specs::ReplyText::line_text))]
fn put_line(tag: &Tag, line: &ReplyLine, out: &mut Bytes) -> Result<(), Memory>
    ensures { OnOk result (out.new ≡ out.old ++ line_text tag.now line.now) }
{
    match line {
        ReplyLine::Capability => put_capability(out),
        ReplyLine::Bye(bye) => put_bye(*bye, out),
        ReplyLine::Enabled => put_enabled(out),
        ReplyLine::Closed => put_closed(out),
        ReplyLine::Flags(flags) => put_flags_line(flags.as_slice(), out),
        ReplyLine::Exists(count) => put_exists(*count, out),
        ReplyLine::Listed(attribute, name) => put_list(*attribute, name.as_slice(), out),
        ReplyLine::Permanent(flags, new) => put_permanent(flags.as_slice(), *new, out),
        ReplyLine::UidNext(uid) => put_uid_next(*uid, out),
        ReplyLine::UidValidity(serial) => put_uid_validity(*serial, out),
        ReplyLine::Status(name, counts) => put_status(name.as_slice(), counts.as_slice(), out),
        ReplyLine::Search(by_uid, numbers) => put_search(tag, *by_uid, numbers.as_slice(), out),
        ReplyLine::Expunge(number) => put_expunge(*number, out),
        ReplyLine::Fetch(number, parts) => put_fetch(*number, parts.as_slice(), out),
        ReplyLine::Acl(name, acl) => put_acl(name.as_slice(), acl.as_slice(), out),
        ReplyLine::MyRights(name, rights) => put_my_rights(name.as_slice(), rights.as_slice(), out),
    }
}
