// Lines sent to the master (RFC 3656, 4).
ghost use Rattle.std.specs.Prelude.{◌≡◌, IfOk};
ghost use Rattle.mail_message.specs.FirstAcl.{first_acl};
ghost use Rattle.name_flows.specs.Lines.{acl_at, command_of, line_text, server_prefix};

use mail_message::first_acl;
use mupdate_codec::{MCommand, Tag, print_command};
use mur_base::{Bytes, Copied, Items, Location, MailName, Memory};
use node_record::{HeldNames, copied_place};
use std::alloc::Global;

/// What a line asks of the master, and why.
#[derive(Drop)]
pub enum Sent {
    /// LIST of a resync.
    List,
    /// RESERVE of a CREATE.
    Reserve(MailName),
    /// ACTIVATE of a CREATE.
    Make(MailName),
    /// ACTIVATE of a resync: the reserved name is served here again.
    Again(MailName),
    /// DEACTIVATE of a DELETE.
    Deactivate(MailName),
    /// DELETE of a DELETE.
    Delete(MailName),
    /// DELETE of a name that never became a mailbox.
    Wipe(MailName),
    /// FIND of a closed name that wasn't listed.
    Find(MailName),
}

/// A line sent to the master.
#[derive(Drop)]
pub struct SentLine {
    pub tag: Tag,
    pub what: Sent,
}

/// The lines of one step, in their order.
pub type SentLines = Items<SentLine>;

/// What the locations of a server begin with.
fn server_prefix(alloc: Global, me: &Location) -> Result<Bytes, Memory>
    ensures { IfOk result (λ prefix. prefix ≡ server_prefix me.now) }
{
    let mut prefix = Bytes::from_slice(alloc, me.server.as_bytes())?;
    prefix.push(b'!')?;
    Ok(prefix)
}

/// The access list of a mailbox that is here.
fn acl_at(alloc: Global, held: &HeldNames, name: &MailName) -> Result<Bytes, Memory>
    ensures { IfOk result (λ acl. acl ≡ acl_at held.now name.now) }
{
    match held.get(name) {
        Some(it) => Bytes::from_slice(alloc, it.content.acl()),
        None => Ok(Bytes::new(alloc)),
    }
}

/// ACTIVATE.
fn activate(alloc: Global, me: &Location, name: &MailName, acl: Bytes) -> Result<MCommand, Memory>
    ensures { IfOk result (λ command. command ≡ MCommand.Activate name.now me.now acl) }
{
    let place = copied_place(alloc, me)?;
    Ok(MCommand::Activate(name.copy(alloc)?, place, acl))
}

impl Sent {
    /// The command, of a backend at this place.
    fn command(&self, alloc: Global, me: &Location, held: &HeldNames) -> Result<MCommand, Memory>
        ensures { IfOk result (λ command. command ≡ command_of me.now held.now self.now) }
    {
        match self {
            Sent::List => Ok(MCommand::List(Some(server_prefix(alloc, me)?))),
            Sent::Reserve(name) => {
                let place = copied_place(alloc, me)?;
                Ok(MCommand::Reserve(name.copy(alloc)?, place))
            }
            Sent::Make(name) => activate(alloc, me, name, first_acl(alloc, name)?),
            Sent::Again(name) => activate(alloc, me, name, acl_at(alloc, held, name)?),
            Sent::Deactivate(name) => {
                let place = copied_place(alloc, me)?;
                Ok(MCommand::Deactivate(name.copy(alloc)?, place))
            }
            Sent::Delete(name) | Sent::Wipe(name) => Ok(MCommand::Delete(name.copy(alloc)?)),
            Sent::Find(name) => Ok(MCommand::Find(name.copy(alloc)?)),
        }
    }
}

impl Copied for Sent {
    fn copy(&self, alloc: Global) -> Result<Sent, Memory> {
        match self {
            Sent::List => Ok(Sent::List),
            Sent::Reserve(name) => Ok(Sent::Reserve(name.copy(alloc)?)),
            Sent::Make(name) => Ok(Sent::Make(name.copy(alloc)?)),
            Sent::Again(name) => Ok(Sent::Again(name.copy(alloc)?)),
            Sent::Deactivate(name) => Ok(Sent::Deactivate(name.copy(alloc)?)),
            Sent::Delete(name) => Ok(Sent::Delete(name.copy(alloc)?)),
            Sent::Wipe(name) => Ok(Sent::Wipe(name.copy(alloc)?)),
            Sent::Find(name) => Ok(Sent::Find(name.copy(alloc)?)),
        }
    }
}

/// An equal tag of its own.
fn copied_tag(alloc: Global, tag: &Tag) -> Result<Tag, Memory>
    ensures { IfOk result (λ copy. copy ≡ tag.now) }
{
    match tag {
        Tag::Star => Ok(Tag::Star),
        Tag::Text(text) => Ok(Tag::Text(Bytes::from_slice(alloc, text.as_slice())?)),
    }
}

impl Copied for SentLine {
    fn copy(&self, alloc: Global) -> Result<SentLine, Memory> {
        let tag = copied_tag(alloc, &self.tag)?;
        Ok(SentLine {
            tag,
            what: self.what.copy(alloc)?,
        })
    }
}

impl SentLine {
    /// The bytes of the line.
    pub fn text(&self, alloc: Global, me: &Location, held: &HeldNames) -> Result<Bytes, Memory>
        ensures { IfOk result (λ text. text ≡ line_text me.now held.now self.now) }
    {
        let command = self.what.command(alloc, me, held)?;
        print_command(alloc, &self.tag, &command)
    }
}
