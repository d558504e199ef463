// The answers to the lines of a CREATE (RFC 3656, 4.1 and 4.9).
ghost use Rattle.std.specs.Prelude.{◌≡◌, IfOk, codes, nat_eq};
ghost use Rattle.std.specs.Cmp.Lexicographic.{pointwise};
ghost use Rattle.mail_message.specs.FirstAcl.{first_acl};
ghost use Rattle.name_flows.specs.Creates.{serial_in, reserve_refused, makes, reserve_ok, reserve_no, make_ok, make_no};
ghost use Rattle.name_flows.specs.Running.{done, forget};
ghost use Rattle.name_flows.specs.Steps.{given};

use crate::ask::Answers;
use crate::flow::Stage;
use crate::flows::{Flows, done, forget};
use crate::gives::{Gives, unasked_line};
use crate::sent::{Sent, SentLine};
use link_msg::{AnswerBody, Outcome};
use mail_message::first_acl;
use mupdate_codec::Tag;
use mur_base::{Bytes, Copied, MailName, Memory, read_number};
use node_record::BackendRecord;
use std::alloc::Global;

/// The UIDVALIDITY that RESERVE's OK tells.
#[tactic(auto, unfolding(crate::specs::Creates::serial_in))]
fn serial_in(text: &Bytes) -> Option<u32>
    ensures { result ≡ serial_in text.now }
{
    let number = read_number(text.as_slice())?;
    u32::try_from(number).ok()
}

/// What is answered where RESERVE was refused.
#[tactic(auto, unfolding(crate::specs::Creates::reserve_refused))]
fn refused(alloc: Global, text: &Bytes) -> AnswerBody
    ensures { result ≡ reserve_refused text.now }
{
    if text.as_slice() == b"1 exists".as_slice() {
        return done(alloc, Outcome::Exists);
    }
    AnswerBody::NotNow
}

/// The entry of a new mailbox.
fn make(alloc: Global, name: MailName, serial: u32) -> Result<BackendRecord, Memory>
    ensures { IfOk result (λ entry. entry ≡ BackendRecord.Make name serial (first_acl name)) }
{
    let acl = first_acl(alloc, &name)?;
    Ok(BackendRecord::Make(name, serial, acl))
}

impl Flows {
    /// The name is reserved: the mailbox is made, and ACTIVATE sent.
    fn make_at(
        &mut self,
        alloc: Global,
        tag: Tag,
        name: MailName,
        serial: u32,
    ) -> Result<Gives, Memory>
        ensures { IfOk result (λ it. given self.new it ≡ makes self.old tag name serial) }
    {
        self.go_on(&name, Stage::Making);
        let what = Sent::Make(name.copy(alloc)?);
        let entry = make(alloc, name, serial)?;
        Gives::changed(alloc, entry, Answers::new(alloc)).and_line(SentLine { tag, what })
    }

    /// RESERVE's OK.
    #[tactic(auto, unfolding(crate::specs::Creates::reserve_ok))]
    pub fn reserve_ok(
        &mut self,
        alloc: Global,
        tag: Tag,
        name: MailName,
        text: &Bytes,
    ) -> Result<Gives, Memory>
        ensures { IfOk result (λ it. given self.new it ≡ reserve_ok self.old tag name text.now) }
    {
        if !self.is_at(&name, Stage::Reserving) {
            return Ok(Gives::nothing(alloc));
        }
        match serial_in(text) {
            Some(serial) => self.make_at(alloc, tag, name, serial),
            None => self.finish(alloc, &name, AnswerBody::NotNow),
        }
    }

    /// RESERVE's NO.
    #[tactic(auto, unfolding(crate::specs::Creates::reserve_no))]
    pub fn reserve_no(
        &mut self,
        alloc: Global,
        name: &MailName,
        text: &Bytes,
    ) -> Result<Gives, Memory>
        ensures { IfOk result (λ it. given self.new it ≡ reserve_no self.old name.now text.now) }
    {
        if !self.is_at(name, Stage::Reserving) {
            return Ok(Gives::nothing(alloc));
        }
        self.finish(alloc, name, refused(alloc, text))
    }

    /// The OK of a CREATE's ACTIVATE.
    #[tactic(auto, unfolding(crate::specs::Creates::make_ok))]
    pub fn make_ok(&mut self, alloc: Global, name: MailName) -> Result<Gives, Memory>
        ensures { IfOk result (λ it. given self.new it ≡ make_ok self.old name) }
    {
        if !self.is_at(&name, Stage::Making) {
            return Ok(Gives::nothing(alloc));
        }
        let answers = self.end(alloc, &name, done(alloc, Outcome::None))?;
        Ok(Gives::changed(alloc, BackendRecord::Opened(name), answers))
    }

    /// The NO of a CREATE's ACTIVATE: there are as many mailboxes as there may be.
    #[tactic(auto, unfolding(crate::specs::Creates::make_no))]
    pub fn make_no(&mut self, alloc: Global, name: MailName) -> Result<Gives, Memory>
        ensures { IfOk result (λ it. given self.new it ≡ make_no self.old name) }
    {
        if !self.is_at(&name, Stage::Making) {
            return Ok(Gives::nothing(alloc));
        }
        let answers = self.end(alloc, &name, done(alloc, Outcome::Limit))?;
        let line = unasked_line(alloc, Sent::Wipe(name.copy(alloc)?))?;
        Gives::changed(alloc, forget(alloc, name)?, answers).and_line(line)
    }
}
