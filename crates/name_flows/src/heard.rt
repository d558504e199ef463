// A response of the master comes (RFC 3656, 3).
ghost use Rattle.std.specs.Prelude.{◌≡◌, IfOk};
ghost use Rattle.name_flows.specs.Heard.{is_same_tag, is_answer, first_line, what_in, taken, ok_of, ok_step, no_of, no_step, record_step, response_step, heard_step};
ghost use Rattle.name_flows.specs.Steps.{given, handed};

use crate::flows::Flows;
use crate::gives::{Gives, Step};
use crate::sent::{Sent, SentLine};
use mupdate_codec::{MResponse, Tag};
use mur_base::{Bytes, Copied, Location, MailName, Memory};
use node_record::HeldNames;
use std::alloc::Global;

/// Whether two tags are the same.
fn is_same_tag(one: &Tag, other: &Tag) -> bool
    ensures { result ≡ is_same_tag one.now other.now }
{
    match (one, other) {
        (Tag::Star, Tag::Star) => true,
        (Tag::Text(one), Tag::Text(other)) => one.as_slice() == other.as_slice(),
        _ => false,
    }
}

impl Flows {
    /// Whether a response under this tag answers the first line.
    #[tactic(auto, unfolding(crate::specs::Heard::is_answer))]
    fn is_answer(&self, tag: &Tag) -> bool
        ensures { result ≡ is_answer self.now.sent tag.now }
    {
        match self.sent.first() {
            Some(line) => is_same_tag(&line.tag, tag),
            None => false,
        }
    }

    /// Takes the first line off, whose last answer has come.
    fn take_first(&mut self) -> Option<SentLine>
        ensures line { result ≡ first_line self.old.sent }
        ensures flows { self.new ≡ taken self.old }
    {
        self.found = false;
        self.sent.pop()
    }

    /// What the first line asks.
    fn first_asks(&self, alloc: Global) -> Result<Option<Sent>, Memory>
        ensures { IfOk result (λ what. what ≡ what_in (first_line self.now.sent)) }
    {
        match self.sent.first() {
            Some(line) => Ok(Some(line.what.copy(alloc)?)),
            None => Ok(None),
        }
    }

    /// OK to a line.
    #[tactic(auto, unfolding(crate::specs::Heard::ok_of))]
    fn ok_to(
        &mut self,
        alloc: Global,
        held: &HeldNames,
        found: bool,
        line: SentLine,
        text: &Bytes,
    ) -> Result<Gives, Memory>
        ensures { IfOk result (λ it. given self.new it ≡ ok_of self.old held.now found line.tag text.now line.what) }
    {
        let SentLine { tag, what } = line;
        match what {
            Sent::List => self.list_ok(alloc, held),
            Sent::Reserve(name) => self.reserve_ok(alloc, tag, name, text),
            Sent::Make(name) => self.make_ok(alloc, name),
            Sent::Again(name) => Ok(self.again_ok(alloc, held, name)),
            Sent::Deactivate(name) => self.deactivate_ok(alloc, tag, name),
            Sent::Delete(name) => self.delete_ok(alloc, name),
            Sent::Wipe(name) => self.wipe_ok(alloc, held, name),
            Sent::Find(name) => self.find_ok(alloc, held, name, found),
        }
    }

    /// NO to a line.
    #[tactic(auto, unfolding(crate::specs::Heard::no_of))]
    fn no_to(&mut self, alloc: Global, what: Sent, text: &Bytes) -> Result<Gives, Memory>
        ensures { IfOk result (λ it. given self.new it ≡ no_of self.old text.now what) }
    {
        match what {
            Sent::Reserve(name) => self.reserve_no(alloc, &name, text),
            Sent::Make(name) => self.make_no(alloc, name),
            _ => Ok(Gives::nothing(alloc)),
        }
    }

    /// OK (RFC 3656, 3.1).
    fn ok_comes(&mut self, alloc: Global, held: &HeldNames, text: &Bytes) -> Result<Gives, Memory>
        ensures { IfOk result (λ it. given self.new it ≡ ok_step self.old held.now text.now) }
    {
        let found = self.found;
        match self.take_first() {
            Some(line) => self.ok_to(alloc, held, found, line, text),
            None => Ok(Gives::nothing(alloc)),
        }
    }

    /// NO (RFC 3656, 3.2), or BAD (RFC 3656, 3.3).
    fn no_comes(&mut self, alloc: Global, text: &Bytes) -> Result<Gives, Memory>
        ensures { IfOk result (λ it. given self.new it ≡ no_step self.old text.now) }
    {
        match self.take_first() {
            Some(line) => self.no_to(alloc, line.what, text),
            None => Ok(Gives::nothing(alloc)),
        }
    }

    /// The line of a record (RFC 3656, 3.5 and 3.6): its name is listed, or the name that was looked for is there.
    fn record_comes(
        &mut self,
        alloc: Global,
        held: &HeldNames,
        name: MailName,
        place: Location,
        is_active: bool,
    ) -> Result<Gives, Memory>
        ensures { IfOk result (λ it. given self.new it ≡ record_step self.old held.now name place is_active) }
    {
        let Some(what) = self.first_asks(alloc)? else {
            return Ok(Gives::nothing(alloc));
        };
        match what {
            Sent::List => self.listed(alloc, held, name, is_active),
            Sent::Find(sought) => Ok(self.find_line(alloc, held, sought, place.server)),
            _ => Ok(Gives::nothing(alloc)),
        }
    }

    /// A response to the first line.
    fn response_comes(
        &mut self,
        alloc: Global,
        held: &HeldNames,
        response: MResponse,
    ) -> Result<Gives, Memory>
        ensures { IfOk result (λ it. given self.new it ≡ response_step self.old held.now response) }
    {
        match response {
            MResponse::Mailbox(name, place, _acl) => {
                self.record_comes(alloc, held, name, place, true)
            }
            MResponse::Reserve(name, place) => self.record_comes(alloc, held, name, place, false),
            MResponse::Delete(_name) => Ok(Gives::nothing(alloc)),
            MResponse::Ok(text) => self.ok_comes(alloc, held, &text),
            MResponse::No(text) | MResponse::Bad(text) => self.no_comes(alloc, &text),
        }
    }

    /// A response under a tag; one under another tag than the first line's is no answer.
    #[tactic(auto, unfolding(crate::specs::Heard::heard_step))]
    fn comes_under(
        &mut self,
        alloc: Global,
        held: &HeldNames,
        tag: &Tag,
        response: MResponse,
    ) -> Result<Gives, Memory>
        ensures { IfOk result (λ it. given self.new it ≡ heard_step self.old held.now tag.now response) }
    {
        if !self.is_answer(tag) {
            return Ok(Gives::nothing(alloc));
        }
        self.response_comes(alloc, held, response)
    }

    /// A response comes. It answers the first of the lines whose last answer hasn't come; one under another tag than that line's changes nothing.
    /// For want of memory the state is spent.
    pub fn heard(
        &mut self,
        alloc: Global,
        held: &HeldNames,
        tag: &Tag,
        response: MResponse,
    ) -> Result<Step, Memory>
        ensures { IfOk result (λ step. record { flows = self.new; step = step } ≡ handed held.now (heard_step self.old held.now tag.now response)) }
    {
        let gives = self.comes_under(alloc, held, tag, response)?;
        self.hand_out(alloc, held, gives)
    }
}
