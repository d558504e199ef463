// The answers to the lines of a DELETE (RFC 3656, 4.3 and 4.4).
ghost use Rattle.std.specs.Prelude.{◌≡◌, IfOk};
ghost use Rattle.name_flows.specs.Deletes.{closes, deactivate_ok, delete_ok};
ghost use Rattle.name_flows.specs.Steps.{given};

use crate::ask::Answers;
use crate::flow::Stage;
use crate::flows::{Flows, done, forget};
use crate::gives::Gives;
use crate::sent::{Sent, SentLine};
use link_msg::Outcome;
use mupdate_codec::Tag;
use mur_base::{Copied, MailName, Memory};
use node_record::BackendRecord;
use std::alloc::Global;

/// The mailbox is closed, and DELETE sent.
fn close(alloc: Global, tag: Tag, name: MailName) -> Result<Gives, Memory>
    ensures { IfOk result (λ it. it ≡ closes tag name) }
{
    let what = Sent::Delete(name.copy(alloc)?);
    let entry = BackendRecord::Closing(name);
    Gives::changed(alloc, entry, Answers::new(alloc)).and_line(SentLine { tag, what })
}

impl Flows {
    /// DEACTIVATE's OK.
    #[tactic(auto, unfolding(crate::specs::Deletes::deactivate_ok))]
    pub fn deactivate_ok(
        &mut self,
        alloc: Global,
        tag: Tag,
        name: MailName,
    ) -> Result<Gives, Memory>
        ensures { IfOk result (λ it. given self.new it ≡ deactivate_ok self.old tag name) }
    {
        if !self.is_at(&name, Stage::Deactivating) {
            return Ok(Gives::nothing(alloc));
        }
        self.go_on(&name, Stage::Deleting);
        close(alloc, tag, name)
    }

    /// The OK of a client's DELETE.
    #[tactic(auto, unfolding(crate::specs::Deletes::delete_ok))]
    pub fn delete_ok(&mut self, alloc: Global, name: MailName) -> Result<Gives, Memory>
        ensures { IfOk result (λ it. given self.new it ≡ delete_ok self.old name) }
    {
        if !self.is_at(&name, Stage::Deleting) {
            return Ok(Gives::nothing(alloc));
        }
        let answers = self.end(alloc, &name, done(alloc, Outcome::None))?;
        Ok(Gives::changed(alloc, forget(alloc, name)?, answers))
    }
}
