// The answers to the lines that no client waits for: ACTIVATE and DELETE of a resync, and FIND (RFC 3656, 4.1, 4.4 and 4.5).
ghost use Rattle.std.specs.Prelude.{◌≡◌, ◌&&◌, not, IfOk};
ghost use Rattle.node_record.specs.Held.{held_at};
ghost use Rattle.name_flows.specs.Finds.{forgotten_if, again_ok, wipe_ok, find_line_step, find_ok};
ghost use Rattle.name_flows.specs.Steps.{given};

use crate::ask::Answers;
use crate::flows::{Flows, forget};
use crate::gives::Gives;
use crate::phases::{is_closing, is_creating};
use mur_base::{MailName, Memory, NodeName};
use node_record::{BackendRecord, HeldNames};
use std::alloc::Global;

/// A mailbox is forgotten, if it was.
fn forgotten_if(alloc: Global, is_so: bool, name: MailName) -> Result<Gives, Memory>
    ensures { IfOk result (λ it. it ≡ forgotten_if is_so name) }
{
    if is_so {
        Ok(Gives::changed(alloc, forget(alloc, name)?, Answers::new(alloc)))
    } else {
        Ok(Gives::nothing(alloc))
    }
}

impl Flows {
    /// The OK of a resync's ACTIVATE: a mailbox that is closed here is open again, unless a flow runs on the name.
    pub fn again_ok(&self, alloc: Global, held: &HeldNames, name: MailName) -> Gives
        ensures { given self.now result ≡ again_ok self.now held.now name }
    {
        if is_closing(held, &name) && !self.has_flow(&name) {
            return Gives::changed(alloc, BackendRecord::Opened(name), Answers::new(alloc));
        }
        Gives::nothing(alloc)
    }

    /// The OK of a DELETE that no client waits for: what was made here is forgotten.
    pub fn wipe_ok(&self, alloc: Global, held: &HeldNames, name: MailName) -> Result<Gives, Memory>
        ensures { IfOk result (λ it. given self.now it ≡ wipe_ok self.now held.now name) }
    {
        let is_so = is_creating(held, &name);
        forgotten_if(alloc, is_so, name)
    }

    /// A record is told in answer to FIND: a mailbox that is closed here has moved to its server.
    pub fn find_line(
        &mut self,
        alloc: Global,
        held: &HeldNames,
        name: MailName,
        server: NodeName,
    ) -> Gives
        ensures { given self.new result ≡ find_line_step self.old held.now name server }
    {
        self.found = true;
        if is_closing(held, &name) {
            let entry = BackendRecord::Pointer(name, server);
            return Gives::changed(alloc, entry, Answers::new(alloc));
        }
        Gives::nothing(alloc)
    }

    /// FIND's OK: where no record was told, a mailbox that is closed here is no more.
    pub fn find_ok(
        &self,
        alloc: Global,
        held: &HeldNames,
        name: MailName,
        found: bool,
    ) -> Result<Gives, Memory>
        ensures { IfOk result (λ it. given self.now it ≡ find_ok self.now held.now name found) }
    {
        let is_so = !found && is_closing(held, &name);
        forgotten_if(alloc, is_so, name)
    }
}
