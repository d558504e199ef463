// A resync: LIST of the names at this server (RFC 3656, 4.6), and its answers.
ghost use Rattle.std.specs.Prelude.{◌≡◌, ◌||◌, IfOk, OnOk};
ghost use Rattle.node_record.specs.Held.{held_at};
ghost use Rattle.name_flows.specs.Listing.{resync_line, up_step, noted, active_listed, reserved_listed, listed_step};
ghost use Rattle.name_flows.specs.Phases.{is_creating, is_open, is_closing};
ghost use Rattle.name_flows.specs.Steps.{given, handed};

use crate::ask::Answers;
use crate::flows::Flows;
use crate::gives::{Gives, Step, unasked_line};
use crate::link::waiting_in;
use crate::phases::{is_closing, is_creating, is_open};
use crate::resync::Resync;
use crate::sent::{Sent, SentLine};
use mupdate_codec::{RESYNC_TAG, Tag};
use mur_base::{Bytes, Copied, MailName, Map, Memory};
use node_record::{BackendRecord, HeldNames};
use std::alloc::Global;
use std::mem;

/// The line with which a resync begins.
fn resync_line(alloc: Global) -> Result<SentLine, Memory>
    ensures { IfOk result (λ line. line ≡ resync_line) }
{
    Ok(SentLine {
        tag: Tag::Text(Bytes::from_slice(alloc, RESYNC_TAG)?),
        what: Sent::List,
    })
}

/// A name is listed as active here: what was made or closed here is open.
fn active_listed(alloc: Global, held: &HeldNames, name: MailName) -> Gives
    ensures { result ≡ active_listed held.now name }
{
    if is_creating(held, &name) || is_closing(held, &name) {
        return Gives::changed(alloc, BackendRecord::Opened(name), Answers::new(alloc));
    }
    Gives::nothing(alloc)
}

/// A name is listed as reserved here: a mailbox that is open or closed is activated again, any other name deleted.
fn reserved_listed(alloc: Global, held: &HeldNames, name: MailName) -> Result<Gives, Memory>
    ensures { IfOk result (λ it. it ≡ reserved_listed held.now name) }
{
    let what = if is_open(held, &name) || is_closing(held, &name) {
        Sent::Again(name)
    } else {
        Sent::Wipe(name)
    };
    Gives::nothing(alloc).and_line(unasked_line(alloc, what)?)
}

impl Flows {
    /// A resync begins.
    fn begin_resync(&mut self, alloc: Global) -> Result<Gives, Memory>
        ensures { IfOk result (λ it. given self.new it ≡ up_step self.old) }
    {
        let waiting = waiting_in(alloc, mem::replace(&mut self.resync, None));
        self.up = true;
        self.resync = Some(Resync {
            listed: Map::new(alloc),
            waiting,
        });
        Gives::nothing(alloc).and_line(resync_line(alloc)?)
    }

    /// The link with the master is up: a resync begins. For want of memory the state is spent.
    pub fn link_up(&mut self, alloc: Global, held: &HeldNames) -> Result<Step, Memory>
        ensures { IfOk result (λ step. record { flows = self.new; step = step } ≡ handed held.now (up_step self.old)) }
    {
        let gives = self.begin_resync(alloc)?;
        self.hand_out(alloc, held, gives)
    }

    /// Notes that a name was listed.
    fn note(&mut self, name: MailName) -> Result<(), Memory>
        ensures { OnOk result (self.new ≡ noted self.old name) }
    {
        if let Some(resync) = &mut self.resync {
            resync.listed.insert(name, ())?;
        }
        Ok(())
    }

    /// The line of a name in answer to LIST.
    pub fn listed(
        &mut self,
        alloc: Global,
        held: &HeldNames,
        name: MailName,
        is_active: bool,
    ) -> Result<Gives, Memory>
        ensures { IfOk result (λ it. given self.new it ≡ listed_step self.old held.now name is_active) }
    {
        self.note(name.copy(alloc)?)?;
        if is_active {
            Ok(active_listed(alloc, held, name))
        } else {
            reserved_listed(alloc, held, name)
        }
    }
}
