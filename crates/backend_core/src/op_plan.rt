// What an operation comes to: what is written, and what is then told.
ghost use Rattle.std.specs.Prelude.{◌≡◌, [], ◌∷◌, IfOk};
ghost use Rattle.backend_core.specs.OpPlan.{told_after, tells_at_once, looks};
ghost use Rattle.backend_core.specs.declared.op_plan.Telling.TheVariants.{Look};

use crate::backend::Backend;
use crate::response::Response;
use link_msg::Outcome;
use mur_base::{Items, MailName, Memory};
use node_record::BackendRecord;
use std::alloc::Global;

/// Entries of a backend's disk, in their order.
pub type Entries = Items<BackendRecord>;

/// What is told of an operation when its entries are carried out.
#[derive(Drop)]
pub enum Telling {
    /// This.
    Now(Response),
    /// The outcome, and what the mailbox looks like then.
    Look(MailName, Outcome),
}

/// An operation that isn't carried out yet.
#[derive(Drop)]
pub struct OpPlan {
    /// What it writes, and changes: nothing else of the backend changes.
    pub entries: Entries,
    pub telling: Telling,
}

impl OpPlan {
    /// Nothing is written, and this is told. It takes no memory.
    pub fn tells(alloc: Global, response: Response) -> OpPlan
        ensures { result ≡ tells_at_once response }
    {
        OpPlan {
            entries: Entries::new(alloc),
            telling: Telling::Now(response),
        }
    }

    /// Nothing is written, and the mailbox is looked at. It takes no memory.
    pub fn looks(alloc: Global, name: MailName, outcome: Outcome) -> OpPlan
        ensures { result ≡ looks name outcome }
    {
        OpPlan {
            entries: Entries::new(alloc),
            telling: Telling::Look(name, outcome),
        }
    }
}

impl Telling {
    /// What is told, in one pass over the messages if the mailbox is looked at.
    #[tactic(auto, unfolding(crate::specs::OpPlan::told_after, crate::specs::OpPlan::looked))]
    pub fn by(self, alloc: Global, home: &Backend) -> Result<Response, Memory>
        ensures { IfOk result (λ response. response ≡ told_after home.now self) }
    {
        match self {
            Telling::Now(response) => Ok(response),
            Telling::Look(name, outcome) => match home.held.get(&name) {
                Some(held) => Ok(Response::done(outcome, held.content.look(alloc)?)),
                None => Ok(Response::not_now()),
            },
        }
    }
}
