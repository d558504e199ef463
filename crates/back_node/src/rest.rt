// A step of a backend whose entry isn't carried out yet.
ghost use Rattle.std.specs.Prelude.{◌≡◌, [], None};
ghost use Rattle.back_node.specs.declared.rest.Says.TheVariants.{Now};

use backend_core::Owed;
use link_msg::Outs;
use node_record::BackendRecord;
use std::alloc::Global;

/// What a step lets out when its entry is carried out.
#[derive(Drop)]
pub enum Says {
    /// These.
    Now(Outs),
    /// The answer to an ask for messages, if one is owed: it tells the mailbox as it then is.
    Owed(Option<Owed>),
}

/// The rest of a step. Its entry goes to the disk before it is carried out.
#[derive(Drop)]
pub struct Rest {
    /// The change of the mailboxes, if there is one.
    pub entry: Option<BackendRecord>,
    pub says: Says,
}

impl Rest {
    /// Nothing is changed, and nothing goes out. It takes no memory.
    pub fn nothing(alloc: Global) -> Rest
        ensures { result ≡ record { entry = None; says = Now [] } }
    {
        Rest {
            entry: None,
            says: Says::Now(Outs::new(alloc)),
        }
    }
}
