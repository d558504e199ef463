// The mailboxes of a replica, in byte order of their names.
ghost use Rattle.std.specs.Prelude.{◌≡◌, IfOk};
ghost use Rattle.feed_core.specs.Listing.{mailbox_names};

use crate::replica::Replica;
use mur_base::{Copied, Items, MailName, Memory};
use std::alloc::Global;

/// Names of mailboxes.
pub type MailNames = Items<MailName>;

impl Replica {
    /// The names of the mailboxes.
    pub fn names(&self, alloc: Global) -> Result<MailNames, Memory>
        ensures { IfOk result (λ names. names ≡ mailbox_names self.now.records) }
    {
        let mut names = MailNames::new(alloc);
        for (name, rec) in self.records.iter() {
            if rec.is_mailbox() {
                names.push(name.copy(alloc)?)?;
            }
        }
        Ok(names)
    }
}
