// The nearest name above another that has a record.
ghost use Rattle.std.specs.Prelude.{◌≡◌, IfOk};
ghost use Rattle.std.specs.Option.{option_copied};
ghost use Rattle.feed_core.specs.Above.{rec_of_text, IsNearestAbove};

use crate::rec::Rec;
use crate::replica::Replica;
use mur_base::{MailName, Memory, NameFault, mail_name};
use std::alloc::Global;

impl Replica {
    /// The record of the name that a text is, if it is one and has one.
    fn find_text(&self, alloc: Global, text: &[u8]) -> Result<Option<&Rec>, Memory>
        ensures { IfOk result (λ found. option_copied found ≡ rec_of_text self.now.records text.now) }
    {
        match mail_name(alloc, text) {
            Ok(name) => Ok(self.records.get(&name)),
            Err(NameFault::Memory) => Err(Memory),
            Err(_) => Ok(None),
        }
    }

    /// The record of the nearest name above, of those that have one: for `a.b.c` that of `a.b`, else that of `a`. It takes a look-up a level.
    pub fn nearest_above(&self, alloc: Global, name: &MailName) -> Result<Option<&Rec>, Memory>
        ensures { IfOk result (λ found. IsNearestAbove self.now.records name.now (option_copied found)) }
    {
        let text = name.as_bytes();
        for at in (0..text.len()).rev() {
            if text[at] == b'.' {
                if let Some(rec) = self.find_text(alloc, &text[..at])? {
                    return Ok(Some(rec));
                }
            }
        }
        Ok(None)
    }
}
