// Whom a frontend asks for a command on a name.
ghost use Rattle.std.specs.Prelude.{◌≡◌, ℕ, List, Option, IfOk};
ghost use Rattle.std.specs.Option.{option_copied};
ghost use Rattle.feed_core.specs.declared.rec.Rec.{Rec};
ghost use Rattle.feed_core.specs.Above.{IsNearestAbove};
ghost use Rattle.feed_core.specs.Feed.{Recs};
ghost use Rattle.feed_core.specs.Routes.{above_at, home_for, server_at};

use crate::replica::Replica;
use mur_base::{MailName, Memory, NodeName};
use std::alloc::Global;

impl Replica {
    /// The server of a name's record, if it has one. It takes no memory. Logarithmic in the records.
    pub fn server_of(&self, name: &MailName) -> Option<&NodeName>
        ensures { option_copied result ≡ server_at self.now.records name.now }
    {
        match self.find(name) {
            Some(rec) => Some(&rec.place().server),
            None => None,
        }
    }

    /// The server at which a new mailbox of this name is made: that of the nearest name above that has a record, else the first one. It takes a
    /// look-up a level.
    #[tactic(auto, using(crate::proofs::RoutesLaw::only_above))]
    pub fn home_for<'a>(
        &'a self,
        alloc: Global,
        name: &MailName,
        first: &'a NodeName,
    ) -> Result<&'a NodeName, Memory>
        ensures { IfOk result (λ home. home.now ≡ home_for self.now.records first.now name.now) }
    {
        match self.nearest_above(alloc, name)? {
            Some(rec) => Ok(&rec.place().server),
            None => Ok(first),
        }
    }
}

/// The nearest name above is one alone, so its record is found by looking from the longest on.
pub fn one_name_is_nearest_above()
    ensures found { (recs : Recs) (name : List ℕ) → IsNearestAbove recs name (above_at recs name) }
    ensures one { (recs : Recs) (name : List ℕ) (it : Option Rec) → IsNearestAbove recs name it → it ≡ above_at recs name }
{}
