// The moments of a disk in memory that are over. Proofs alone read them.
ghost use Rattle.std.specs.Prelude.{◌≡◌, List, [], ◌∷◌, ◌++◌};
ghost use Rattle.std.specs.Borrow.{ftrue};
ghost use Rattle.mur_disk.specs.declared.held.Held.{Held};

use crate::held::Held;
use std::marker::Model;

/// What a disk held at each earlier moment, the first one in front. It takes no memory.
#[derive(Drop)]
pub struct Past {
    pub ghost moments: { List Held },
}

impl Model for Past {
    ghost also_owns = { λ _. ftrue };
}

// A struct with `also_owns` has neither by itself. This one owns nothing.
unsafe impl Send for Past {}

impl Past {
    pub(crate) fn new() -> Past
        ensures { result.moments ≡ [] }
    {
        Past {}
    }

    // One moment more.
    pub(crate) fn then(&self, _held: &Held) -> Past
        ensures { result.moments ≡ self.now.moments ++ _held.now ∷ [] }
    {
        Past {}
    }
}
