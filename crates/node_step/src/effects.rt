// What a step leaves to be done.
ghost use Rattle.std.specs.Prelude.{◌≡◌, None};

use link_msg::Outs;
use mur_base::Bytes;

/// What a step of a node leaves to be done: its entry goes to the node's disk, and then its outputs go out.
#[derive(Drop)]
pub struct Effects {
    /// The bytes of the entry, if there is one.
    pub entry: Option<Bytes>,
    pub outs: Outs,
}

impl Effects {
    /// These outputs, and no entry.
    pub fn unwritten(outs: Outs) -> Effects
        ensures { result ≡ record { entry = None; outs = outs } }
    {
        Effects { entry: None, outs }
    }
}
