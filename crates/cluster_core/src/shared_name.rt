// The name of a node, which the clients at it share.
ghost use Rattle.std.specs.Prelude.{◌≡◌, IfOk};

use mur_base::{Memory, NodeName};
use std::alloc::Global;
use std::marker::Model;
use std::rc::Rc;

/// The name of a node with several owners, seen by contracts as the name. Each owner takes eight bytes.
#[derive(Drop)]
pub struct SharedName {
    name: Rc<NodeName>,
}

impl Model for SharedName {
    ghost use Rattle.std.specs.Prelude.{List, ℕ};

    ghost Value = { List ℕ };

    ghost view = { λ shared. shared.name.value };
}

impl SharedName {
    /// The first owner of a name.
    pub fn new(alloc: Global, name: NodeName) -> Result<SharedName, Memory>
        ensures { IfOk result (λ shared. shared ≡ name) }
    {
        Ok(SharedName {
            name: Rc::new(alloc, name)?,
        })
    }

    pub fn get(&self) -> &NodeName
        ensures { result.now ≡ self.now }
    {
        &self.name
    }

    /// Another owner of the same name.
    pub fn share(&self) -> Result<SharedName, Memory>
        ensures { IfOk result (λ shared. shared ≡ self.now) }
    {
        Ok(SharedName {
            name: self.name.clone()?,
        })
    }
}
