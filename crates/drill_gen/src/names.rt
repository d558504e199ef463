// The names of a drill's nodes and users.
ghost use Rattle.std.specs.Prelude.{◌≡◌, ◌++◌, ◌<◌, None, codes, decimal, IfOk};
ghost use Rattle.mur_base.specs.Names.{short_name_fault};
ghost use Rattle.drill_gen.specs.Drill.{frontend_of, backend_named};

use mur_base::{Bytes, Memory, NameFault, NodeName, UserName, node_name, put_number, user_name};
use std::alloc::Global;

/// The node's name that a text is.
pub fn node_named(alloc: Global, text: &[u8]) -> Result<NodeName, Memory>
    requires { short_name_fault text.now ≡ None }
    ensures { IfOk result (λ name. name ≡ text.now) }
{
    match node_name(alloc, text) {
        Ok(name) => Ok(name),
        Err(NameFault::Memory) => Err(Memory),
        Err(_) => unreachable!(),
    }
}

/// The user's name that a text is.
pub fn user_named(alloc: Global, text: &[u8]) -> Result<UserName, Memory>
    requires { short_name_fault text.now ≡ None }
    ensures { IfOk result (λ name. name ≡ text.now) }
{
    match user_name(alloc, text) {
        Ok(name) => Ok(name),
        Err(NameFault::Memory) => Err(Memory),
        Err(_) => unreachable!(),
    }
}

/// The frontend at which a session connects.
#[tactic(auto, unfolding(crate::specs::Drill::frontend_of, mur_base::specs::Names::short_name_fault, mur_base::specs::Names::has_short_name_bytes, mur_base::specs::Names::is_short_name_byte))]
pub fn frontend_of(alloc: Global, session: u64) -> Result<NodeName, Memory>
    ensures { IfOk result (λ name. name ≡ frontend_of session) }
{
    if session % 2 == 1 {
        node_named(alloc, b"f1")
    } else {
        node_named(alloc, b"f2")
    }
}

/// A backend by its number, a digit.
#[tactic(auto, unfolding(crate::specs::Drill::backend_named))]
pub fn backend_named(alloc: Global, backend: u64) -> Result<NodeName, Memory>
    requires { backend < 10 }
    ensures { IfOk result (λ name. name ≡ backend_named backend) }
{
    let mut text = Bytes::from_slice(alloc, b"b")?;
    put_number(backend, &mut text)?;
    node_named(alloc, text.as_slice())
}

/// A user by a number, a digit.
pub fn user_numbered(alloc: Global, number: u64) -> Result<UserName, Memory>
    requires { number < 10 }
    ensures { IfOk result (λ name. name ≡ codes "u" ++ decimal number) }
{
    let mut text = Bytes::from_slice(alloc, b"u")?;
    put_number(number, &mut text)?;
    user_named(alloc, text.as_slice())
}
