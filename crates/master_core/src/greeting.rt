// The greeting of an outside connection (RFC 3656, 2 and 3.4).
ghost use Rattle.std.specs.Prelude.{◌≡◌, IfOk};
ghost use Rattle.master_core.specs.Greeting.{greeting};

use mur_base::{Bytes, Memory, NodeName};
use std::alloc::Global;

/// The greeting of the master with this name.
#[tactic(auto, using(std::proofs::lemmas::Grind::common_steps), unfolding(crate::specs::Greeting::greeting))]
pub fn greeting(alloc: Global, me: &NodeName) -> Result<Bytes, Memory>
    ensures { IfOk result (λ text. text ≡ greeting me.now) }
{
    let mut text = Bytes::from_slice(alloc, b"* AUTH\r\n* OK MUPDATE \"")?;
    text.extend_from_slice(me.as_bytes())?;
    text.extend_from_slice(b"\" \"murder\" \"1\" \"(master)\"\r\n")?;
    Ok(text)
}
