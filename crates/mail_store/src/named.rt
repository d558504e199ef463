// The set of UIDs that a command names.
ghost use Rattle.std.specs.Prelude.{◌≡◌, IfOk};
ghost use Rattle.mail_store.specs.Named.{set_of};

use mur_base::Memory;
use std::alloc::Global;
use std::collections::BTreeSet;

/// The set of some UIDs, whatever their order and however often each is given.
pub fn set_of(alloc: Global, uids: &[u32]) -> Result<BTreeSet<u32>, Memory>
    ensures { IfOk result (λ set. set.keys ≡ set_of uids.now) }
{
    let mut set = BTreeSet::new(alloc);
    for uid in uids {
        set.insert(*uid)?;
    }
    Ok(set)
}
