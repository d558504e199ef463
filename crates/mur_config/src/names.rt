// Whether things have names of their own.
ghost use Rattle.std.specs.Prelude.{◌≡◌, IfOk, map};
ghost use Rattle.mur_config.specs.Names.{names_differ};

use mur_base::Memory;
use std::alloc::Global;
use std::collections::BTreeSet;

/// What stands under a name.
pub trait Named {
    ghost use Rattle.std.specs.Prelude.{List, ℕ};

    ghost name_of: { Self → List ℕ };

    fn name(&self) -> &[u8]
        ensures { result.now ≡ name_of self.now };
}

/// Whether no two items have one name, each looked for among those before it in logarithmic time.
pub fn names_differ<N: Named>(alloc: Global, items: &[N]) -> Result<bool, Memory>
    ensures { IfOk result (λ differ. differ ≡ names_differ (map N.name_of items.now)) }
{
    let mut seen = BTreeSet::new(alloc);
    for item in items {
        if !seen.insert(item.name())? {
            return Ok(false);
        }
    }
    Ok(true)
}
