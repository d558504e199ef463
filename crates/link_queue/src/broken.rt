// The links that are broken.
ghost use Rattle.std.specs.Prelude.{◌≡◌, [], ◌∷◌, ◌++◌, filter, IfOk, OnOk};
ghost use Rattle.std.specs.BTreeMap.{is_at};
ghost use Rattle.std.specs.Ordering.{nat_cmp};
ghost use Rattle.std.specs.Cmp.Lexicographic.{slice_cmp};
ghost use Rattle.link_queue.specs.Broken.{breaking, is_broken, is_other, leads_nowhere, mending};

use mur_base::{Copied, Items, Map, Memory, NodeName};
use std::alloc::Global;

/// The nodes to which what one node sends is lost.
pub type Lost = Items<NodeName>;

/// The links that are broken, each in its direction, by the node from which they lead.
pub type Broken = Map<NodeName, Lost>;

/// Whether the link from one node to another is broken.
#[tactic(auto, unfolding(crate::specs::Broken::is_broken))]
pub fn is_broken(broken: &Broken, from: &NodeName, to: &NodeName) -> bool
    ensures { result ≡ is_broken broken.now from.now to.now }
{
    match broken.get(from) {
        Some(lost) => has(lost, to),
        None => false,
    }
}

/// The link from one node to another breaks. For want of memory the links are spent.
#[tactic(auto, unfolding(crate::specs::Broken::breaking), using(crate::proofs::Entries::entered_name))]
pub fn break_off(
    alloc: Global,
    broken: &mut Broken,
    from: &NodeName,
    to: &NodeName,
) -> Result<(), Memory>
    ensures { OnOk result (broken.new ≡ breaking broken.old from.now to.now) }
{
    let to = to.copy(alloc)?;
    match broken.get_mut(from) {
        Some(lost) => lost.push(to),
        None => {
            let mut lost = Items::new(alloc);
            lost.push(to)?;
            broken.insert(from.copy(alloc)?, lost)?;
            Ok(())
        }
    }
}

/// The link from one node to another is whole again. For want of memory the links are spent.
#[tactic(auto, unfolding(crate::specs::Broken::mending), using(crate::proofs::Entries::entered_name))]
pub fn mend(
    alloc: Global,
    broken: &mut Broken,
    from: &NodeName,
    to: &NodeName,
) -> Result<(), Memory>
    ensures { OnOk result (broken.new ≡ mending broken.old from.now to.now) }
{
    match broken.get_mut(from) {
        Some(lost) => {
            *lost = others(alloc, lost, to)?;
            Ok(())
        }
        None => {
            broken.insert(from.copy(alloc)?, Items::new(alloc))?;
            Ok(())
        }
    }
}

fn is_same(node: &NodeName, other: &NodeName) -> bool
    ensures { result ≡ is_at (slice_cmp nat_cmp node.now) other.now }
{
    node.cmp(other).is_eq()
}

fn has(lost: &Lost, node: &NodeName) -> bool
    ensures { result ≡ leads_nowhere lost.now node.now }
{
    for other in lost.as_slice() {
        if is_same(node, other) {
            return true;
        }
    }
    false
}

/// The other nodes than this one.
fn others(alloc: Global, lost: &Lost, node: &NodeName) -> Result<Lost, Memory>
    ensures { IfOk result (λ others. others ≡ filter (is_other node.now) lost.now) }
{
    let mut others = Items::new(alloc);
    for other in lost.as_slice() {
        if !is_same(node, other) {
            others.push(other.copy(alloc)?)?;
        }
    }
    Ok(others)
}
