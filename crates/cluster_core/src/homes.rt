// The mailboxes that the nodes have.
ghost use Rattle.std.specs.Prelude.{◌≡◌, ◌++◌, [], IfOk, OnOk};
ghost use Rattle.std.specs.List.{fold};
ghost use Rattle.std.specs.Map.{keys_of};
ghost use Rattle.std.specs.Option.{option_copied};
ghost use Rattle.std.specs.Ordering.{nat_cmp};
ghost use Rattle.std.specs.Cmp.Lexicographic.{slice_cmp};
ghost use Rattle.std.specs.BTreeSet.{insert_key};
ghost use Rattle.mur_base.specs.Map.{value_at};
ghost use Rattle.cluster_core.specs.Shown.{held_at_node, home_row, row_if, home_rows_of, names_at, home_rows};

use crate::cluster::{HomeRow, HomeRows};
use crate::layout::Layout;
use crate::world::World;
use mur_base::{Copied, MailName, Memory, NodeName};
use node_record::{Held, HeldNames};
use std::alloc::Global;
use std::collections::BTreeSet;

type MailNames = BTreeSet<MailName>;

/// The mailboxes of all nodes, in byte order of their names, and each in the order of its nodes.
#[tactic(auto, unfolding(crate::specs::Shown::home_rows, crate::specs::Shown::rows_of_all))]
pub fn home_rows(alloc: Global, layout: &Layout, world: &World) -> Result<HomeRows, Memory>
    ensures { IfOk result (λ rows. rows ≡ home_rows layout.now world.now) }
{
    let names = names(alloc, layout, world)?;
    let mut rows = HomeRows::new(alloc);
    for name in names.iter() {
        put_rows(alloc, layout, world, name, &mut rows)?;
    }
    Ok(rows)
}

/// The names that some node has.
#[tactic(auto, unfolding(crate::specs::Shown::names_at))]
fn names(alloc: Global, layout: &Layout, world: &World) -> Result<MailNames, Memory>
    ensures { IfOk result (λ names. names.keys ≡ names_at world.now [] layout.now.backends) }
{
    let mut names = MailNames::new(alloc);
    for node in layout.backends.as_slice() {
        if let Some(node) = world.home(node) {
            put_names(alloc, &node.home.held, &mut names)?;
        }
    }
    Ok(names)
}

// Puts the names that a backend has into a set.
fn put_names(alloc: Global, held: &HeldNames, names: &mut MailNames) -> Result<(), Memory>
    ensures { OnOk result (names.new.keys ≡ fold (insert_key (slice_cmp nat_cmp)) names.old.keys (keys_of held.now)) }
{
    for (name, _it) in held.iter() {
        names.insert(name.copy(alloc)?)?;
    }
    Ok(())
}

// Puts the rows of a mailbox at the end; for want of memory the rows are spent.
#[tactic(auto, unfolding(crate::specs::Shown::home_rows_of))]
fn put_rows(
    alloc: Global,
    layout: &Layout,
    world: &World,
    name: &MailName,
    rows: &mut HomeRows,
) -> Result<(), Memory>
    ensures { OnOk result (rows.new ≡ rows.old ++ home_rows_of world.now name.now layout.now.backends) }
{
    for node in layout.backends.as_slice() {
        put_row(alloc, world, name, node, rows)?;
    }
    Ok(())
}

fn put_row(
    alloc: Global,
    world: &World,
    name: &MailName,
    node: &NodeName,
    rows: &mut HomeRows,
) -> Result<(), Memory>
    ensures { OnOk result (rows.new ≡ rows.old ++ row_if name.now node.now (value_at (slice_cmp nat_cmp) (held_at_node world.now node.now) name.now)) }
{
    if let Some(held) = held_at(world, node, name) {
        rows.push(home_row(alloc, name, node, held)?)?;
    }
    Ok(())
}

fn home_row(alloc: Global, name: &MailName, node: &NodeName, held: &Held) -> Result<HomeRow, Memory>
    ensures { IfOk result (λ row. row ≡ home_row name.now node.now held.now) }
{
    Ok(HomeRow {
        name: name.copy(alloc)?,
        backend: node.copy(alloc)?,
        phase: held.phase.copy(alloc)?,
        serial: held.content.serial(),
        next: held.content.next(),
        count: held.content.len() as u64,
    })
}

// What a node has of a name.
fn held_at<'a>(world: &'a World, node: &NodeName, name: &MailName) -> Option<&'a Held>
    ensures { option_copied result ≡ value_at (slice_cmp nat_cmp) (held_at_node world.now node.now) name.now }
{
    world.home(node)?.home.held.get(name)
}
