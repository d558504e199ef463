// The master as a cell.
ghost use Rattle.std.specs.Prelude.{◌≡◌, IfSome, IsFalse};
ghost use Rattle.node_cell.specs.Parts.{node_of};
ghost use Rattle.node_cell.specs.Written.{is_front};

use crate::{Cell, Kept};
use master_core::Master;
use mur_base::{Bytes, Items, node_name};
use mur_disk::{MemDisk, mem_disk};
use mur_journal::format;
use node_step::{NodeInput, NodeState};
use std::alloc::Global;

#[tactic(auto, unfolding(crate::specs::Written::is_front))]
fn master(alloc: Global) -> Option<Cell<MemDisk>>
    ensures { IfSome result (λ cell. IsFalse (is_front (node_of cell))) }
{
    let Ok(journal) = format(mem_disk(alloc, Bytes::new(alloc))) else {
        return None;
    };
    let Ok(me) = node_name(alloc, b"mu") else {
        return None;
    };
    let Ok(name) = node_name(alloc, b"mu") else {
        return None;
    };
    let node = NodeState::Master(Master::new(alloc, me, Items::new(alloc)));
    Some(Cell::start(alloc, name, node, Some(journal)))
}

#[test]
fn a_step_is_logged_with_the_next_stamp(rt: HostRuntime) {
    let mut cell = master(rt.alloc()).expect(&rt, "memory");
    let turn = cell
        .turn(rt.alloc(), NodeInput::Opened(5), 7)
        .expect(&rt, "a turn");
    assert_eq!(rt; turn.stamp, 8);
    assert_eq!(rt; turn.outs.len(), 1);
    assert_eq!(rt; cell.stamp(), 8);
    assert_eq!(rt; cell.name().len(), 2);
    let first = cell.log().get(0).expect(&rt, "a step");
    assert!(rt; matches!(first.input.kept(), Kept::Opened(5)));
    assert!(rt; cell.into_disk().is_some());
}

#[test]
fn each_of_several_steps_is_logged(rt: HostRuntime) {
    let mut cell = master(rt.alloc()).expect(&rt, "memory");
    let inputs = Vec::from_array(
        rt.alloc(),
        [(0, NodeInput::Opened(5)), (20, NodeInput::Hung(5))],
    );
    let inputs = inputs.ok().expect(&rt, "memory");
    let turns = cell.turns(rt.alloc(), inputs).expect(&rt, "turns");
    assert_eq!(rt; turns.len(), 2);
    assert_eq!(rt; cell.stamp(), 21);
    assert_eq!(rt; cell.log().len(), 2);
}
