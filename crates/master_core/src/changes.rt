// A change, told to each stream (RFC 3656, 4.11).
ghost use Rattle.std.specs.Prelude.{◌≡◌, ◌++◌, map, IfOk, OnOk};
ghost use Rattle.master_core.specs.Changes.{change_line, change_outs, node_told, watcher_told};

use crate::records::{mailbox_line, reserve_line};
use link_msg::{LinkMsg, Out, Outs};
use mupdate_codec::{MResponse, Tag, print_response};
use mur_base::{Copied, Map, Memory, NodeName};
use node_record::MasterRecord;
use std::alloc::Global;

/// Where a name is after a change, or that it has no record any more.
fn change_line(alloc: Global, change: &MasterRecord) -> Result<MResponse, Memory>
    ensures { IfOk result (λ line. line ≡ change_line change.now) }
{
    match change {
        MasterRecord::Reserved(name, place, _) | MasterRecord::Inactive(name, place) => {
            reserve_line(alloc, name, place)
        }
        MasterRecord::Active(name, place, acl) => mailbox_line(alloc, name, place, acl),
        MasterRecord::Deleted(name) => Ok(MResponse::Delete(name.copy(alloc)?)),
    }
}

fn tell_nodes(
    alloc: Global,
    streams: &Map<NodeName, Tag>,
    line: &MResponse,
    outs: &mut Outs,
) -> Result<(), Memory>
    ensures { OnOk result (outs.new ≡ outs.old ++ map (node_told line.now) streams.now) }
{
    for (node, tag) in streams.iter() {
        let text = print_response(alloc, tag, line)?;
        outs.push(Out::Link(node.copy(alloc)?, LinkMsg::Line(text)))?;
    }
    Ok(())
}

fn tell_watchers(
    alloc: Global,
    watchers: &Map<u64, Tag>,
    line: &MResponse,
    outs: &mut Outs,
) -> Result<(), Memory>
    ensures { OnOk result (outs.new ≡ outs.old ++ map (watcher_told line.now) watchers.now) }
{
    for (conn, tag) in watchers.iter() {
        let text = print_response(alloc, tag, line)?;
        outs.push(Out::Client(*conn, text))?;
    }
    Ok(())
}

/// Tells a line to each stream under the tag of its UPDATE.
#[tactic(auto, using(std::proofs::lemmas::Grind::common_steps))]
fn tell_line(
    alloc: Global,
    streams: &Map<NodeName, Tag>,
    watchers: &Map<u64, Tag>,
    line: &MResponse,
    outs: &mut Outs,
) -> Result<(), Memory>
    ensures { OnOk result (outs.new ≡ outs.old ++ (map (node_told line.now) streams.now ++ map (watcher_told line.now) watchers.now)) }
{
    tell_nodes(alloc, streams, line, outs)?;
    tell_watchers(alloc, watchers, line, outs)
}

/// Tells a change, if there is one, to each stream under the tag of its UPDATE: a line a stream.
#[tactic(auto, using(std::proofs::lemmas::Grind::common_steps), unfolding(crate::specs::Changes::change_outs))]
pub fn tell_change(
    alloc: Global,
    streams: &Map<NodeName, Tag>,
    watchers: &Map<u64, Tag>,
    change: &Option<MasterRecord>,
    outs: &mut Outs,
) -> Result<(), Memory>
    ensures { OnOk result (outs.new ≡ outs.old ++ change_outs streams.now watchers.now change.now) }
{
    match change {
        Some(change) => {
            let line = change_line(alloc, change)?;
            tell_line(alloc, streams, watchers, &line, outs)
        }
        None => Ok(()),
    }
}
