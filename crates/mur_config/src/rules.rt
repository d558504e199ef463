// The rules of a configuration's nodes and users that need no look at their values.
ghost use Rattle.std.specs.Prelude.{◌≡◌, IfOk};
ghost use Rattle.std.specs.List.{list_all};
ghost use Rattle.mur_config.specs.Config.{has_known_kind, has_own_names, is_draft_of_kind, count_of_drafts, has_draft_counts};

use crate::draft::{Draft, NodeDraft};
use crate::names::names_differ;
use crate::node::Kind;
use crate::nodes::is_some_within;
use mur_base::Memory;
use mur_base::limits::{BACKEND_LIMIT, FRONTEND_LIMIT};
use std::alloc::Global;

/// Whether each node is of a kind that there is.
pub fn have_known_kinds(nodes: &[NodeDraft]) -> bool
    ensures { result ≡ list_all has_known_kind nodes.now }
{
    nodes.iter().all(|node| has_known_kind(node))
}

#[tactic(auto, unfolding(crate::specs::Config::has_known_kind))]
fn has_known_kind(node: &NodeDraft) -> bool
    ensures { result ≡ has_known_kind node.now }
{
    node.kind.is_some()
}

/// Whether no two nodes have one name, and no two users.
#[tactic(auto, unfolding(crate::specs::Config::has_own_names))]
pub fn has_own_names(alloc: Global, draft: &Draft) -> Result<bool, Memory>
    ensures { IfOk result (λ own. own ≡ has_own_names draft.now) }
{
    let nodes = names_differ(alloc, draft.nodes.as_slice())?;
    let users = names_differ(alloc, draft.users.as_slice())?;
    Ok(nodes && users)
}

/// Whether there are one master, and some frontends and backends.
#[tactic(auto, unfolding(crate::specs::Config::has_draft_counts))]
pub fn has_draft_counts(nodes: &[NodeDraft]) -> bool
    ensures { result ≡ has_draft_counts nodes.now }
{
    count_of_drafts(nodes, Kind::Master) == 1
        && is_some_within(FRONTEND_LIMIT, count_of_drafts(nodes, Kind::Frontend))
        && is_some_within(BACKEND_LIMIT, count_of_drafts(nodes, Kind::Backend))
}

#[tactic(auto, unfolding(crate::specs::Config::count_of_drafts))]
fn count_of_drafts(nodes: &[NodeDraft], kind: Kind) -> usize
    ensures { result ≡ count_of_drafts kind nodes.now }
{
    nodes
        .iter()
        .filter(|node| is_draft_of_kind(node, kind))
        .count()
}

#[tactic(auto, unfolding(crate::specs::Config::is_draft_of_kind, crate::specs::Config::is_kind, crate::specs::Nodes::is_of_kind))]
fn is_draft_of_kind(node: &NodeDraft, kind: Kind) -> bool
    ensures { result ≡ is_draft_of_kind kind node.now }
{
    match node.kind {
        Some(found) => found == kind,
        None => false,
    }
}
