// The nodes that a schedule's line names.
ghost use Rattle.std.specs.Prelude.{◌≡◌, MatchResult, Ok, Err, IfOk};
ghost use Rattle.schedule_text.specs.ScheduleRules.{IsReadByRule};
ghost use Rattle.schedule_text.specs.ScheduleNodes.{node_in, client_node_in, takes_clients, link_in};

use crate::schedule::fault::{LineError, Rule};
use mur_config::{Config, Kind, Link, Node};
use std::alloc::Global;

/// A node of the configuration.
#[tactic(auto, unfolding(crate::specs::ScheduleNodes::node_in))]
fn node_in<'a>(config: &'a Config, name: &[u8]) -> Result<&'a Node, Rule>
    ensures node { MatchResult result
        (λ node. node_in config.now name.now ≡ Ok node.now)
        (λ rule. node_in config.now name.now ≡ Err rule) }
    ensures named { IfOk result (λ node. node.now.name ≡ name.now) }
{
    match config.nodes.named(name) {
        Some(node) => Ok(node),
        None => Err(Rule::UnknownNode),
    }
}

/// A node of the configuration at which clients open connections.
#[tactic(auto, unfolding(crate::specs::ScheduleNodes::client_node_in))]
pub fn client_node_in<'a>(config: &'a Config, name: &[u8]) -> Result<&'a Node, Rule>
    ensures { MatchResult result
        (λ node. client_node_in config.now name.now ≡ Ok node.now.name)
        (λ rule. client_node_in config.now name.now ≡ Err rule) }
{
    let node = node_in(config, name)?;
    if takes_clients(node.kind) {
        Ok(node)
    } else {
        Err(Rule::UnknownNode)
    }
}

#[tactic(auto, unfolding(crate::specs::ScheduleNodes::takes_clients))]
fn takes_clients(kind: Kind) -> bool
    ensures { result ≡ takes_clients kind }
{
    kind != Kind::Backend
}

/// The link from one node of the configuration to another.
#[tactic(auto, unfolding(crate::specs::ScheduleNodes::link_in))]
pub fn link_in(alloc: Global, config: &Config, from: &[u8], to: &[u8]) -> Result<Link, LineError>
    ensures { IsReadByRule (link_in config.now from.now to.now) result }
{
    let sender = node_in(config, from)?;
    let taker = node_in(config, to)?;
    if sender.is_linked_with(taker) {
        Ok(sender.link_to(alloc, taker)?)
    } else {
        Err(LineError::Broken(Rule::UnknownNode))
    }
}
