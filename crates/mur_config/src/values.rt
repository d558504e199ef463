// The nodes, the users and the date of a configuration, where each value has its form.
ghost use Rattle.std.specs.Prelude.{◌≡◌, true, is_none, None, IfOk};
ghost use Rattle.mur_base.specs.Names.{short_name_fault};
ghost use Rattle.mur_config.specs.Json.{each_of};
ghost use Rattle.mur_config.specs.Config.{values_of, has_own_names, has_draft_counts, port_of, standard_port, node_at, has_node_names, node_of_draft, user_at, user_of_draft};

use crate::config::Config;
use crate::draft::{Draft, NodeDraft, PortField, UserDraft};
use crate::node::{FRONTEND_PORT, Kind, MASTER_PORT, NO_PORT, Node};
use crate::nodes::{Nodes, fits_kind};
use mail_message::date;
use mur_base::{
    Bytes, Items, Memory, NameFault, NameRule, NodeRule, User, Users, is_password, node_name,
    user_name,
};
use std::alloc::Global;

/// The configuration that a draft makes; nothing where a value has another form than it needs.
#[tactic(auto, unfolding(crate::specs::Config::values_of))]
pub fn values_of(alloc: Global, draft: &Draft) -> Result<Option<Config>, Memory>
    requires names { has_own_names draft.now ≡ true }
    requires counts { has_draft_counts draft.now.nodes ≡ true }
    ensures { IfOk result (λ found. found ≡ values_of draft.now) }
{
    let Some(nodes) = nodes_of(alloc, draft.nodes.as_slice())? else {
        return Ok(None);
    };
    let Some(users) = users_of(alloc, draft.users.as_slice())? else {
        return Ok(None);
    };
    let Some(date) = date(draft.date.as_slice()) else {
        return Ok(None);
    };
    Ok(Some(Config {
        nodes: Nodes::new(nodes).unwrap(),
        users: Users::from_checked(users),
        date,
    }))
}

#[tactic(auto, unfolding(crate::specs::Json::each_of))]
fn nodes_of(alloc: Global, drafts: &[NodeDraft]) -> Result<Option<Items<Node>>, Memory>
    ensures { IfOk result (λ found. found ≡ each_of node_of_draft drafts.now) }
{
    let mut nodes = Items::new(alloc);
    for draft in drafts {
        let Some(node) = node_of(alloc, draft)? else {
            return Ok(None);
        };
        nodes.push(node)?;
    }
    Ok(Some(nodes))
}

#[tactic(auto, unfolding(crate::specs::Json::each_of))]
fn users_of(alloc: Global, drafts: &[UserDraft]) -> Result<Option<Items<User>>, Memory>
    ensures { IfOk result (λ found. found ≡ each_of user_of_draft drafts.now) }
{
    let mut users = Items::new(alloc);
    for draft in drafts {
        let Some(user) = user_of(alloc, draft)? else {
            return Ok(None);
        };
        users.push(user)?;
    }
    Ok(Some(users))
}

#[tactic(auto, unfolding(crate::specs::Config::node_of_draft, crate::specs::Config::node_of_kind))]
fn node_of(alloc: Global, draft: &NodeDraft) -> Result<Option<Node>, Memory>
    ensures { IfOk result (λ found. found ≡ node_of_draft draft.now) }
{
    let Some(kind) = draft.kind else {
        return Ok(None);
    };
    if !has_node_names(draft, kind) {
        return Ok(None);
    }
    match port_of(kind, draft.port) {
        Some(port) => Ok(Some(node_at(alloc, draft, kind, port)?)),
        None => Ok(None),
    }
}

#[tactic(auto, unfolding(crate::specs::Config::has_node_names))]
fn has_node_names(draft: &NodeDraft, kind: Kind) -> bool
    ensures { result ≡ has_node_names draft.now kind }
{
    is_short_name(draft.name.as_slice()) && fits_kind(kind, draft.partition.as_slice())
}

fn is_short_name(text: &[u8]) -> bool
    ensures { result ≡ is_none (short_name_fault text.now) }
{
    NodeRule::fault_of(text).is_none()
}

fn node_at(alloc: Global, draft: &NodeDraft, kind: Kind, port: u16) -> Result<Node, Memory>
    requires { short_name_fault draft.now.name ≡ None }
    ensures { IfOk result (λ node. node ≡ node_at draft.now kind port) }
{
    let partition = Bytes::from_slice(alloc, draft.partition.as_slice())?;
    match node_name(alloc, draft.name.as_slice()) {
        Ok(name) => Ok(Node {
            name,
            kind,
            partition,
            port,
        }),
        Err(NameFault::Memory) => Err(Memory),
        Err(_) => unreachable!(),
    }
}

#[tactic(auto, unfolding(crate::specs::Config::user_of_draft))]
fn user_of(alloc: Global, draft: &UserDraft) -> Result<Option<User>, Memory>
    ensures { IfOk result (λ found. found ≡ user_of_draft draft.now) }
{
    if is_short_name(draft.name.as_slice()) && is_password(draft.password.as_slice()) {
        Ok(Some(user_at(alloc, draft)?))
    } else {
        Ok(None)
    }
}

fn user_at(alloc: Global, draft: &UserDraft) -> Result<User, Memory>
    requires { short_name_fault draft.now.name ≡ None }
    ensures { IfOk result (λ user. user ≡ user_at draft.now) }
{
    let password = Bytes::from_slice(alloc, draft.password.as_slice())?;
    match user_name(alloc, draft.name.as_slice()) {
        Ok(name) => Ok(User {
            name,
            password,
            admin: draft.admin,
        }),
        Err(NameFault::Memory) => Err(Memory),
        Err(_) => unreachable!(),
    }
}

#[tactic(auto, unfolding(crate::specs::Config::standard_port))]
fn standard_port(kind: Kind) -> u16
    ensures { result ≡ standard_port kind }
{
    match kind {
        Kind::Master => MASTER_PORT,
        Kind::Frontend => FRONTEND_PORT,
        Kind::Backend => NO_PORT,
    }
}

#[tactic(auto, unfolding(crate::specs::Config::port_of))]
fn port_of(kind: Kind, port: PortField) -> Option<u16>
    ensures { result ≡ port_of kind port }
{
    match port {
        PortField::Missing => Some(standard_port(kind)),
        PortField::Whole(number) => {
            if 0 < number && number <= 65535 {
                Some(number as u16)
            } else {
                None
            }
        }
        PortField::Other => None,
    }
}
