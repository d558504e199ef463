// The cluster of a drill.
ghost use Rattle.std.specs.Prelude.{◌≡◌, ◌<◌, None, IfOk, codes};
ghost use Rattle.mur_base.specs.Names.{short_name_fault};
ghost use Rattle.drill_gen.specs.DrillCluster.{node_at, drill_nodes, administrator, user_numbered, users_up_to, drill_config};

use crate::names;
use mail_message::{DateText, date};
use mur_base::{Bytes, Items, Memory, User, Users};
use mur_config::{Config, FRONTEND_PORT, Kind, MASTER_PORT, NO_PORT, Node, Nodes};
use std::alloc::Global;

/// The configuration of every drill.
#[tactic(auto, unfolding(crate::specs::DrillCluster::drill_config))]
pub fn drill_config(alloc: Global) -> Result<Config, Memory>
    ensures { IfOk result (λ config. config ≡ drill_config) }
{
    Ok(Config {
        nodes: taken_nodes(alloc)?,
        users: taken_users(alloc)?,
        date: drill_date(),
    })
}

fn taken_nodes(alloc: Global) -> Result<Nodes, Memory>
    ensures { IfOk result (λ nodes. nodes ≡ drill_nodes) }
{
    let list = drill_nodes(alloc)?;
    Ok(Nodes::new(list).unwrap())
}

fn taken_users(alloc: Global) -> Result<Users, Memory>
    ensures { IfOk result (λ users. users ≡ users_up_to 8) }
{
    let list = drill_users(alloc)?;
    Ok(Users::from_checked(list))
}

// The date of messages that come without one.
fn drill_date() -> DateText
    ensures { result ≡ codes "17-Jul-1996 02:44:25 -0700" }
{
    date(b"17-Jul-1996 02:44:25 -0700").unwrap()
}

#[tactic(auto, unfolding(crate::specs::DrillCluster::drill_nodes, mur_base::specs::Names::short_name_fault, mur_base::specs::Names::has_short_name_bytes, mur_base::specs::Names::is_short_name_byte))]
fn drill_nodes(alloc: Global) -> Result<Items<Node>, Memory>
    ensures { IfOk result (λ nodes. nodes ≡ drill_nodes) }
{
    let mut nodes = Items::new(alloc);
    nodes.push(node_at(alloc, b"m", Kind::Master, b"", MASTER_PORT)?)?;
    nodes.push(node_at(alloc, b"f1", Kind::Frontend, b"", FRONTEND_PORT)?)?;
    nodes.push(node_at(alloc, b"f2", Kind::Frontend, b"", FRONTEND_PORT)?)?;
    nodes.push(node_at(alloc, b"b1", Kind::Backend, b"p", NO_PORT)?)?;
    nodes.push(node_at(alloc, b"b2", Kind::Backend, b"p", NO_PORT)?)?;
    nodes.push(node_at(alloc, b"b3", Kind::Backend, b"p", NO_PORT)?)?;
    Ok(nodes)
}

#[tactic(auto, unfolding(crate::specs::DrillCluster::node_at))]
fn node_at(
    alloc: Global,
    name: &[u8],
    kind: Kind,
    partition: &[u8],
    port: u16,
) -> Result<Node, Memory>
    requires { short_name_fault name.now ≡ None }
    ensures { IfOk result (λ node. node ≡ node_at name.now kind partition.now port) }
{
    Ok(Node {
        name: names::node_named(alloc, name)?,
        kind,
        partition: Bytes::from_slice(alloc, partition)?,
        port,
    })
}

#[tactic(auto, unfolding(crate::specs::DrillCluster::users_up_to))]
fn drill_users(alloc: Global) -> Result<Items<User>, Memory>
    ensures { IfOk result (λ users. users ≡ users_up_to 8) }
{
    let mut users = Items::new(alloc);
    users.push(administrator(alloc)?)?;
    for before in 0..8 {
        users.push(user_numbered(alloc, before + 1)?)?;
    }
    Ok(users)
}

#[tactic(auto, unfolding(crate::specs::DrillCluster::administrator, mur_base::specs::Names::short_name_fault, mur_base::specs::Names::has_short_name_bytes, mur_base::specs::Names::is_short_name_byte))]
fn administrator(alloc: Global) -> Result<User, Memory>
    ensures { IfOk result (λ user. user ≡ administrator) }
{
    Ok(User {
        name: names::user_named(alloc, b"adm")?,
        password: Bytes::from_slice(alloc, b"x")?,
        admin: true,
    })
}

#[tactic(auto, unfolding(crate::specs::DrillCluster::user_numbered))]
fn user_numbered(alloc: Global, number: u64) -> Result<User, Memory>
    requires { number < 10 }
    ensures { IfOk result (λ user. user ≡ user_numbered number) }
{
    Ok(User {
        name: names::user_numbered(alloc, number)?,
        password: Bytes::from_slice(alloc, b"p")?,
        admin: false,
    })
}
