// Lists of nodes and users.
use case_base::{Fault, bytes_of, put_field, put_value};
use mur_base::{Bytes, Items, Memory, User, Users, node_name, user_name};
use mur_config::{Kind, Link, NO_PORT, Node, Nodes};
use std::alloc::Global;

/// Prints the links of a list of nodes, or why they are no cluster.
pub fn put_nodes(alloc: Global, list: &str, out: &mut Bytes) -> Result<(), Fault> {
    match Nodes::new(nodes_of(alloc, list)?) {
        Ok(nodes) => Ok(put_links(alloc, nodes.links(alloc)?.as_slice(), out)?),
        Err(fault) => Ok(put_value(alloc, &fault, out)?),
    }
}

fn put_links(alloc: Global, links: &[Link], out: &mut Bytes) -> Result<(), Memory> {
    for link in links {
        let mut text = Bytes::from_slice(alloc, link.from.as_bytes())?;
        text.push(b'>')?;
        text.extend_from_slice(link.to.as_bytes())?;
        put_field(text.as_slice(), out)?;
    }
    Ok(())
}

/// The nodes of a list of `NAME=KIND` and `NAME=backend:PARTITION`.
fn nodes_of(alloc: Global, list: &str) -> Result<Items<Node>, Fault> {
    let mut nodes = Items::new(alloc);
    for text in list.split_whitespace() {
        nodes.push(node_of(alloc, text)?)?;
    }
    Ok(nodes)
}

fn node_of(alloc: Global, text: &str) -> Result<Node, Fault> {
    let (name, kind) = text.split_once('=').unwrap_or((text, ""));
    let (kind, partition) = kind.split_once(':').unwrap_or((kind, ""));
    let kind = kind_of(kind)?;
    Ok(Node {
        name: node_name(alloc, name.as_bytes())?,
        kind,
        partition: Bytes::from_slice(alloc, partition.as_bytes())?,
        port: NO_PORT,
    })
}

fn kind_of(word: &str) -> Result<Kind, Fault> {
    match word {
        "master" => Ok(Kind::Master),
        "frontend" => Ok(Kind::Frontend),
        "backend" => Ok(Kind::Backend),
        _ => Err(Fault::Unreadable("no kind of node")),
    }
}

/// Prints how many users a list of `NAME:PASSWORD` has, or why they are no users of a cluster.
pub fn put_users(alloc: Global, list: &str, out: &mut Bytes) -> Result<(), Fault> {
    match Users::new(users_of(alloc, list)?) {
        Ok(users) => Ok(put_value(alloc, &users.as_slice().len(), out)?),
        Err(fault) => Ok(put_value(alloc, &fault, out)?),
    }
}

fn users_of(alloc: Global, list: &str) -> Result<Items<User>, Fault> {
    let mut users = Items::new(alloc);
    for text in list.split_whitespace() {
        users.push(user_of(alloc, text)?)?;
    }
    Ok(users)
}

fn user_of(alloc: Global, text: &str) -> Result<User, Fault> {
    let (name, password) = text.split_once(':').unwrap_or((text, ""));
    Ok(User {
        name: user_name(alloc, name.as_bytes())?,
        password: bytes_of(alloc, password)?,
        admin: false,
    })
}
