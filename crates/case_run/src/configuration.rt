// Texts of configurations.
use case_base::{Fault, bytes_of, put_field};
use mur_base::{Bytes, Memory, User};
use mur_config::{Config, ConfigError, ConfigFault, Kind, Node, read_config};
use std::alloc::Global;

/// Prints the nodes, the users and the date of the configuration that a text spells, or the first rule that the text breaks.
pub fn put_configuration(alloc: Global, text: &str, out: &mut Bytes) -> Result<(), Fault> {
    let text = bytes_of(alloc, text)?;
    Ok(put_read(alloc, text.as_slice(), out)?)
}

fn put_read(alloc: Global, text: &[u8], out: &mut Bytes) -> Result<(), Memory> {
    match read_config(alloc, text) {
        Ok(config) => put_config(alloc, &config, out),
        Err(ConfigError::Refused(fault)) => put_rule(alloc, fault, out),
        Err(ConfigError::Memory) => Err(Memory),
    }
}

fn put_rule(alloc: Global, fault: ConfigFault, out: &mut Bytes) -> Result<(), Memory> {
    let number = fault.number();
    put_field(format!(in alloc; "rule {number}")?.as_bytes(), out)
}

fn put_config(alloc: Global, config: &Config, out: &mut Bytes) -> Result<(), Memory> {
    for node in config.nodes.as_slice() {
        put_node(alloc, node, out)?;
    }
    for user in config.users.as_slice() {
        put_user(alloc, user, out)?;
    }
    put_field(config.date.as_bytes(), out)
}

/// A node is `NAME=KIND@PORT`, a backend `NAME=backend:PARTITION@PORT`.
fn put_node(alloc: Global, node: &Node, out: &mut Bytes) -> Result<(), Memory> {
    let mut text = Bytes::from_slice(alloc, node.name.as_bytes())?;
    text.extend_from_slice(match node.kind {
        Kind::Master => b"=master".as_slice(),
        Kind::Frontend => b"=frontend",
        Kind::Backend => b"=backend:",
    })?;
    text.extend_from_slice(node.partition.as_slice())?;
    let port = node.port;
    text.extend_from_slice(format!(in alloc; "@{port}")?.as_bytes())?;
    put_field(text.as_slice(), out)
}

/// A user is `NAME:PASSWORD`, an administrator `NAME:PASSWORD:admin`.
fn put_user(alloc: Global, user: &User, out: &mut Bytes) -> Result<(), Memory> {
    let mut text = Bytes::from_slice(alloc, user.name.as_bytes())?;
    text.push(b':')?;
    text.extend_from_slice(user.password.as_slice())?;
    if user.admin {
        text.extend_from_slice(b":admin")?;
    }
    put_field(text.as_slice(), out)
}
