// What the fields of a configuration say, before names, numbers of nodes and values are looked at.
ghost use Rattle.std.specs.Prelude.{◌≡◌, IfOk, option_map};
ghost use Rattle.serde_json.specs.View.{view, items_view};
ghost use Rattle.mur_config.specs.Json.{each_item};

use crate::json::{list_field, text_field};
use crate::names::Named;
use crate::node::Kind;
use mur_base::{Bytes, Items, Memory};
use serde_json::Value;
use std::alloc::Global;

/// What a node says of its port.
#[derive(Clone, Copy, Debug, PartialEq, Eq)]
pub enum PortField {
    Missing,
    /// A whole number of 64 bits.
    Whole(u64),
    /// Another number: negative, greater, or with a fraction or an exponent.
    Other,
}

/// A node as its fields say it.
#[derive(Drop)]
pub struct NodeDraft {
    pub name: Bytes,
    /// Nothing where the text names no kind.
    pub kind: Option<Kind>,
    /// Empty unless the node is a backend.
    pub partition: Bytes,
    pub port: PortField,
}

/// A user as the fields say it.
#[derive(Drop)]
pub struct UserDraft {
    pub name: Bytes,
    pub password: Bytes,
    pub admin: bool,
}

/// A configuration as its fields say it.
#[derive(Drop)]
pub struct Draft {
    pub nodes: Items<NodeDraft>,
    pub users: Items<UserDraft>,
    pub date: Bytes,
}

/// What an object of an array is read as.
pub trait FromObject: Sized + Drop {
    ghost use Rattle.std.specs.Prelude.{Option};
    ghost use Rattle.serde_json.specs.Data.{Data};

    ghost fields_of: { Data → Option Self };

    /// What the object's fields say; nothing where one is missing or of another kind of JSON.
    fn read(alloc: Global, value: &Value) -> Result<Option<Self>, Memory>
        ensures { IfOk result (λ found. found ≡ fields_of (view value.now)) };
}

impl Named for NodeDraft {
    ghost name_of = { λ node. node.name };

    fn name(&self) -> &[u8] {
        self.name.as_slice()
    }
}

impl Named for UserDraft {
    ghost name_of = { λ user. user.name };

    fn name(&self) -> &[u8] {
        self.name.as_slice()
    }
}

impl FromObject for NodeDraft {
    ghost use Rattle.mur_config.specs.Draft.{node_draft};

    ghost fields_of = { node_draft };

    #[tactic(auto, unfolding(crate::specs::Draft::node_draft))]
    fn read(alloc: Global, value: &Value) -> Result<Option<NodeDraft>, Memory> {
        let Some(name) = text_field(value, "name") else {
            return Ok(None);
        };
        let Some(kind) = text_field(value, "kind") else {
            return Ok(None);
        };
        let kind = kind_named(kind);
        let Some(partition) = partition_field(value, kind) else {
            return Ok(None);
        };
        let Some(port) = port_field(value) else {
            return Ok(None);
        };
        Ok(Some(NodeDraft {
            name: Bytes::from_slice(alloc, name.as_bytes())?,
            kind,
            partition: Bytes::from_slice(alloc, partition.as_bytes())?,
            port,
        }))
    }
}

impl FromObject for UserDraft {
    ghost use Rattle.mur_config.specs.Draft.{user_draft};

    ghost fields_of = { user_draft };

    #[tactic(auto, unfolding(crate::specs::Draft::user_draft))]
    fn read(alloc: Global, value: &Value) -> Result<Option<UserDraft>, Memory> {
        let Some(name) = text_field(value, "name") else {
            return Ok(None);
        };
        let Some(password) = text_field(value, "password") else {
            return Ok(None);
        };
        let Some(admin) = admin_field(value) else {
            return Ok(None);
        };
        Ok(Some(UserDraft {
            name: Bytes::from_slice(alloc, name.as_bytes())?,
            password: Bytes::from_slice(alloc, password.as_bytes())?,
            admin,
        }))
    }
}

impl Draft {
    ghost use Rattle.mur_config.specs.Draft.{draft_of};

    /// What the fields of a configuration say; nothing where one is missing or of another kind of JSON.
    #[tactic(auto, unfolding(crate::specs::Draft::draft_of))]
    pub fn read(alloc: Global, value: &Value) -> Result<Option<Draft>, Memory>
        ensures { IfOk result (λ found. found ≡ draft_of (view value.now)) }
    {
        let Some(nodes) = list_field(value, "nodes") else {
            return Ok(None);
        };
        let Some(nodes) = each_item(alloc, nodes)? else {
            return Ok(None);
        };
        let Some(users) = list_field(value, "users") else {
            return Ok(None);
        };
        let Some(users) = each_item(alloc, users)? else {
            return Ok(None);
        };
        let Some(date) = text_field(value, "date") else {
            return Ok(None);
        };
        Ok(Some(Draft {
            nodes,
            users,
            date: Bytes::from_slice(alloc, date.as_bytes())?,
        }))
    }
}

/// What each item of an array is read as; nothing where one is nothing.
#[tactic(auto, unfolding(crate::specs::Json::each_item))]
fn each_item<F: FromObject>(alloc: Global, items: &[Value]) -> Result<Option<Items<F>>, Memory>
    ensures { IfOk result (λ found. found ≡ each_item F.fields_of (items_view items.now)) }
{
    let mut found = Items::new(alloc);
    for item in items {
        let Some(one) = F::read(alloc, item)? else {
            return Ok(None);
        };
        found.push(one)?;
    }
    Ok(Some(found))
}

mod fields;

use fields::{admin_field, kind_named, partition_field, port_field};
