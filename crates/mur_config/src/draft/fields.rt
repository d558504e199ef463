// The fields of nodes and users.
ghost use Rattle.std.specs.Prelude.{◌≡◌, option_map};
ghost use Rattle.serde_json.specs.View.{view};
ghost use Rattle.mur_config.specs.Draft.{kind_named, partition_field, port_field, admin_field};

use super::PortField;
use crate::json::text_field;
use crate::node::Kind;
use serde_json::Value;

/// The kind of node that a text names.
#[tactic(auto, unfolding(crate::specs::Draft::kind_named))]
pub fn kind_named(text: &str) -> Option<Kind>
    ensures { result ≡ kind_named text.now }
{
    if text == "master" {
        Some(Kind::Master)
    } else if text == "frontend" {
        Some(Kind::Frontend)
    } else if text == "backend" {
        Some(Kind::Backend)
    } else {
        None
    }
}

/// `partition`, which a backend needs; of another node it is passed over.
#[tactic(auto, unfolding(crate::specs::Draft::partition_field))]
pub fn partition_field(value: &Value, kind: Option<Kind>) -> Option<&str>
    ensures { option_map (λ text. text.now) result ≡ partition_field kind (view value.now) }
{
    match kind {
        Some(Kind::Backend) => text_field(value, "partition"),
        Some(Kind::Master) | Some(Kind::Frontend) | None => Some(""),
    }
}

/// `port`, a number if it is there.
#[tactic(auto, unfolding(crate::specs::Draft::port_field, crate::specs::Draft::port_at, crate::specs::Draft::port_said))]
pub fn port_field(value: &Value) -> Option<PortField>
    ensures { result ≡ port_field (view value.now) }
{
    let Some(port) = value.get("port") else {
        return Some(PortField::Missing);
    };
    let number = port.as_number()?;
    match number.as_u64() {
        Some(number) => Some(PortField::Whole(number)),
        None => Some(PortField::Other),
    }
}

/// `admin`, a boolean if it is there.
#[tactic(auto, unfolding(crate::specs::Draft::admin_field, crate::specs::Draft::admin_at))]
pub fn admin_field(value: &Value) -> Option<bool>
    ensures { result ≡ admin_field (view value.now) }
{
    match value.get("admin") {
        Some(admin) => admin.as_bool(),
        None => Some(false),
    }
}
