// The configuration of a cluster, and the reader of its text.
ghost use Rattle.std.specs.Prelude.{◌≡◌, IfOk};
ghost use Rattle.std.specs.List.{list_all};
ghost use Rattle.mur_config.specs.Config.{config_of, config_from, has_known_kind, IsReadAsConfig};

use crate::draft::{Draft, NodeDraft};
use crate::fault::{ConfigError, ConfigFault};
use crate::json::json_of;
use crate::nodes::Nodes;
use crate::rules::{has_draft_counts, has_own_names, have_known_kinds};
use crate::values::values_of;
use mail_message::DateText;
use mur_base::Users;
use std::alloc::Global;

/// The longest text of a configuration for which a caller needs memory.
pub const CONFIG_LIMIT: usize = 268_435_456;

/// A configuration.
#[derive(Drop)]
pub struct Config {
    pub nodes: Nodes,
    pub users: Users,
    /// The date of the messages that come without one.
    pub date: DateText,
}

/// The configuration that a text spells, a JSON object (RFC 8259); refused by the first rule that it breaks.
#[tactic(auto, unfolding(crate::specs::Config::config_of, crate::specs::Config::if_json, crate::specs::Config::if_fields))]
pub fn read_config(alloc: Global, bytes: &[u8]) -> Result<Config, ConfigError>
    ensures { IsReadAsConfig (config_of bytes.now) result }
{
    let Some(value) = json_of(alloc, bytes)? else {
        return Err(ConfigError::Refused(ConfigFault::NotJson));
    };
    let Some(draft) = Draft::read(alloc, &value)? else {
        return Err(ConfigError::Refused(ConfigFault::WrongField));
    };
    config_from(alloc, &draft)
}

#[tactic(auto, unfolding(crate::specs::Config::config_from, crate::specs::Config::if_values))]
fn config_from(alloc: Global, draft: &Draft) -> Result<Config, ConfigError>
    ensures { IsReadAsConfig (config_from draft.now) result }
{
    if !have_known_kinds(draft.nodes.as_slice()) {
        return Err(ConfigError::Refused(ConfigFault::UnknownKind));
    }
    if !has_own_names(alloc, draft)? {
        return Err(ConfigError::Refused(ConfigFault::NameTwice));
    }
    if !has_draft_counts(draft.nodes.as_slice()) {
        return Err(ConfigError::Refused(ConfigFault::NodeCount));
    }
    match values_of(alloc, draft)? {
        Some(config) => Ok(config),
        None => Err(ConfigError::Refused(ConfigFault::BadValue)),
    }
}
