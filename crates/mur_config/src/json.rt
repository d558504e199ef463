// A text as a JSON value (RFC 8259), and the fields of an object.
ghost use Rattle.std.specs.Prelude.{◌≡◌, IfOk, option_map};
ghost use Rattle.serde_json.specs.View.{view, items_view};
ghost use Rattle.mur_config.specs.Json.{json_of, text_field, list_field};

use mur_base::Memory;
use serde_json::Value;
use std::alloc::Global;

/// The JSON value that a text is, as `serde_json` reads it; nothing where it is none.
#[tactic(auto, unfolding(crate::specs::Json::json_of))]
pub fn json_of(alloc: Global, bytes: &[u8]) -> Result<Option<Value>, Memory>
    ensures { IfOk result (λ found. option_map view found ≡ json_of bytes.now) }
{
    match Value::from_slice(alloc, bytes) {
        Ok(value) => Ok(Some(value)),
        Err(error) => {
            if error.is_memory() {
                Err(Memory)
            } else {
                Ok(None)
            }
        }
    }
}

/// The text at a key of an object, if there is one.
#[tactic(auto, unfolding(crate::specs::Json::text_field))]
pub fn text_field<'v>(value: &'v Value, key: &str) -> Option<&'v str>
    ensures { option_map (λ text. text.now) result ≡ text_field key.now (view value.now) }
{
    match value.get(key) {
        Some(field) => field.as_str(),
        None => None,
    }
}

/// The array at a key of an object, if there is one.
#[tactic(auto, unfolding(crate::specs::Json::list_field))]
pub fn list_field<'v>(value: &'v Value, key: &str) -> Option<&'v [Value]>
    ensures { option_map (λ items. items_view items.now) result ≡ list_field key.now (view value.now) }
{
    match value.get(key) {
        Some(field) => match field.as_array() {
            Some(items) => Some(items.as_slice()),
            None => None,
        },
        None => None,
    }
}
