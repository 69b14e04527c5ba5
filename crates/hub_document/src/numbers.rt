//! Whether a JSON value has a number that is no whole number of 64 bits.

ghost use Rattle.std.specs.Prelude.{◌≡◌};
ghost use Rattle.serde_json.specs.View.{view, items_view, members_view};
ghost use Rattle.serde_json.specs.Written.{has_float as data_has_float};
ghost use Rattle.serde_json.specs.Written.{items_have_float as data_items_have_float};
ghost use Rattle.serde_json.specs.Written.{members_have_float as data_members_have_float};

use serde_json::{Map, Value};

#[cycle(floats)]
fn has_float(value: &Value) -> bool
    ensures { result ≡ data_has_float (view value.now) }
{
    match value {
        Value::Null | Value::Bool(_) | Value::String(_) => false,
        Value::Number(n) => n.is_f64(),
        Value::Array(items) => items_have_float(items),
        Value::Object(members) => members_have_float(members),
    }
}

#[cycle(floats)]
fn items_have_float(items: &Vec<Value>) -> bool
    ensures { result ≡ data_items_have_float (items_view items.now.items) }
{
    for item in items {
        if has_float(item) {
            return true;
        }
    }
    false
}

/// Whether a number at any depth in the members is no whole number of 64 bits. The cost is their size.
#[cycle(floats)]
pub(crate) fn members_have_float(members: &Map<String, Value>) -> bool
    ensures { result ≡ data_members_have_float (members_view members.now.entries) }
{
    for (_, member) in members.iter() {
        if has_float(member) {
            return true;
        }
    }
    false
}
