//! Writing JSON values into one text, one after the other.

ghost use Rattle.std.specs.Prelude.{◌≡◌, false};
ghost use Rattle.json.specs.Tree.{json_tokens, items_tokens, members_tokens};
ghost use Rattle.serde_json.specs.View.{view, number_view, items_view, members_view};
ghost use Rattle.serde_json.specs.Find.{is_float};
ghost use Rattle.serde_json.specs.Data.{number};
ghost use Rattle.serde_json.specs.Written.{has_float, items_have_float, members_have_float};
ghost use Rattle.serde_json.specs.Written.{outline, items_outline, members_outline};
ghost use Rattle.hub_document.specs.Writing.{WritesTokens};

use json::Writer;
use serde_json::{Map, Number, Value};
use std::alloc::AllocError;

fn write_number(value: &Number, out: &mut Writer) -> Result<(), AllocError>
    requires { is_float (number_view value.now) ≡ false }
    ensures { WritesTokens (json_tokens (outline (number (number_view value.now)))) result out.old out.new }
{
    if let Some(whole) = value.as_u64() {
        return out.u64(whole);
    }
    match value.as_i64() {
        Some(whole) => out.i64(whole),
        None => Ok(()),
    }
}

/// Writes the value after the tokens that the writer has. The cost is the value's size.
#[cycle(write)]
pub(crate) fn write_value(value: &Value, out: &mut Writer) -> Result<(), AllocError>
    requires { has_float (view value.now) ≡ false }
    ensures { WritesTokens (json_tokens (outline (view value.now))) result out.old out.new }
{
    match value {
        Value::Null => out.null(),
        Value::Bool(b) => out.boolean(*b),
        Value::Number(n) => write_number(n, out),
        Value::String(s) => out.string(s.as_str()),
        Value::Array(items) => {
            out.begin_array()?;
            write_items(items, out)
        }
        Value::Object(members) => {
            out.begin_object()?;
            write_members(members, out)
        }
    }
}

#[cycle(write)]
fn write_items(items: &Vec<Value>, out: &mut Writer) -> Result<(), AllocError>
    requires { items_have_float (items_view items.now.items) ≡ false }
    ensures { WritesTokens (items_tokens (items_outline (items_view items.now.items))) result
        out.old out.new }
{
    for item in items {
        write_value(item, out)?;
    }
    out.end_array()
}

#[cycle(write)]
fn write_members(members: &Map<String, Value>, out: &mut Writer) -> Result<(), AllocError>
    requires { members_have_float (members_view members.now.entries) ≡ false }
    ensures { WritesTokens (members_tokens (members_outline (members_view members.now.entries))) result
        out.old out.new }
{
    for (key, member) in members.iter() {
        out.key(key.as_str())?;
        write_value(member, out)?;
    }
    out.end_object()
}
