//! The members of a document whose names begin with `_`.

ghost use Rattle.std.specs.Prelude.{◌≡◌};
ghost use Rattle.serde_json.specs.View.{view, members_view};
ghost use Rattle.hub_document.specs.BodyText.{is_hidden as is_hidden_key};
ghost use Rattle.hub_document.specs.SpecialMembers.{is_listed as is_listed_key, is_good_member as is_good};
ghost use Rattle.hub_document.specs.SpecialMembers.{are_good_members as are_good};
ghost use Rattle.hub_document.specs.SpecialMembers.{is_empty_object as is_empty, deleted_of};

use serde_json::{Map, Value};

/// Whether the key begins with `_`.
pub(crate) fn is_hidden(key: &str) -> bool
    ensures { result ≡ is_hidden_key key.now }
{
    let bytes = key.as_bytes();
    !bytes.is_empty() && bytes[0] == b'_'
}

fn is_listed(key: &str) -> bool
    ensures { result ≡ is_listed_key key.now }
{
    key == "_id"
        || key == "_rev"
        || key == "_revisions"
        || key == "_conflicts"
        || key == "_deleted_conflicts"
        || key == "_local_seq"
        || key == "_revs_info"
}

fn is_empty_object(value: &Value) -> bool
    ensures { result ≡ is_empty (view value.now) }
{
    match value {
        Value::Object(members) => members.len() == 0,
        _ => false,
    }
}

fn is_good_member(key: &str, value: &Value) -> bool
    ensures { result ≡ is_good key.now (view value.now) }
{
    !is_hidden(key)
        || (is_listed(key)
            || ((key == "_deleted" && value.is_boolean())
                || (key == "_attachments" && is_empty_object(value))))
}

/// Whether each member that begins with `_` is known and has a fitting value. The cost is the number of
/// members.
pub(crate) fn are_good_members(members: &Map<String, Value>) -> bool
    ensures { result ≡ are_good (members_view members.now.entries) }
{
    for (key, member) in members.iter() {
        if !is_good_member(key.as_str(), member) {
            return false;
        }
    }
    true
}

/// Whether the document is marked as deleted: `_deleted` is `true`.
pub(crate) fn is_deleted(value: &Value) -> bool
    ensures { result ≡ deleted_of (view value.now) }
{
    value
        .get("_deleted")
        .and_then(Value::as_bool)
        .unwrap_or(false)
}
