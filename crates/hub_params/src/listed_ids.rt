//! The ids that a feed is asked to show.

ghost use Rattle.std.specs.Prelude.{◌≡◌, ◌⊎◌, ◌<◌, IfOk, IfErr, Some, None};
ghost use Rattle.std.specs.Prelude.{length, map, option_map, string_bytes};
ghost use Rattle.serde_json.specs.View.{view, items_view};
ghost use Rattle.hub_document.specs.Read.{json_of};
ghost use Rattle.hub_params.specs.ListedIds.{texts_of as texts_of_items, texts_in};
ghost use Rattle.hub_params.specs.ListedIds.{ids_in_query, ids_in_member, ids_in_body, ids_in};
ghost use Rattle.hub_params.specs.Room.{HasBytes};

use crate::feed_fault::ParamFault;
use hub_document::{DocFault, read_value};
use serde_json::Value;
use std::alloc::{AllocError, Global};

// The texts of values that are JSON strings. None is a fault.
fn texts_of(alloc: Global, values: &Vec<Value>) -> Result<Option<Vec<String>>, AllocError>
    ensures { IfOk result (λ o. option_map (λ v. map string_bytes v.items) o
        ≡ texts_of_items (items_view values.now.items)) }
{
    let mut texts = Vec::new(alloc);
    for value in values {
        let Some(text) = value.as_str() else {
            return Ok(None);
        };
        texts.push(String::from_str(alloc, text)?)?;
    }
    Ok(Some(texts))
}

// The texts of a JSON array of strings.
fn listed_texts(alloc: Global, value: &Value) -> Result<Vec<String>, ParamFault>
    ensures ok { IfOk result (λ v. texts_in (view value.now) ≡ Some (map string_bytes v.items)) }
    ensures err { IfErr result (λ e. (e ≡ ParamFault.NoMemory)
        ⊎ ((e ≡ ParamFault.BadDocIds) × (texts_in (view value.now) ≡ None))) }
{
    let values = value.as_array().ok_or(ParamFault::BadDocIds)?;
    texts_of(alloc, values)?.ok_or(ParamFault::BadDocIds)
}

// The JSON value of a text; `BadDocIds` where the text is no JSON.
fn json(alloc: Global, text: &[u8]) -> Result<Value, ParamFault>
    ensures ok { IfOk result (λ v. json_of text.now ≡ Some (view v)) }
    ensures err { IfErr result (λ e. (e ≡ ParamFault.NoMemory)
        ⊎ ((e ≡ ParamFault.BadDocIds) × (json_of text.now ≡ None))) }
    ensures memory { IfErr result (λ e. e ≡ ParamFault.NoMemory → 0 < length text.now) }
{
    match read_value(alloc, text) {
        Ok(value) => Ok(value),
        Err(DocFault::NoMemory) => Err(ParamFault::NoMemory),
        Err(_) => Err(ParamFault::BadDocIds),
    }
}

// The ids of the query's `doc_ids`.
fn ids_of_query(alloc: Global, value: Option<&str>) -> Result<Vec<String>, ParamFault>
    ensures ok { IfOk result
        (λ v. ids_in_query (option_map (λ s. s.now) value.entry) ≡ Some (map string_bytes v.items)) }
    ensures err { IfErr result (λ e. (e ≡ ParamFault.NoMemory)
        ⊎ ((e ≡ ParamFault.BadDocIds) × (ids_in_query (option_map (λ s. s.now) value.entry) ≡ None))) }
    ensures memory { IfErr result
        (λ e. e ≡ ParamFault.NoMemory → HasBytes (option_map (λ s. s.now) value.entry)) }
{
    let text = value.ok_or(ParamFault::BadDocIds)?;
    let list = json(alloc, text.as_bytes())?;
    listed_texts(alloc, &list)
}

// The ids of a body that is not empty, or of the query where the body has no `doc_ids`.
fn ids_of_body(alloc: Global, value: Option<&str>, body: &[u8]) -> Result<Vec<String>, ParamFault>
    ensures ok { IfOk result
        (λ v. ids_in_body (option_map (λ s. s.now) value.entry) body.now ≡ Some (map string_bytes v.items)) }
    ensures err { IfErr result (λ e. (e ≡ ParamFault.NoMemory)
        ⊎ ((e ≡ ParamFault.BadDocIds)
        × (ids_in_body (option_map (λ s. s.now) value.entry) body.now ≡ None))) }
{
    let object = json(alloc, body)?;
    if object.as_object().is_none() {
        return Err(ParamFault::BadDocIds);
    }
    match object.get("doc_ids") {
        Some(list) => listed_texts(alloc, list),
        None => ids_of_query(alloc, value),
    }
}

/// The ids that the body or the query's `doc_ids` lists. The query is read only where the body is empty, or
/// has no `doc_ids`. The cost is the length of both.
pub(crate) fn ids_of(
    alloc: Global,
    value: Option<&str>,
    body: &[u8],
) -> Result<Vec<String>, ParamFault>
    ensures ok { IfOk result
        (λ v. ids_in (option_map (λ s. s.now) value.entry) body.now ≡ Some (map string_bytes v.items)) }
    ensures err { IfErr result (λ e. (e ≡ ParamFault.NoMemory)
        ⊎ ((e ≡ ParamFault.BadDocIds) × (ids_in (option_map (λ s. s.now) value.entry) body.now ≡ None))) }
    ensures memory { IfErr result (λ e. e ≡ ParamFault.NoMemory
        → HasBytes (option_map (λ s. s.now) value.entry) ⊎ (0 < length body.now)) }
{
    if body.is_empty() {
        ids_of_query(alloc, value)
    } else {
        ids_of_body(alloc, value, body)
    }
}
