//! Documents that are put under an id.

ghost use Rattle.std.specs.Prelude.{◌≡◌, ◌⊎◌, IfOk, IfErr, Ok, Err, option_map, false, true};
ghost use Rattle.serde_json.specs.View.{view, members_view};
ghost use Rattle.serde_json.specs.Written.{members_have_float as members_have_float_in};
ghost use Rattle.hub_document.specs.Ids.{is_id as is_id_text};
ghost use Rattle.hub_document.specs.Reading.{Reads};
ghost use Rattle.hub_document.specs.Put.{rev_put, put_of, put_doc};

use crate::doc::{Doc, DocFault};
use crate::doc_id::{is_id, is_named_so};
use crate::history::rev_of;
use crate::numbers::members_have_float;
use crate::read::with_path;
use crate::revision::RevId;
use serde_json::Value;
use std::alloc::Global;

// The leaf that the request, the document or both name; `Some(None)` where neither does. None is a fault.
fn named_by(rev: Option<&str>, value: &Value) -> Option<Option<RevId>>
    ensures { result ≡ rev_put (option_map (λ s. s.now) rev.entry) (view value.now) }
{
    let Some(text) = rev else {
        return rev_of(value, true);
    };
    let asked = RevId::read(text)?;
    match rev_of(value, true)? {
        Some(named) if !asked.is_same(&named) => None,
        _ => Some(Some(asked)),
    }
}

/// The document of a JSON value, under the id that a request names, or the first fault. The request may name
/// the edited leaf too, by `rev`. Where `new_edits` is false the edit was not made here, which is a
/// `BadMember`. The cost is the value's size.
pub fn put_doc(
    alloc: Global,
    id: &str,
    rev: Option<&str>,
    new_edits: bool,
    value: &Value,
) -> Result<Doc, DocFault>
    ensures ok { IfOk result (λ d. put_doc id.now (option_map (λ s. s.now) rev.entry) new_edits
        (view value.now) ≡ Ok d) }
    ensures err { IfErr result (λ e. (e ≡ DocFault.NoMemory) ⊎ (put_doc id.now
        (option_map (λ s. s.now) rev.entry) new_edits (view value.now) ≡ Err e)) }
{
    let Some(members) = value.as_object() else {
        return Err(DocFault::NotObject);
    };
    if members_have_float(members) {
        return Err(DocFault::BadNumber);
    }
    if !is_id(id) || !is_named_so(id, value) {
        return Err(DocFault::BadId);
    }
    let Some(named) = named_by(rev, value) else {
        return Err(DocFault::BadRev);
    };
    if !new_edits {
        return Err(DocFault::BadMember);
    }
    with_path(alloc, value, members, id, named, None)
}
