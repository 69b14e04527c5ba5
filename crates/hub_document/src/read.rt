//! Documents from JSON texts and values.

ghost use Rattle.std.specs.Prelude.{is_some, not, IfSome, ◌≡◌, length, nat_lt, if◌then◌else◌};
ghost use Rattle.std.specs.Prelude.{◌⊎◌, IfOk, IfErr, IsOk, Ok, Err, Some, None, false};
ghost use Rattle.serde_json.specs.View.{view, members_view};
ghost use Rattle.hub_document.specs.Read.{with_path as path_gives, with_rev as rev_gives};
ghost use Rattle.hub_document.specs.Read.{IsStorable};
ghost use Rattle.hub_document.specs.Read.{history_of as history_in, doc_of, doc_in};
ghost use Rattle.hub_document.specs.Reading.{Reads, ReadsEdit, ReadsJson};
ghost use Rattle.hub_document.specs.SpecialMembers.{are_good_members as are_good};

use crate::body::body_of;
use crate::doc::{Doc, DocFault};
use crate::doc_id::{DocId, id_of};
use crate::history::{is_path, path_of, rev_of};
use crate::members::{are_good_members, is_deleted};
use crate::numbers::members_have_float;
use crate::path::Path;
use crate::revision::RevId;
use serde_json::{Map, Value};
use std::alloc::{AllocError, Global};

// The last two faults, in their order: a bad member, then an id that is too long.
fn last_fault(members: &Map<String, Value>, id: &str) -> Option<DocFault>
    ensures { result ≡ (if are_good (members_view members.now.entries)
        then (if nat_lt 512 (length id.now) then Some DocFault.TooLong else None)
        else Some DocFault.BadMember) }
{
    if !are_good_members(members) {
        return Some(DocFault::BadMember);
    }
    if id.len() > 512 {
        return Some(DocFault::TooLong);
    }
    None
}

/// The document, where its revision and path are known; else `BadMember`, or `TooLong` for its id.
pub(crate) fn with_path(
    alloc: Global,
    value: &Value,
    members: &Map<String, Value>,
    id: &str,
    rev: Option<RevId>,
    path: Option<Path>,
) -> Result<Doc, DocFault>
    requires { IsStorable (members_view members.now.entries) id.now }
    ensures reads { Reads
        (path_gives (view value.now) (members_view members.now.entries) id.now rev path) result }
    ensures history { IfOk result (λ d. d.path ≡ path) }
{
    if let Some(fault) = last_fault(members, id) {
        return Err(fault);
    }
    let id = DocId::copied(alloc, id)?;
    let body = body_of(alloc, members)?;
    let deleted = is_deleted(value);
    Ok(Doc {
        id,
        rev,
        path,
        deleted,
        body,
    })
}

// The fault of an edit from another database whose path found no memory: the first fault of the document,
// else `NoMemory`. The call takes no memory.
fn without_path(
    value: &Value,
    members: &Map<String, Value>,
    id: &str,
    rev: &Option<RevId>,
) -> DocFault
    ensures fault { (result ≡ DocFault.NoMemory)
        ⊎ (rev_gives false (view value.now) (members_view members.now.entries) id.now rev.now ≡ Err result) }
    ensures memory { result ≡ DocFault.NoMemory
        → IsOk (rev_gives false (view value.now) (members_view members.now.entries) id.now rev.now) }
{
    if !is_path(*rev, value) {
        return DocFault::BadRevisions;
    }
    last_fault(members, id).unwrap_or(DocFault::NoMemory)
}

/// The JSON value of a text. The cost is the text's length. Any text but an empty one is parsed in memory, so
/// `NoMemory` may come in place of `NotJson`.
pub fn read_value(alloc: Global, bytes: &[u8]) -> Result<Value, DocFault>
    ensures { ReadsJson bytes.now result }
{
    match Value::from_slice(alloc, bytes) {
        Ok(value) => Ok(value),
        Err(e) if e.is_memory() => Err(DocFault::NoMemory),
        Err(_) => Err(DocFault::NotJson),
    }
}

/// The document of a JSON value, or the first fault in the value. With `new_edits` the edit is made here:
/// `_rev` may name the edited leaf, and `_revisions` is not looked at. Without `new_edits`, `_rev` and
/// `_revisions` are the edit's own. The cost is the value's size. A fault is found without memory. The
/// function is no method of `Doc`: each crate that names a type is proved over the contracts of all its
/// methods, which would bring those of `Value`.
pub fn read_doc(alloc: Global, value: &Value, new_edits: bool) -> Result<Doc, DocFault>
    ensures { ReadsEdit new_edits (doc_of new_edits (view value.now)) result }
{
    let Some(members) = value.as_object() else {
        return Err(DocFault::NotObject);
    };
    if members_have_float(members) {
        return Err(DocFault::BadNumber);
    }
    let Some(id) = id_of(value) else {
        return Err(DocFault::BadId);
    };
    let Some(rev) = rev_of(value, new_edits) else {
        return Err(DocFault::BadRev);
    };
    if new_edits {
        return with_path(alloc, value, members, id, rev, None);
    }
    match path_of(alloc, rev, value) {
        Ok(Some(path)) => {
            let head = Some(path.head());
            with_path(alloc, value, members, id, head, Some(path))
        }
        Ok(None) => Err(DocFault::BadRevisions),
        Err(_) => Err(without_path(value, members, id, &rev)),
    }
}

impl Doc {
    /// The document of a JSON text, or the first fault. The cost is the text's length. Parsing takes memory,
    /// so `NoMemory` may come in place of a fault.
    pub fn read(alloc: Global, bytes: &[u8], new_edits: bool) -> Result<Doc, DocFault>
        ensures ok { IfOk result (λ d. doc_in new_edits bytes.now ≡ Ok d) }
        ensures err { IfErr result (λ e. (e ≡ DocFault.NoMemory)
            ⊎ (doc_in new_edits bytes.now ≡ Err e)) }
        ensures history { IfOk result (λ d. is_some d.path ≡ not new_edits) }
    {
        let value = read_value(alloc, bytes)?;
        read_doc(alloc, &value, new_edits)
    }
}
