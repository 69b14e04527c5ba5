//! Local documents.

ghost use Rattle.std.specs.Prelude.{◌≡◌, ◌⊎◌, IfOk, IfErr, IfSome, IfNone, false};
ghost use Rattle.std.specs.Prelude.{IsSome, Ok, Err, string_bytes};
ghost use Rattle.hub_document.specs.Appends.{Appends, AppendsWhole};
ghost use Rattle.hub_document.specs.DocText.{local_text};
ghost use Rattle.serde_json.specs.Find.{as_object};
ghost use Rattle.serde_json.specs.View.{view, members_view};
ghost use Rattle.serde_json.specs.Written.{members_have_float as members_have_float_in};
ghost use Rattle.hub_document.specs.BodyText.{body_text};
ghost use Rattle.hub_document.specs.Local.{IsLocalId, is_local_id as is_local};
ghost use Rattle.hub_document.specs.Reading.{Reads};
ghost use Rattle.hub_document.specs.Local.{short_local_id, local_of, local_in};
ghost use Rattle.hub_document.specs.Read.{or_fault};
ghost use Rattle.hub_document.specs.declared.doc.DocFault.TheVariants.{NotObject};

use crate::body::{Body, body_of};
use crate::doc::DocFault;
use crate::doc_id::is_named_so;
use crate::members::{are_good_members, is_deleted};
use crate::numbers::members_have_float;
use crate::read::read_value;
use crate::text::{put_count, put_head};
use serde_json::{Map, Value};
use std::alloc::{AllocError, Global};
use std::marker::Model;

/// A local document's id, seen as its bytes: `_local/` and a name, 512 bytes at most.
#[derive(Debug, Drop)]
pub struct LocalId {
    text: String,
}

impl Model for LocalId {
    ghost use Rattle.std.specs.Prelude.{List, ℕ, string_bytes};

    ghost Value = { List ℕ };

    ghost view = { λ a. string_bytes a.text };

    ghost use Rattle.hub_document.specs.Local.{IsLocalId};

    ghost invariant = { λ a. IsLocalId (string_bytes a.text) };
}

impl LocalId {
    /// The text as an id; None where no local document can have it. The cost is the text's length. Memory is
    /// taken only for an id.
    pub fn read(alloc: Global, text: &str) -> Result<Option<LocalId>, AllocError>
        ensures value { IfOk result (λ o. o ≡ short_local_id text.now) }
        ensures memory { IfErr result (λ _. IsSome (short_local_id text.now)) }
    {
        if !is_local_id(text) || text.len() > 512 {
            return Ok(None);
        }
        let text = String::from_str(alloc, text)?;
        Ok(Some(LocalId { text }))
    }

    /// The id's text. Constant time.
    pub fn as_str(&self) -> &str
        ensures { result.now ≡ self.now }
    {
        &self.text
    }

    /// The id's own text. The call takes no memory.
    pub fn into_string(self) -> String
        ensures { string_bytes result ≡ self }
    {
        self.text
    }
}

fn is_local_id(text: &str) -> bool
    ensures { result ≡ is_local text.now }
{
    let bytes = text.as_bytes();
    bytes.starts_with(b"_local/") && bytes.len() > 7
}

/// A local document as a writer brings it. Local documents have no revisions, and no feed shows them.
#[derive(Debug, Drop)]
pub struct LocalDoc {
    /// The document's id.
    pub id: LocalId,
    /// The document's own members.
    pub body: Body,
}

impl LocalDoc {
    /// The local document of a JSON text, under the id that the request names, or the first fault. `_rev` is
    /// not looked at. The cost is the text's length. Parsing takes memory, so `NoMemory` may come in place of
    /// a fault.
    pub fn read(alloc: Global, id: &str, bytes: &[u8]) -> Result<LocalDoc, DocFault>
        ensures ok { IfOk result (λ d. local_in id.now bytes.now ≡ Ok d) }
        ensures err { IfErr result (λ e. (e ≡ DocFault.NoMemory) ⊎ (local_in id.now bytes.now ≡ Err e)) }
    {
        let value = read_value(alloc, bytes)?;
        doc_of(alloc, id, &value)
    }
}

// The first fault of these members as a local document with this id.
fn fault_of(id: &str, value: &Value, members: &Map<String, Value>) -> Option<DocFault>
    ensures some { IfSome result
        (λ e. local_of id.now (view value.now) (members_view members.now.entries) ≡ Err e) }
    ensures none { IfNone result (local_of id.now (view value.now) (members_view members.now.entries)
        ≡ Ok (record { id = id.now; body = body_text (members_view members.now.entries) })) }
    ensures whole { IfNone result (members_have_float_in (members_view members.now.entries) ≡ false) }
    ensures good { IfNone result (IsLocalId id.now) }
{
    if members_have_float(members) {
        return Some(DocFault::BadNumber);
    }
    if !is_local_id(id) || !is_named_so(id, value) {
        return Some(DocFault::BadId);
    }
    if !are_good_members(members) || is_deleted(value) {
        return Some(DocFault::BadMember);
    }
    if id.len() > 512 {
        return Some(DocFault::TooLong);
    }
    None
}

// The local document of a JSON value, with this id, or the first fault.
fn doc_of(alloc: Global, id: &str, value: &Value) -> Result<LocalDoc, DocFault>
    ensures ok { IfOk result
        (λ d. or_fault (as_object (view value.now)) NotObject (local_of id.now (view value.now)) ≡ Ok d) }
    ensures err { IfErr result (λ e. (e ≡ DocFault.NoMemory)
        ⊎ (or_fault (as_object (view value.now)) NotObject (local_of id.now (view value.now)) ≡ Err e)) }
{
    let Some(members) = value.as_object() else {
        return Err(DocFault::NotObject);
    };
    if let Some(fault) = fault_of(id, value, members) {
        return Err(fault);
    }
    let text = String::from_str(alloc, id)?;
    let body = body_of(alloc, members)?;
    Ok(LocalDoc {
        id: LocalId { text },
        body,
    })
}

fn put_local(out: &mut Vec<u8>, id: &str, count: u64, body: &Body) -> Result<(), AllocError>
    ensures { Appends (local_text id.now count body.now) result out.old.items out.new.items }
{
    put_head(out, id)?;
    put_count(out, count)?;
    body.put_rest(out)?;
    Ok(())
}

/// Appends the text of a local document. `count` says how often the document was written, and `0-count` is
/// its revision. Out of memory, the vector stays as it was.
pub fn write_local(out: &mut Vec<u8>, id: &str, count: u64, body: &Body) -> Result<(), AllocError>
    ensures { AppendsWhole (local_text id.now count body.now) result out.old.items out.new.items }
{
    let held = out.len();
    let done = put_local(out, id, count, body);
    if done.is_err() {
        out.truncate(held);
    }
    done
}
