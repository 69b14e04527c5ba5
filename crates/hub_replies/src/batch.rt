//! The reply to a batch of documents.

ghost use Rattle.std.specs.Prelude.{◌≡◌, ◌++◌, IfOk, OnOk};
ghost use Rattle.serde_json.specs.View.{view, items_view};
ghost use Rattle.hub_model.specs.Revision.{text_of};
ghost use Rattle.hub_replies.specs.Bodies.{edit_text};
ghost use Rattle.hub_replies.specs.Bulk.{id_in, id_text, reason_members};
ghost use Rattle.hub_replies.specs.Bulk.{refused_text, reply_text, batch_body};

use crate::texts::put_comma;
use hub_document::{RevId, put_quoted};
use hub_http::Refusal;
use serde_json::Value;
use std::alloc::{AllocError, Global};

/// The part of the reply to a batch that tells of one element.
#[derive(Clone, Copy, Debug, PartialEq, Eq)]
pub enum BatchReply {
    /// The element is stored, and this is its revision.
    Stored(RevId),
    /// The element is refused.
    Refused(Refusal),
}

// Appends the id of an element as JSON text, `null` where its `_id` is no text.
fn put_id(out: &mut Vec<u8>, element: &Value) -> Result<(), AllocError>
    ensures { OnOk result (out.new.items ≡ out.old.items ++ id_text (id_in (view element.now))) }
{
    match element.get("_id").and_then(Value::as_str) {
        Some(id) => put_quoted(out, id),
        None => out.extend_from_slice(b"null"),
    }
}

// Appends the members with the reason of a refusal, and the brace that closes the element.
fn put_reason(out: &mut Vec<u8>, refusal: Refusal) -> Result<(), AllocError>
    ensures { OnOk result (out.new.items ≡ out.old.items ++ reason_members refusal) }
{
    out.extend_from_slice(b",\"error\":\"")?;
    out.extend_from_slice(refusal.error().as_bytes())?;
    out.extend_from_slice(b"\",\"reason\":\"")?;
    out.extend_from_slice(refusal.reason().as_bytes())?;
    Ok(out.extend_from_slice(b"\"}")?)
}

// Appends the object of an element that is stored.
fn put_stored(out: &mut Vec<u8>, element: &Value, rev: &RevId) -> Result<(), AllocError>
    ensures { OnOk result
        (out.new.items ≡ out.old.items ++ edit_text (id_text (id_in (view element.now))) (text_of rev.now)) }
{
    out.extend_from_slice(b"{\"ok\":true,\"id\":")?;
    put_id(out, element)?;
    out.extend_from_slice(b",\"rev\":")?;
    rev.print_quoted(out)?;
    Ok(out.push(b'}')?)
}

// Appends the object of an element that is refused.
#[tactic(auto, unfolding(crate::specs::Bulk::refused_text))]
fn put_refused(out: &mut Vec<u8>, element: &Value, refusal: Refusal) -> Result<(), AllocError>
    ensures { OnOk result (out.new.items ≡ out.old.items ++ refused_text (id_in (view element.now)) refusal) }
{
    out.extend_from_slice(b"{\"id\":")?;
    put_id(out, element)?;
    put_reason(out, refusal)
}

// Appends the object of an element.
#[tactic(auto, unfolding(crate::specs::Bulk::reply_text))]
fn put_reply(out: &mut Vec<u8>, element: &Value, reply: &BatchReply) -> Result<(), AllocError>
    ensures { OnOk result (out.new.items ≡ out.old.items ++ reply_text (id_in (view element.now)) reply.now) }
{
    match reply {
        BatchReply::Stored(rev) => put_stored(out, element, rev),
        BatchReply::Refused(refusal) => put_refused(out, element, *refusal),
    }
}

/// The body of the reply to a batch (CouchDB API reference, `POST /{db}/_bulk_docs`). It has each element
/// that has a reply, in order, and no other. The id is `null` where an element's `_id` is no text. Elements
/// behind the last reply have none. The cost is the text's length, and the search for the elements' ids.
pub fn batch_body(
    alloc: Global,
    elements: &[Value],
    replies: &[Option<BatchReply>],
) -> Result<Vec<u8>, AllocError>
    ensures { IfOk result (λ t. t.items ≡ batch_body (items_view elements.now) replies.now) }
{
    let mut text = Vec::from_slice(alloc, b"[")?;
    let mut later = false;
    let mut left = replies;
    for element in elements {
        let [first, rest @ ..] = left else {
            continue;
        };
        left = rest;
        let Some(reply) = first else {
            continue;
        };
        put_comma(&mut text, later)?;
        put_reply(&mut text, element, reply)?;
        later = true;
    }
    text.extend_from_slice(b"]\n")?;
    Ok(text)
}
