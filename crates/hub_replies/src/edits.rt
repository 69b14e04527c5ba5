//! The replies to edits.

ghost use Rattle.std.specs.Prelude.{◌≡◌, ◌++◌, List, ℕ, codes, decimal, IfOk, OnOk};
ghost use Rattle.json.specs.Print.{quoted};
ghost use Rattle.hub_replies.specs.Bodies.{edit_body, edit_front, local_edit_body};

use hub_document::{RevId, put_quoted};
use itoa::Buffer;
use std::alloc::{AllocError, Global};

// Room, in bytes, for the text before and behind the id: the longest revision has 70 bytes.
const ROOM: usize = 128;

// Room, in bytes, for the text behind the front.
const REST: usize = 80;

/// The front of the reply to an edit of the document of this id, before its revision. The id of a local
/// document has its `_local/`. The front has room for the rest, so a reply that is begun before the edit
/// takes no memory after the edit. It costs the id's length.
#[tactic(auto, unfolding(crate::specs::Bodies::edit_front))]
pub fn edit_front(alloc: Global, id: &str) -> Result<Vec<u8>, AllocError>
    ensures { IfOk result (λ t. t.items ≡ edit_front id.now) }
{
    let mut text = Vec::with_capacity(alloc, ROOM.saturating_add(id.len()))?;
    text.extend_from_slice(b"{\"ok\":true,\"id\":")?;
    put_quoted(&mut text, id)?;
    text.extend_from_slice(b",\"rev\":")?;
    text.try_reserve(REST)?;
    Ok(text)
}

/// The reply with this front to an edit of a document that has this revision now (CouchDB API reference,
/// `PUT /{db}/{docid}`). Constant time.
pub fn edit_body(front: Vec<u8>, rev: &RevId) -> Result<Vec<u8>, AllocError>
    ensures { IfOk result
        (λ t. (id : List ℕ) → front.items ≡ edit_front id → t.items ≡ edit_body id rev.now) }
{
    let mut text = front;
    rev.print_quoted(&mut text)?;
    text.extend_from_slice(b"}\n")?;
    Ok(text)
}

// Appends the JSON string of the revision of a local document that was written `count` times.
fn put_count(out: &mut Vec<u8>, count: u64) -> Result<(), AllocError>
    ensures { OnOk result (out.new.items ≡ out.old.items ++ quoted (codes "0-" ++ decimal count)) }
{
    let mut number = Buffer::new();
    out.extend_from_slice(b"\"0-")?;
    out.extend_from_slice(number.format(count).as_bytes())?;
    Ok(out.push(b'"')?)
}

/// The reply with this front to an edit of a local document, which was written `count` times now (CouchDB API
/// reference, `PUT /{db}/_local/{docid}`). Constant time.
pub fn local_edit_body(front: Vec<u8>, count: u64) -> Result<Vec<u8>, AllocError>
    ensures { IfOk result
        (λ t. (id : List ℕ) → front.items ≡ edit_front id → t.items ≡ local_edit_body id count) }
{
    let mut text = front;
    put_count(&mut text, count)?;
    text.extend_from_slice(b"}\n")?;
    Ok(text)
}
