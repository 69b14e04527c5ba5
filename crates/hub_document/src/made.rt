//! The revisions that a database makes.

ghost use Rattle.std.specs.Prelude.{◌≡◌, ◌<◌, ◌≤◌, ◌++◌, codes, IfOk, OnOk};
ghost use Rattle.json.specs.Print.{escape};
ghost use Rattle.hub_model.specs.Draft.{new_revision, generation_of as generation_in, bool_text};
ghost use Rattle.hub_document.specs.DraftText.{Takes, front_text};

use crate::body::Body;
use crate::doc_id::DocId;
use crate::plain::is_plain;
use crate::revision::{DigestRev, RevId};
use crate::text::put_quoted;
use itoa::Buffer;
use md5::{Digest, Md5};
use std::alloc::{AllocError, Global};

fn generation_of(parent: &Option<RevId>) -> u16
    ensures { result ≡ generation_in parent.now }
{
    match parent {
        Some(rev) => rev.generation(),
        None => 0,
    }
}

// The text in front of a parent's: a bracket, whether the edit deletes, a comma, and the quote of the parent.
fn opening(deleted: bool) -> &'static [u8]
    ensures { result.now ≡ codes "[" ++ (bool_text deleted ++ codes ",\"") }
{
    if deleted { b"[true,\"" } else { b"[false,\"" }
}

// The text in front of the id's where there is no parent, with the quote that opens the id.
fn opening_alone(deleted: bool) -> &'static [u8]
    ensures { result.now ≡ codes "[" ++ (bool_text deleted ++ codes ",null,\"") }
{
    if deleted {
        b"[true,null,\""
    } else {
        b"[false,null,\""
    }
}

// Hashes all that stands in front of the id, and the quote that opens the id.
fn hash_front(hasher: &mut Md5, deleted: bool, parent: &Option<RevId>)
    ensures { Takes (front_text deleted parent.now) hasher.old hasher.new }
{
    let Some(rev) = parent else {
        hasher.update(opening_alone(deleted));
        return;
    };
    let mut number = Buffer::new();
    hasher.update(opening(deleted));
    hasher.update(number.format(rev.generation()).as_bytes());
    hasher.update(b"-");
    hasher.update(rev.hash());
    hasher.update(b"\",\"");
}

// Hashes the JSON string of any text, without its first quote, and a comma.
fn hash_rest(alloc: Global, hasher: &mut Md5, text: &str) -> Result<(), AllocError>
    ensures { OnOk result (Takes (escape text.now ++ codes "\",") hasher.old hasher.new) }
{
    if is_plain(text.as_bytes()) {
        hasher.update(text.as_bytes());
        hasher.update(b"\",");
        return Ok(());
    }
    let mut string = Vec::new(alloc);
    put_quoted(&mut string, text)?;
    hasher.update(&string.as_slice()[1..]);
    hasher.update(b",");
    Ok(())
}

/// The revision of an edit that is made here. Its generation is one above the parent's, and 1 without a
/// parent. Its hash is the MD5 (RFC 1321) of `[deleted,parent,id,body]`, in 32 lower-case digits (own). The
/// cost is the body's length, and memory is taken only for an id that needs an escape.
pub fn rev_of_edit(
    alloc: Global,
    deleted: bool,
    parent: Option<RevId>,
    id: &DocId,
    body: &Body,
) -> Result<DigestRev, AllocError>
    requires { generation_in parent < 65535 }
    ensures { IfOk result
        (λ r. r ≡ new_revision (record { id = id.now; rev = parent; deleted = deleted; body = body.now }) parent) }
{
    let mut hasher = Md5::new();
    hash_front(&mut hasher, deleted, &parent);
    hash_rest(alloc, &mut hasher, id.as_str())?;
    hasher.update(body.as_bytes());
    hasher.update(b"]");
    Ok(DigestRev::new(generation_of(&parent) + 1, hasher.finalize()))
}
