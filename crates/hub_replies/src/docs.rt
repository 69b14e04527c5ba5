//! Documents and revisions that were asked for.

ghost use Rattle.std.specs.Prelude.{◌≡◌, [], IfOk};
ghost use Rattle.hub_replies.specs.Bodies.{doc_body, local_doc_body, open_rev_text, open_revs_body};

use crate::texts::{Member, list_body};
use hub_database::{Local, OpenRev};
use hub_document::{Doc, write_local};
use std::alloc::{AllocError, Global};

// Room, in bytes, for a document's text beside its id and its members, unless the text has a history.
const ROOM: usize = 128;

// An empty text, with room for a document of this id and these members.
fn text_for(alloc: Global, id: &str, members: &[u8]) -> Result<Vec<u8>, AllocError>
    ensures { IfOk result (λ t. t.items ≡ []) }
{
    let room = ROOM.saturating_add(id.len()).saturating_add(members.len());
    Vec::with_capacity(alloc, room)
}

/// The body with a document (CouchDB API reference, `GET /{db}/{docid}`). The document is written straight
/// into the body. It costs the text's length.
#[tactic(auto, unfolding(crate::specs::Bodies::doc_body))]
pub fn doc_body(alloc: Global, doc: &Doc) -> Result<Vec<u8>, AllocError>
    ensures { IfOk result (λ t. t.items ≡ doc_body doc.now) }
{
    let mut text = text_for(alloc, doc.id.as_str(), doc.body.as_bytes())?;
    doc.write(&mut text)?;
    text.push(b'\n')?;
    Ok(text)
}

/// The body with the local document of this id, `_local/` included (CouchDB API reference,
/// `GET /{db}/_local/{docid}`). The document is written straight into the body. It costs the text's length.
#[tactic(auto, unfolding(crate::specs::Bodies::local_doc_body))]
pub fn local_doc_body(alloc: Global, id: &str, local: &Local) -> Result<Vec<u8>, AllocError>
    ensures { IfOk result (λ t. t.items ≡ local_doc_body id.now local.now.count local.now.body) }
{
    let mut text = text_for(alloc, id, local.body.as_bytes())?;
    write_local(&mut text, id, local.count, &local.body)?;
    text.push(b'\n')?;
    Ok(text)
}

impl Member for OpenRev {
    ghost text = { open_rev_text };

    #[tactic(auto, unfolding(crate::specs::Bodies::open_rev_text))]
    fn put(&self, out: &mut Vec<u8>) -> Result<(), AllocError> {
        match self {
            OpenRev::Found(doc) => {
                out.extend_from_slice(b"{\"ok\":")?;
                doc.write(out)?;
            }
            OpenRev::Missing(rev) => {
                out.extend_from_slice(b"{\"missing\":")?;
                rev.print_quoted(out)?;
            }
        }
        Ok(out.push(b'}')?)
    }
}

/// The revisions of a document that were asked for, in order (CouchDB API reference,
/// `GET /{db}/{docid}?open_revs=..`). Each is written straight into the body. It costs the text's length.
#[tactic(auto, unfolding(crate::specs::Bodies::open_revs_body))]
pub fn open_revs_body(alloc: Global, revs: &[OpenRev]) -> Result<Vec<u8>, AllocError>
    ensures { IfOk result (λ t. t.items ≡ open_revs_body revs.now) }
{
    list_body(alloc, revs)
}
