//! Documents.

ghost use Rattle.std.specs.Prelude.{◌≡◌, IfOk};
ghost use Rattle.hub_document.specs.Appends.{Appends, AppendsWhole};
ghost use Rattle.hub_document.specs.DocText.{doc_text};

use crate::body::Body;
use crate::doc_id::DocId;
use crate::path::Path;
use crate::revision::RevId;
use crate::text::{put_deleted, put_head, put_path, put_rev};
use std::alloc::{AllocError, Global};
use thiserror::Error;

/// A document as a writer brings it.
#[derive(Debug, Drop)]
pub struct Doc {
    /// The document's id.
    pub id: DocId,
    /// The revision that the writer names: with a path the first of the path, else the leaf that is edited.
    /// None where the writer names no leaf.
    pub rev: Option<RevId>,
    /// The revision's history, where the writer made the revision (`new_edits=false`).
    pub path: Option<Path>,
    /// Whether the edit deletes the document.
    pub deleted: bool,
    /// The document's own members.
    pub body: Body,
}

impl Doc {
    /// Appends the document's text: `_id`, `_rev` where a revision is named, `_deleted` where the document is
    /// deleted, `_revisions` where it has a path, and its members. Out of memory, the vector stays as it was.
    /// The cost is the text's length.
    pub fn write(&self, out: &mut Vec<u8>) -> Result<(), AllocError>
        ensures { AppendsWhole (doc_text self.now) result out.old.items out.new.items }
    {
        let held = out.len();
        let done = put_doc(out, self);
        if done.is_err() {
            out.truncate(held);
        }
        done
    }

    /// A copy. The cost is the length of the path and of the body.
    pub fn copy(&self, alloc: Global) -> Result<Doc, AllocError>
        ensures { IfOk result (λ d. d ≡ self.now) }
    {
        let id = self.id.copy()?;
        let path = match &self.path {
            Some(path) => Some(path.copy(alloc)?),
            None => None,
        };
        let body = self.body.copy(alloc)?;
        Ok(Doc {
            id,
            rev: self.rev,
            path,
            deleted: self.deleted,
            body,
        })
    }
}

fn put_doc(out: &mut Vec<u8>, doc: &Doc) -> Result<(), AllocError>
    ensures { Appends (doc_text doc.now) result out.old.items out.new.items }
{
    put_head(out, doc.id.as_str())?;
    put_rev(out, &doc.rev)?;
    put_deleted(out, doc.deleted)?;
    put_path(out, &doc.path)?;
    doc.body.put_rest(out)?;
    Ok(())
}

/// Why a text or a JSON value is no document: the first of these, in this order. Parsing a text may end in
/// `NoMemory` instead. The error texts are the reasons that a hub answers (own).
#[derive(Clone, Copy, Debug, PartialEq, Eq, Error)]
pub enum DocFault {
    /// A growth was refused.
    #[error("out of memory")]
    NoMemory,
    /// The text is not JSON, or not UTF-8, or nests deeper than 127 levels.
    #[error("not JSON")]
    NotJson,
    /// The value is no object.
    #[error("not an object")]
    NotObject,
    /// A number is no whole number from -2^63 to 2^64 - 1.
    #[error("number out of profile")]
    BadNumber,
    /// `_id` is absent or no id. Where the request names the id, it is no id, or `_id` is another one.
    #[error("bad id")]
    BadId,
    /// `_rev` or the request's `rev` is no revision, both differ, or `_rev` is absent where it is needed.
    #[error("bad rev")]
    BadRev,
    /// `_revisions` is no history, or `_rev` is not its first revision.
    #[error("bad _revisions")]
    BadRevisions,
    /// A member that begins with `_` is unknown, or its value does not fit; or `new_edits` is false in a put.
    #[error("bad member")]
    BadMember,
    /// The id is longer than 512 bytes.
    #[error("id too long")]
    TooLong,
}

impl From<AllocError> for DocFault {
    ghost use Rattle.std.specs.Prelude.{◌≡◌};
    ghost use Rattle.hub_document.specs.declared.doc.DocFault.TheVariants.{NoMemory};

    ghost from_gives = { λ _ e. e ≡ NoMemory };

    fn from(_refused: AllocError) -> DocFault {
        DocFault::NoMemory
    }
}
