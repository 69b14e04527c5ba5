//! Revisions and documents that a round fetched, with their histories.

ghost use Rattle.std.specs.Prelude.{◌≡◌, ◌++◌, ◌∷◌, [], All, OnOk, OnErr};
ghost use Rattle.hub_follower.specs.Fetched.{HasPath, FoundHasPath};

use hub_database::OpenRev;
use hub_document::Doc;
use std::alloc::AllocError;
use std::marker::Model;

/// The answer of a peer that is asked for revisions of a document, in the order asked (CouchDB API reference,
/// `open_revs` with `revs=true`). Each revision that was found has its history. Contracts see their list.
#[derive(Debug, Drop)]
pub struct FetchedRevs {
    list: Vec<OpenRev>,
}

impl Model for FetchedRevs {
    ghost use Rattle.std.specs.Prelude.{List, All};
    ghost use Rattle.hub_database.specs.declared.answers.OpenRev.{OpenRev};
    ghost use Rattle.hub_follower.specs.Fetched.{FoundHasPath};

    ghost Value = { List OpenRev };

    ghost view = { λ a. a.list.items };

    ghost invariant = { λ a. All FoundHasPath a.list.items };
}

impl FetchedRevs {
    /// The revisions that the vector holds. Constant time.
    pub fn new(list: Vec<OpenRev>) -> FetchedRevs
        requires { All FoundHasPath list.items }
        ensures { result ≡ list.items }
    {
        FetchedRevs { list }
    }

    /// The revisions in a vector. Constant time.
    pub fn into_vec(self) -> Vec<OpenRev>
        ensures items { result.items ≡ self }
        ensures paths { All FoundHasPath result.items }
    {
        self.list
    }
}

/// The documents that a round fetched, in order. Each has its history. Contracts see their list.
#[derive(Debug, Drop)]
pub(crate) struct FetchedDocs {
    pub(crate) list: Vec<Doc>,
}

impl Model for FetchedDocs {
    ghost use Rattle.std.specs.Prelude.{List, All};
    ghost use Rattle.hub_document.specs.declared.doc.Doc.{Doc};
    ghost use Rattle.hub_follower.specs.Fetched.{HasPath};

    ghost Value = { List Doc };

    ghost view = { λ a. a.list.items };

    ghost invariant = { λ a. All HasPath a.list.items };
}

impl FetchedDocs {
    /// Appends a document. Out of memory, the document is dropped, and the others stay.
    pub(crate) fn push(&mut self, doc: Doc) -> Result<(), AllocError>
        requires { HasPath doc }
        ensures items { OnOk result (self.new ≡ self.old ++ doc ∷ []) }
        ensures err { OnErr result (self.new ≡ self.old) }
    {
        self.list.push(doc)?;
        Ok(())
    }
}
