//! The answers of a database.

use hub_document::{Doc, RevId, Revisions};
use std::marker::Model;

/// A revision that was asked for (CouchDB API reference, documents, `open_revs`).
#[derive(Debug, Drop)]
pub enum OpenRev {
    /// The document at this revision, with its history where that was asked for.
    Found(Doc),
    /// The revision is unknown, or has no body.
    Missing(RevId),
}

/// A document that was asked for.
#[derive(Debug, Drop)]
pub enum Lookup {
    /// There is no document of this id.
    Unknown,
    /// The document's winner is deleted.
    Deleted,
    /// The document's winner.
    Found(Doc),
}

/// The counts of a database (CouchDB API reference, `GET /{db}`).
#[derive(Clone, Copy, Debug, PartialEq, Eq)]
pub struct Info {
    /// The number of documents whose winner is not deleted. Design documents count too.
    pub doc_count: u64,
    /// The number of documents whose winner is deleted.
    pub doc_del_count: u64,
    /// The number of edits that were accepted.
    pub update_seq: u64,
    /// The number of the database's life.
    pub life: u64,
}

/// The missing revisions of a document, among those asked for (CouchDB API reference, `_revs_diff`).
#[derive(Debug, Drop)]
pub struct Diff {
    /// The document's id.
    pub id: String,
    /// The revisions that are not known, in the order asked.
    pub missing: Revisions,
    /// The leaves of a lower generation than the greatest missing one, best first.
    pub possible_ancestors: Revisions,
}

impl Model for Diff {
    ghost use Rattle.std.specs.Prelude.{string_bytes};
    ghost use Rattle.hub_model.specs.Missing.{Diff as Difference};

    ghost Value = { Difference };

    ghost view = { λ a. record {
      id = string_bytes a.id;
      missing = a.missing;
      possible_ancestors = a.possible_ancestors;
    } };
}
