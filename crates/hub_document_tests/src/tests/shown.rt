//! The texts that show a document.

use hub_document::{Doc, DocFault, Path, RevId, Revisions};
use std::alloc::Global;

/// The answer to a command. It has room for each answer, and a part without room is left out.
#[derive(Drop)]
pub(super) struct Out {
    pub(super) bytes: Vec<u8>,
}

impl Out {
    /// Appends a text.
    pub(super) fn put(&mut self, text: &str) {
        let _ = self.bytes.extend_from_slice(text.as_bytes());
    }

    /// Appends a text, and bytes after it.
    pub(super) fn both(&mut self, text: &str, bytes: &[u8]) {
        self.put(text);
        let _ = self.bytes.extend_from_slice(bytes);
    }

    /// Appends a text, and a revision after a blank.
    pub(super) fn rev(&mut self, text: &str, rev: &RevId) {
        self.both(text, b" ");
        let _ = rev.print(&mut self.bytes);
    }

    /// Appends a text, and each revision after a blank.
    pub(super) fn revs(&mut self, text: &str, revs: &[RevId]) {
        self.put(text);
        for rev in revs {
            self.rev("", rev);
        }
    }
}

// A document: its id, `rev REV`, `deleted`, `path REV ..` and its members.
fn whole(doc: &Doc, out: &mut Out) {
    out.put(doc.id.as_str());
    if let Some(rev) = &doc.rev {
        out.rev(" rev", rev);
    }
    if doc.deleted {
        out.put(" deleted");
    }
    if let Some(path) = &doc.path {
        out.revs(" path", path.revisions());
    }
    out.both(" ", doc.body.as_bytes());
}

// The text of a document, the text of its copy, and a copy of its members, a line each.
fn written(alloc: Global, doc: &Doc, out: &mut Out) -> Result<(), DocFault> {
    let body = doc.body.copy(alloc)?;
    out.put("\n");
    doc.write(&mut out.bytes)?;
    out.put("\n");
    doc.copy(alloc)?.write(&mut out.bytes)?;
    out.both("\n", body.as_bytes());
    Ok(())
}

// The head of a path, the first two revisions of a copy, and a copied list of the revisions of another copy.
fn put_path(alloc: Global, path: &Path, out: &mut Out) -> Result<(), DocFault> {
    let front = path.copy(alloc)?.front(2);
    let list = Revisions::new(path.copy(alloc)?.into_revisions()).copy(alloc)?;
    out.rev("\nhead", &path.head());
    out.revs(" front", front.revisions());
    out.revs(" list", list.as_slice());
    Ok(())
}

/// Shows a document that was read.
pub(super) fn keep(
    alloc: Global,
    read: Result<Doc, DocFault>,
    out: &mut Out,
) -> Result<(), DocFault> {
    let doc = read?;
    whole(&doc, out);
    written(alloc, &doc, out)?;
    match &doc.path {
        Some(path) => put_path(alloc, path, out),
        None => Ok(()),
    }
}
