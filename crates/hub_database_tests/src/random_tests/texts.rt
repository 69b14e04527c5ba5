//! Revisions, and documents as texts.

use hub_document::RevId;
use std::alloc::AllocError;
use std::fmt::Write;
use std::str;

/// The hash of a revision.
pub(super) fn hash_of(rev: &RevId) -> &str {
    str::from_utf8(rev.hash()).unwrap_or("no text")
}

// Writes the hashes of a history.
fn put_hashes(out: &mut String, line: &[RevId]) -> Result<(), AllocError> {
    let mut comma = "";
    for rev in line {
        write!(out, "{comma}\"{}\"", hash_of(rev))?;
        comma = ",";
    }
    Ok(())
}

// Writes a document's id, its revision and whether it is deleted.
fn put_head(out: &mut String, id: &str, head: &RevId, deleted: bool) -> Result<(), AllocError> {
    let (generation, hash) = (head.generation(), hash_of(head));
    write!(out, r#"{{"_id":"{id}","_rev":"{generation}-{hash}","#)?;
    out.push_str(if deleted { r#""_deleted":true,"# } else { "" })
}

/// Writes a document with this history, as databases show it.
pub(super) fn put_doc(
    out: &mut String,
    id: &str,
    line: &[RevId],
    deleted: bool,
    members: &str,
) -> Result<(), AllocError> {
    let Some(head) = line.first() else {
        return Ok(());
    };
    put_head(out, id, head, deleted)?;
    write!(
        out,
        r#""_revisions":{{"start":{},"ids":["#,
        head.generation()
    )?;
    put_hashes(out, line)?;
    out.push_str("]},")?;
    out.push_str(members)
}
