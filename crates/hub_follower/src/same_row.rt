//! Whether two rows of changes are the same.

ghost use Rattle.std.specs.Prelude.{◌≡◌};
ghost use Rattle.std.specs.List.{list_any};
ghost use Rattle.hub_follower.specs.Handed.{same_doc, same_revs, same_row};

use hub_document::{Body, ChangeRow, Changes};

// Whether two lists of revisions are the same.
fn same_revs(revs: &Changes, others: &Changes) -> bool
    ensures { result ≡ same_revs revs.now others.now }
{
    if revs.len() != others.len() {
        return false;
    }
    for at in 0..revs.len() {
        let (Some(rev), Some(other)) = (revs.get(at), others.get(at)) else {
            return false;
        };
        if !rev.is_same(&other) {
            return false;
        }
    }
    true
}

// Whether the members of two rows are the same.
fn same_doc(doc: &Option<Body>, other: &Option<Body>) -> bool
    ensures { result ≡ same_doc doc.now other.now }
{
    match (doc, other) {
        (None, None) => true,
        (Some(body), Some(other)) => body.as_bytes() == other.as_bytes(),
        (None, Some(_)) => false,
        (Some(_), None) => false,
    }
}

// Whether two rows are the same, in each member.
fn same_row(row: &ChangeRow, other: &ChangeRow) -> bool
    ensures { result ≡ same_row row.now other.now }
{
    row.seq == other.seq
        && row.seen == other.seen
        && row.deleted == other.deleted
        && row.id.as_str() == other.id.as_str()
        && same_revs(&row.changes, &other.changes)
        && same_doc(&row.doc, &other.doc)
}

/// Whether a row is the same as one of these.
pub(crate) fn has_row(rows: &[ChangeRow], row: &ChangeRow) -> bool
    ensures { result ≡ list_any (same_row row.now) rows.now }
{
    for other in rows {
        if same_row(row, other) {
            return true;
        }
    }
    false
}
