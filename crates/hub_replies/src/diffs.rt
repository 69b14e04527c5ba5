//! The revisions that a database misses, of those that were asked for.

ghost use Rattle.std.specs.Prelude.{◌≡◌, ◌++◌, IfOk, OnOk};
ghost use Rattle.json.specs.Print.{quoted};
ghost use Rattle.hub_model.specs.Revision.{text_of};
ghost use Rattle.hub_replies.specs.Bodies.{ancestors_text, diff_text, diffs_body};

use crate::texts::{Member, put_list, put_members};
use hub_database::Diff;
use hub_document::{RevId, put_quoted};
use std::alloc::{AllocError, Global};

impl Member for RevId {
    ghost text = { λ rev. quoted (text_of rev) };

    fn put(&self, out: &mut Vec<u8>) -> Result<(), AllocError> {
        self.print_quoted(out)
    }
}

// Appends the member `possible_ancestors`, where there are such leaves.
#[tactic(auto, unfolding(crate::specs::Bodies::ancestors_text))]
fn put_ancestors(out: &mut Vec<u8>, revs: &[RevId]) -> Result<(), AllocError>
    ensures { OnOk result (out.new.items ≡ out.old.items ++ ancestors_text revs.now) }
{
    if revs.is_empty() {
        return Ok(());
    }
    out.extend_from_slice(b",\"possible_ancestors\":")?;
    put_list(out, revs)?;
    Ok(())
}

// The member of a document has its id, its missing revisions and their possible ancestors.
impl Member for Diff {
    ghost text = { diff_text };

    fn put(&self, out: &mut Vec<u8>) -> Result<(), AllocError> {
        put_quoted(out, self.id.as_str())?;
        out.extend_from_slice(b":{\"missing\":")?;
        put_list(out, self.missing.as_slice())?;
        put_ancestors(out, self.possible_ancestors.as_slice())?;
        Ok(out.push(b'}')?)
    }
}

/// The revisions that each document misses, in the order given (CouchDB API reference,
/// `POST /{db}/_revs_diff`). `possible_ancestors` is left out where there is none. An id that is given twice
/// has two members. It costs the text's length.
#[tactic(auto, unfolding(crate::specs::Bodies::diffs_body))]
pub fn diffs_body(alloc: Global, diffs: &[Diff]) -> Result<Vec<u8>, AllocError>
    ensures { IfOk result (λ t. t.items ≡ diffs_body diffs.now) }
{
    let mut text = Vec::from_slice(alloc, b"{")?;
    put_members(&mut text, diffs)?;
    text.extend_from_slice(b"}\n")?;
    Ok(text)
}
