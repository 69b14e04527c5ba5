//! The JSON texts of documents, appended to a vector part by part.

ghost use Rattle.std.specs.Prelude.{◌≡◌, Some};
ghost use Rattle.json.specs.Print.{quoted};
ghost use Rattle.hub_document.specs.Appends.{Appends};
ghost use Rattle.hub_document.specs.DocText.{rev_member, deleted_member, history_member};
ghost use Rattle.hub_document.specs.Joined.{after_commas, head_text, ids_text, count_text};

use crate::path::Path;
use crate::plain::is_plain;
use crate::revision::{DigestRev, RevId};
use itoa::Buffer;
use json::Writer;
use std::alloc::AllocError;
use std::mem;

/// Appends the JSON string of a text. Out of memory, the vector keeps its old bytes, and a part of the string
/// may follow them; so it is with each function here. The cost is the text's length, and nothing else is
/// copied.
pub fn put_quoted(out: &mut Vec<u8>, text: &str) -> Result<(), AllocError>
    ensures { Appends (quoted text.now) result out.old.items out.new.items }
{
    if !is_plain(text.as_bytes()) {
        let alloc = *out.allocator();
        let mut writer = Writer::new(mem::replace(out, Vec::new(alloc)));
        let done = writer.string(text);
        *out = writer.into_inner();
        return done;
    }
    out.push(b'"')?;
    out.extend_from_slice(text.as_bytes())?;
    out.push(b'"')?;
    Ok(())
}

// Appends the brace and the member `_id`.
pub(crate) fn put_head(out: &mut Vec<u8>, id: &str) -> Result<(), AllocError>
    ensures { Appends (head_text id.now) result out.old.items out.new.items }
{
    out.extend_from_slice(b"{\"_id\":")?;
    put_quoted(out, id)?;
    Ok(())
}

pub(crate) fn put_rev(out: &mut Vec<u8>, rev: &Option<RevId>) -> Result<(), AllocError>
    ensures { Appends (after_commas (rev_member rev.now)) result out.old.items out.new.items }
{
    let Some(rev) = rev else {
        return Ok(());
    };
    out.extend_from_slice(b",\"_rev\":")?;
    rev.print_quoted(out)?;
    Ok(())
}

// As `put_rev`, for a revision whose hash is a digest's text.
pub(crate) fn put_digest_rev(out: &mut Vec<u8>, rev: &DigestRev) -> Result<(), AllocError>
    ensures { Appends (after_commas (rev_member (Some rev.now))) result out.old.items out.new.items }
{
    out.extend_from_slice(b",\"_rev\":")?;
    rev.print_quoted(out)?;
    Ok(())
}

pub(crate) fn put_deleted(out: &mut Vec<u8>, deleted: bool) -> Result<(), AllocError>
    ensures { Appends (after_commas (deleted_member deleted)) result out.old.items out.new.items }
{
    if deleted {
        out.extend_from_slice(b",\"_deleted\":true")?;
    }
    Ok(())
}

// Appends the hashes, each as a JSON string, with commas between them.
fn put_hashes(out: &mut Vec<u8>, revisions: &[RevId]) -> Result<(), AllocError>
    ensures { Appends (ids_text revisions.now) result out.old.items out.new.items }
{
    let Some((first, rest)) = revisions.split_first() else {
        return Ok(());
    };
    first.print_hash(out)?;
    for rev in rest {
        out.push(b',')?;
        rev.print_hash(out)?;
    }
    Ok(())
}

pub(crate) fn put_path(out: &mut Vec<u8>, path: &Option<Path>) -> Result<(), AllocError>
    ensures { Appends (after_commas (history_member path.now)) result out.old.items out.new.items }
{
    let Some(path) = path else {
        return Ok(());
    };
    let mut number = Buffer::new();
    out.extend_from_slice(b",\"_revisions\":{\"start\":")?;
    out.extend_from_slice(number.format(path.head().generation()).as_bytes())?;
    out.extend_from_slice(b",\"ids\":[")?;
    put_hashes(out, path.revisions())?;
    out.extend_from_slice(b"]}")?;
    Ok(())
}

// Appends the member `_rev` of a local document.
pub(crate) fn put_count(out: &mut Vec<u8>, count: u64) -> Result<(), AllocError>
    ensures { Appends (count_text count) result out.old.items out.new.items }
{
    let mut number = Buffer::new();
    out.extend_from_slice(b",\"_rev\":\"0-")?;
    out.extend_from_slice(number.format(count).as_bytes())?;
    out.extend_from_slice(b"\"")?;
    Ok(())
}
