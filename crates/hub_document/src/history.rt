//! The revision and the history that a document's members name.

ghost use Rattle.std.specs.Prelude.{◌≡◌, IfOk, IfSome, IfNone, None, is_some, option_map};
ghost use Rattle.serde_json.specs.View.{view, items_view};
ghost use Rattle.hub_document.specs.Histories.{rev_of as rev_in, hashed_at, falling};
ghost use Rattle.hub_document.specs.Histories.{history_in, is_head as is_head_of};
ghost use Rattle.hub_document.specs.Histories.{alone as alone_of, path_of as path_in};

use crate::path::Path;
use crate::revision::RevId;
use serde_json::Value;
use std::alloc::{AllocError, Global};

/// The revision that `_rev` names; `Some(None)` where none is named. None is a fault: `_rev` is no revision,
/// or it is absent, `new_edits` is false and there is no `_revisions`.
pub(crate) fn rev_of(value: &Value, new_edits: bool) -> Option<Option<RevId>>
    ensures { result ≡ rev_in new_edits (view value.now) }
{
    let Some(rev) = value.get("_rev") else {
        if new_edits || value.get("_revisions").is_some() {
            return Some(None);
        }
        return None;
    };
    let text = rev.as_str()?;
    let rev = RevId::read(text)?;
    Some(Some(rev))
}

// The revision of the generation `left` whose hash is the item's text. None is a fault: the item is no hash,
// or `left` is 0.
fn fallen(left: u16, id: &Value) -> Option<RevId>
    ensures { result ≡ hashed_at left (view id.now) }
{
    if left == 0 {
        return None;
    }
    let hash = id.as_str()?;
    RevId::from_parts(left, hash.as_bytes())
}

// Whether the items are hashes of the generations `start`, `start - 1` and so on, none of them 0.
fn is_falling(start: u16, ids: &Vec<Value>) -> bool
    ensures { result ≡ is_some (falling start (items_view ids.now.items)) }
{
    let mut left = start;
    for id in ids {
        if fallen(left, id).is_none() {
            return false;
        }
        left -= 1;
    }
    true
}

// The revisions of these hashes, with the generations `start`, `start - 1` and so on. None is a fault.
fn falling_from(
    alloc: Global,
    start: u16,
    ids: &Vec<Value>,
) -> Result<Option<Vec<RevId>>, AllocError>
    ensures { IfOk result (λ o. option_map (λ v. v.items) o
        ≡ falling start (items_view ids.now.items)) }
{
    let mut revisions = Vec::new(alloc);
    let mut left = start;
    for id in ids {
        let Some(rev) = fallen(left, id) else {
            return Ok(None);
        };
        revisions.push(rev)?;
        left -= 1;
    }
    Ok(Some(revisions))
}

// The first generation (`start`, 1 to 65,535) and the items (`ids`, at least one) of `_revisions`. None is a
// fault. Whether the items are hashes is not looked at.
fn start_of(history: &Value) -> Option<(u16, &Vec<Value>)>
    ensures some { IfSome result
        (λ p. falling p.0 (items_view p.1.now.items) ≡ history_in (view history.now)) }
    ensures none { IfNone result (history_in (view history.now) ≡ None) }
{
    let start = history.get("start").and_then(Value::as_u64)?;
    let ids = history.get("ids").and_then(Value::as_array)?;
    if ids.is_empty() || start == 0 || start > 65535 {
        return None;
    }
    Some((start as u16, ids))
}

// Whether the history begins with this revision; true where no revision is named.
fn is_head(rev: Option<RevId>, revisions: &[RevId]) -> bool
    ensures { result ≡ is_head_of rev revisions.now }
{
    let Some(r) = rev else {
        return true;
    };
    match revisions {
        [] => false,
        [first, ..] => r.is_same(first),
    }
}

// The history of a revision that comes without one: the revision alone. None where no revision is named.
fn alone(alloc: Global, rev: Option<RevId>) -> Result<Option<Path>, AllocError>
    ensures { IfOk result (λ o. o ≡ alone_of rev) }
{
    let Some(r) = rev else {
        return Ok(None);
    };
    Ok(Some(Path::new(Vec::from_slice(alloc, &[r])?)))
}

// Whether the history of these hashes begins with the revision; true where no revision is named.
fn begins_with(rev: Option<RevId>, start: u16, ids: &Vec<Value>) -> bool
    ensures { IfSome (falling start (items_view ids.now.items)) (λ path. result ≡ is_head_of rev path) }
{
    match ids.first().and_then(|id| fallen(start, id)) {
        Some(first) => is_head(rev, &[first]),
        None => rev.is_none(),
    }
}

/// The path of an edit that another database made. None is a fault. The cost is the history's length.
pub(crate) fn path_of(
    alloc: Global,
    rev: Option<RevId>,
    value: &Value,
) -> Result<Option<Path>, AllocError>
    ensures { IfOk result (λ o. o ≡ path_in rev (view value.now)) }
{
    let Some(history) = value.get("_revisions") else {
        return alone(alloc, rev);
    };
    let Some((start, ids)) = start_of(history) else {
        return Ok(None);
    };
    let Some(revisions) = falling_from(alloc, start, ids)? else {
        return Ok(None);
    };
    if is_head(rev, revisions.as_slice()) {
        Ok(Some(Path::new(revisions)))
    } else {
        Ok(None)
    }
}

/// Whether `path_of` gives a path for this value. The call takes no memory, and costs the history's length.
pub(crate) fn is_path(rev: Option<RevId>, value: &Value) -> bool
    ensures { result ≡ is_some (path_in rev (view value.now)) }
{
    let Some(history) = value.get("_revisions") else {
        return rev.is_some();
    };
    match start_of(history) {
        Some((start, ids)) => is_falling(start, ids) && begins_with(rev, start, ids),
        None => false,
    }
}
