//! Revisions of one document that are asked for.

ghost use Rattle.std.specs.Prelude.{◌≡◌, IfOk, IfErr, is_some, false, codes, option_map};
ghost use Rattle.std.specs.Str.{bytes_eq};
ghost use Rattle.serde_json.specs.View.{view, items_view};
ghost use Rattle.hub_document.specs.Asking.{open_revs_in, revs_of as revs_of_items, revs_in as revs_in_value};
ghost use Rattle.hub_document.specs.Histories.{rev_in as rev_in_value};
ghost use Rattle.hub_document.specs.Read.{json_of as json_in};

use crate::doc::DocFault;
use crate::read::read_value;
use crate::revision::RevId;
use crate::revisions::Revisions;
use serde_json::Value;
use std::alloc::{AllocError, Global};

/// Which revisions of a document are asked for (CouchDB API reference, documents, `open_revs`).
#[derive(Debug, Drop)]
pub enum OpenRevs {
    /// Every leaf.
    All,
    /// The listed revisions, in this order.
    Listed(Revisions),
}

impl OpenRevs {
    /// The revisions that a value of `open_revs` asks for: `all`, or a JSON array of revisions. None is a
    /// fault. The cost is the text's length. `all` takes no memory. Any other text is parsed, so an error may
    /// come in place of a fault.
    pub fn read(alloc: Global, text: &str) -> Result<Option<OpenRevs>, AllocError>
        ensures value { IfOk result (λ o. o ≡ open_revs_in text.now) }
        ensures memory { IfErr result (λ _. bytes_eq text.now (codes "all") ≡ false) }
    {
        if text == "all" {
            return Ok(Some(OpenRevs::All));
        }
        let Some(value) = json_of(alloc, text)? else {
            return Ok(None);
        };
        let revs = revs_in(alloc, &value)?;
        Ok(revs.map(OpenRevs::Listed))
    }
}

// The JSON value of a text; None where the text is no JSON.
fn json_of(alloc: Global, text: &str) -> Result<Option<Value>, AllocError>
    ensures { IfOk result (λ o. option_map view o ≡ json_in text.now) }
{
    match read_value(alloc, text.as_bytes()) {
        Ok(value) => Ok(Some(value)),
        Err(DocFault::NotJson) => Ok(None),
        Err(_) => Err(AllocError),
    }
}

// The revision whose text a JSON string is; None of any other value.
fn rev_in(value: &Value) -> Option<RevId>
    ensures { result ≡ rev_in_value (view value.now) }
{
    let text = value.as_str()?;
    RevId::read(text)
}

// Whether each item of an array is the text of a revision.
fn write_revs(items: &Vec<Value>) -> bool
    ensures { result ≡ is_some (revs_of_items (items_view items.now.items)) }
{
    for item in items {
        if rev_in(item).is_none() {
            return false;
        }
    }
    true
}

// The revisions of an array's items; None where an item is no revision's text.
fn revs_of(alloc: Global, items: &Vec<Value>) -> Result<Option<Revisions>, AllocError>
    ensures { IfOk result (λ o. o ≡ revs_of_items (items_view items.now.items)) }
{
    let mut list = Vec::new(alloc);
    for item in items {
        let Some(rev) = rev_in(item) else {
            return Ok(None);
        };
        list.push(rev)?;
    }
    Ok(Some(Revisions::new(list)))
}

/// The revisions of a value; None where it is no array of revisions. The cost is the value's size.
pub(crate) fn revs_in(alloc: Global, value: &Value) -> Result<Option<Revisions>, AllocError>
    ensures { IfOk result (λ o. o ≡ revs_in_value (view value.now)) }
{
    match value.as_array() {
        Some(items) => revs_of(alloc, items),
        None => Ok(None),
    }
}

/// Whether a value is an array of revisions. The call takes no memory.
pub(crate) fn are_revs(value: &Value) -> bool
    ensures { result ≡ is_some (revs_in_value (view value.now)) }
{
    match value.as_array() {
        Some(items) => write_revs(items),
        None => false,
    }
}
