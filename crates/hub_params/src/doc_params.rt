//! The parameters of a document's routes.

ghost use Rattle.std.specs.Prelude.{◌≡◌, IfOk, OnErr, option_map, string_bytes};
ghost use Rattle.std.specs.Cow.{cow_str_bytes};
ghost use Rattle.std.specs.Option.{option_copied};
ghost use Rattle.hub_params.specs.DocParams.{doc_asked, is_value};
ghost use Rattle.hub_params.specs.Encoded.{decoded_text};
ghost use Rattle.hub_params.specs.Room.{DocNeedsRoom, HasBytes, IsEscaped};

use crate::query::{read_written, value_of};
use std::alloc::{AllocError, Global};
use std::borrow::CowStr;
use std::marker::Model;

/// The parameters in the query of a document's route (CouchDB API reference, documents).
#[derive(Debug, Drop)]
pub struct DocParams {
    /// The value of `rev`, decoded.
    pub rev: Option<String>,
    /// The value of `open_revs`, decoded.
    pub open_revs: Option<String>,
    /// Whether `revs` is `true`: documents are shown with their histories.
    pub revs: bool,
    /// False where `new_edits` is `false`, else true.
    pub new_edits: bool,
}

impl Model for DocParams {
    ghost use Rattle.std.specs.Prelude.{option_map, string_bytes};
    ghost use Rattle.hub_params.specs.DocParams.{DocAsked};

    ghost Value = { DocAsked };

    ghost view = { λ a. record {
      rev = option_map string_bytes a.rev;
      open_revs = option_map string_bytes a.open_revs;
      revs = a.revs;
      new_edits = a.new_edits;
    } };
}

impl DocParams {
    /// The parameters of a query. Names and values are compared decoded, and of a repeated name the last
    /// value counts. The cost is the query's length, and for each of its pairs a comparison with each of the
    /// four names. Memory is taken for escaped names and values, and for `rev` and `open_revs`.
    pub fn read(alloc: Global, query: &[u8]) -> Result<DocParams, AllocError>
        ensures asked { IfOk result (λ p. p ≡ doc_asked query.now) }
        ensures memory { OnErr result (DocNeedsRoom query.now) }
    {
        let mut written = [None; 4];
        read_written(
            alloc,
            query,
            &["revs", "new_edits", "rev", "open_revs"],
            &mut written,
        )?;
        let [revs, new_edits, rev, open_revs] = written;
        let revs = is_written(alloc, revs, "true")?;
        let keeps_revs = is_written(alloc, new_edits, "false")?;
        let rev = text(alloc, rev)?;
        let open_revs = text(alloc, open_revs)?;
        Ok(DocParams {
            rev,
            open_revs,
            revs,
            new_edits: !keeps_revs,
        })
    }
}

// A written value, decoded, as a text of its own. An empty value takes no memory.
fn text(alloc: Global, written: Option<&[u8]>) -> Result<Option<String>, AllocError>
    ensures text { IfOk result
        (λ t. option_map string_bytes t ≡ option_map decoded_text (option_copied written.entry)) }
    ensures memory { OnErr result (HasBytes (option_copied written.entry)) }
{
    match value_of(alloc, written)? {
        None => Ok(None),
        Some(CowStr::Owned(own)) => Ok(Some(own)),
        Some(CowStr::Borrowed(borrowed)) => {
            let mut own = String::new(alloc);
            own.push_str(borrowed)?;
            Ok(Some(own))
        }
    }
}

// Whether there is a written value, and its decoded text is `wanted`.
fn is_written(alloc: Global, written: Option<&[u8]>, wanted: &str) -> Result<bool, AllocError>
    ensures value { IfOk result
        (λ b. b ≡ is_value wanted.now (option_map decoded_text (option_copied written.entry))) }
    ensures memory { OnErr result (IsEscaped (option_copied written.entry)) }
{
    let found = value_of(alloc, written)?;
    Ok(is_text(&found, wanted))
}

// Whether there is a value, and its text is `wanted`.
fn is_text(value: &Option<CowStr<'_>>, wanted: &str) -> bool
    ensures { result ≡ is_value wanted.now (option_map cow_str_bytes value.now) }
{
    matches!(value, Some(found) if found.as_str() == wanted)
}
