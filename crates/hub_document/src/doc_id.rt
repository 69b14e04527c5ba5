//! The ids of documents.

ghost use Rattle.std.specs.Prelude.{◌≡◌, true, codes, IfOk, IfErr, IfSome, IsSome, option_map, string_bytes};
ghost use Rattle.serde_json.specs.View.{view};
ghost use Rattle.serde_json.specs.Find.{get};
ghost use Rattle.hub_document.specs.Local.{is_named_so as is_named_as};
ghost use Rattle.hub_document.specs.Ids.{IsDocId, is_id as is_id_text, id_of as id_in, short_id};
ghost use Rattle.hub_document.specs.IdForm.{bytes_in};

use arrayvec::ArrayString;
use serde_json::Value;
use std::alloc::{AllocError, Global};
use std::marker::Model;
use std::mem::size_of;
use std::sync::Arc;

// How an id is kept.
#[derive(Debug, Drop)]
enum Form {
    // An id of at most 16 bytes, in the value itself.
    Inline(ArrayString<16>),
    // An id of 17 to 32 bytes, which is most ids, in a piece of memory that its copies share.
    Shared(Arc<ArrayString<32>, Global>),
    // A longer id: the piece that its copies share holds a string, whose text has memory of its own.
    Long(Arc<String, Global>),
}

/// A document's id, seen as its bytes: 1 to 512 bytes of UTF-8. An id that begins with `_` is `_design/` and
/// a name. The value takes 32 bytes, and an id of at most 16 bytes takes no other memory. Copies of a longer
/// id share its text, so no copy takes memory.
#[derive(Debug)]
pub struct DocId {
    form: Form,
}

impl Drop for DocId {
    fn drop(self) {
        let Self { form } = self;
    }
}

const _: () = prove!(size_of::<DocId>() == 32);

impl Model for DocId {
    ghost use Rattle.std.specs.Prelude.{List, ℕ};
    ghost use Rattle.hub_document.specs.IdForm.{bytes_in};

    ghost Value = { List ℕ };

    ghost view = { λ a. bytes_in a.form };

    ghost use Rattle.hub_document.specs.Ids.{IsDocId};

    ghost invariant = { λ a. IsDocId (bytes_in a.form) };
}

impl DocId {
    /// The text as an id; None where no document can have it. The cost is the text's length. Memory is taken
    /// only for an id of more than 16 bytes.
    pub fn read(alloc: Global, text: &str) -> Result<Option<DocId>, AllocError>
        ensures value { IfOk result (λ o. o ≡ short_id text.now) }
        ensures memory { IfErr result (λ _. IsSome (short_id text.now)) }
    {
        if !is_id(text) || text.len() > 512 {
            return Ok(None);
        }
        let id = DocId::copied(alloc, text)?;
        Ok(Some(id))
    }

    /// This text, which is an id, as a value. The cost is the text's length.
    pub(crate) fn copied(alloc: Global, text: &str) -> Result<DocId, AllocError>
        requires { IsDocId text.now }
        ensures { IfOk result (λ i. i ≡ text.now) }
    {
        let form = if let Ok(short) = ArrayString::from(text) {
            Form::Inline(short)
        } else if let Ok(text) = ArrayString::from(text) {
            Form::Shared(Arc::new(alloc, text)?)
        } else {
            Form::Long(Arc::new(alloc, String::from_str(alloc, text)?)?)
        };
        Ok(DocId { form })
    }

    /// The id's text. Constant time.
    pub fn as_str(&self) -> &str
        ensures value { result.now ≡ self.now }
        ensures good { IsDocId self.now }
    {
        match &self.form {
            Form::Inline(text) => text.as_str(),
            Form::Shared(text) => text.as_str(),
            Form::Long(text) => text.as_str(),
        }
    }

    /// A copy of the id's text. The cost is the text's length.
    pub fn to_text(&self, alloc: Global) -> Result<String, AllocError>
        ensures { IfOk result (λ text. string_bytes text ≡ self.now) }
    {
        String::from_str(alloc, self.as_str())
    }

    /// A copy, which shares a text of more than 16 bytes. Constant time, and no memory: an error would take
    /// 2^64 copies at once.
    pub fn copy(&self) -> Result<DocId, AllocError>
        ensures { IfOk result (λ i. i ≡ self.now) }
    {
        let form = match &self.form {
            Form::Inline(text) => Form::Inline(*text),
            Form::Shared(text) => Form::Shared(text.clone()?),
            Form::Long(text) => Form::Long(text.clone()?),
        };
        Ok(DocId { form })
    }
}

pub(crate) fn is_id(text: &str) -> bool
    ensures { result ≡ is_id_text text.now }
{
    let bytes = text.as_bytes();
    if bytes.is_empty() {
        return false;
    }
    if bytes[0] != b'_' {
        return true;
    }
    bytes[1..].starts_with(b"design/") && bytes.len() > 8
}

/// Whether `_id` is absent or this id.
pub(crate) fn is_named_so(id: &str, value: &Value) -> bool
    ensures { result ≡ is_named_as id.now (get (codes "_id") (view value.now)) }
{
    match value.get("_id") {
        Some(named) => named.as_str().is_some_and(|text| id == text),
        None => true,
    }
}

/// The text of `_id`, where it is an id of any length.
pub(crate) fn id_of(value: &Value) -> Option<&str>
    ensures value { option_map (λ s. s.now) result ≡ id_in (view value.now) }
    ensures good { IfSome result (λ s. is_id_text s.now ≡ true) }
{
    let text = value.get("_id").and_then(Value::as_str)?;
    if is_id(text) { Some(text) } else { None }
}
