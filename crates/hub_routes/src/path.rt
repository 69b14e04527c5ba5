//! The parts of a target (RFC 3986, sections 2.1 and 3).

ghost use Rattle.std.specs.Prelude.{◌≡◌, ◌==◌, position, IfOk, OnErr};
ghost use Rattle.std.specs.Prelude.{Some, None, IfSome, IfNone, OnSome, codes};
ghost use Rattle.std.specs.List.{before_first, after_first};
ghost use Rattle.std.specs.Cow.{cow_str_bytes, cow_slice_items};
ghost use Rattle.std.specs.Str.{IsUtf8};
ghost use Rattle.percent_encoding.specs.Percent.{percent_decode};
ghost use Rattle.hub_document.specs.Ids.{is_id};
ghost use Rattle.hub_routes.specs.Paths.{name_part, id_part, is_local, HasPercent};

use percent_encoding::percent_decode;
use std::alloc::{AllocError, Global};
use std::borrow::{CowSlice, CowStr};
use std::str;

fn index_of(bytes: &[u8], at: u8) -> Option<usize>
    ensures { result ≡ position (λ b. b == at) bytes.now }
{
    bytes.iter().position(|b| *b == at)
}

/// The bytes before the first byte `at`, and the bytes behind it; all bytes and none where `at` is absent.
pub fn cut(bytes: &[u8], at: u8) -> (&[u8], &[u8])
    ensures before { result.0.now ≡ before_first (λ b. b == at) bytes.now }
    ensures after { result.1.now ≡ after_first (λ b. b == at) bytes.now }
{
    match index_of(bytes, at) {
        Some(i) => (&bytes[..i], &bytes[i + 1..]),
        None => (bytes, &[]),
    }
}

/// The part of a path that names the database, and the part behind its slash, as they were sent.
pub fn parts(path: &[u8]) -> (&[u8], &[u8])
    ensures name { result.0.now ≡ name_part path.now }
    ensures id { result.1.now ≡ id_part path.now }
{
    match path {
        [] => (path, path),
        [_, rest @ ..] => cut(rest, b'/'),
    }
}

/// The bytes of a part with its escapes read. A part without escapes is lent, and takes no memory. Another
/// part is one allocation.
pub fn decoded<'p>(alloc: Global, part: &'p [u8]) -> Result<CowSlice<'p, u8>, AllocError>
    ensures value { IfOk result (λ bytes. cow_slice_items bytes ≡ percent_decode part.now) }
    ensures memory { OnErr result (HasPercent part.now) }
{
    percent_decode(part).into_cow(alloc)
}

/// These bytes as a text; `None` where they are no UTF-8. It takes no memory.
pub fn text_of<'p>(bytes: CowSlice<'p, u8>) -> Option<CowStr<'p>>
    ensures value { IfSome result (λ s. cow_str_bytes s ≡ cow_slice_items bytes.entry) }
    ensures text { OnSome result (IsUtf8 (cow_slice_items bytes.entry)) }
    ensures none { IfNone result (¬ IsUtf8 (cow_slice_items bytes.entry)) }
{
    match bytes {
        CowSlice::Borrowed(bytes) => Some(CowStr::Borrowed(str::from_utf8(bytes).ok()?)),
        CowSlice::Owned(bytes) => Some(CowStr::Owned(String::from_utf8(bytes).ok()?)),
    }
}

/// Whether these bytes are the id of a document, of any length.
pub fn is_id(id: &[u8]) -> bool
    ensures { result ≡ is_id id.now }
{
    match id {
        [] => false,
        [b'_', ..] => id.starts_with(b"_design/") && id.len() > 8,
        _ => true,
    }
}

/// Whether these bytes are the id of a local document, of any length.
pub fn is_local(id: &[u8]) -> bool
    ensures { result ≡ is_local id.now }
{
    id.starts_with(b"_local/") && id.len() > 7
}
