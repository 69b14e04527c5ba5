//! The fields of a head.

use httparse::spans::HeaderSpan;
use std::marker::Model;

/// The fields of a head, in the bytes that they lie in. A contract sees the name and the value of each field.
#[derive(Drop)]
pub(crate) struct Fields<'a> {
    pub(crate) buf: &'a [u8],
    pub(crate) headers: &'a [HeaderSpan],
}

impl<'a> Model for Fields<'a> {
    ghost use Rattle.std.specs.Prelude.{ℕ, List, All, length, map};
    ghost use Rattle.httparse.specs.Spans.{IsHeaderWithin, header_bytes};

    ghost Value = { List (List ℕ × List ℕ) };

    ghost view = { λ f. map (header_bytes f.buf.now) f.headers.now };

    ghost invariant = { λ f. All (IsHeaderWithin (length f.buf.now)) f.headers.now };
}
