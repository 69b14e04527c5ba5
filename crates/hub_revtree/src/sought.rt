//! Revisions that are looked for.

ghost use Rattle.std.specs.Prelude.{◌≡◌};
ghost use Rattle.std.specs.Str.{bytes_eq};
ghost use Rattle.hex.specs.Hex.{encode_lower};
ghost use Rattle.hub_revtree.specs.Sought.{IsFormOf};

use hub_document::RevId;
use std::marker::Model;

// The number of looks from which on a digest is made: making it takes about as long as so many without it.
const MANY: usize = 16;

// The digest that is made of a hash for many looks.
#[derive(Drop)]
enum Form {
    // The digest whose text the hash is.
    Digest([u8; 16]),
    // The hash is no digest's text.
    Other,
    // No digest is made of the hash.
    Unmade,
}

/// A revision that is looked for. For many looks its digest is made once, and each look compares 16 bytes.
/// For few looks no digest is made, and each compares the hexadecimal digits.
#[derive(Drop)]
pub(crate) struct Sought<'a> {
    rev: &'a RevId,
    form: Form,
}

impl<'a> Model for Sought<'a> {
    ghost use Rattle.hub_model.specs.Revision.{Revision};
    ghost use Rattle.hub_revtree.specs.Sought.{IsFormOf};

    ghost Value = { Revision };

    ghost view = { λ a. a.rev.now };

    ghost invariant = { λ a. IsFormOf a.form a.rev.now.hash };
}

// The form of the revision's hash for many looks.
fn form_of(rev: &RevId) -> Form
    ensures { IsFormOf result rev.now.hash }
{
    match rev.digest() {
        Some(digest) => Form::Digest(digest),
        None => Form::Other,
    }
}

impl<'a> Sought<'a> {
    /// The revision, for this number of looks. Where that is a constant below `MANY`, this costs nothing.
    #[inline(always)]
    pub(crate) fn among(rev: &'a RevId, looks: usize) -> Sought<'a>
        ensures { result ≡ rev.now }
    {
        if looks < MANY {
            return Sought {
                rev,
                form: Form::Unmade,
            };
        }
        Sought {
            rev,
            form: form_of(rev),
        }
    }

    /// The revision itself.
    pub(crate) fn rev(&self) -> &'a RevId
        ensures { result.now ≡ self.now }
    {
        self.rev
    }

    /// Whether the revision's hash is the hexadecimal text of the digest, in lower-case digits.
    pub(crate) fn has_digest(&self, digest: &[u8; 16]) -> bool
        ensures { result ≡ bytes_eq self.now.hash (encode_lower digest.now) }
    {
        match &self.form {
            Form::Digest(own) => u128::from_le_bytes(*own) == u128::from_le_bytes(*digest),
            Form::Other => false,
            Form::Unmade => self.rev.has_digest(digest),
        }
    }
}
