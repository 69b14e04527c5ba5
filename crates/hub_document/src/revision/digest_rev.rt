//! Revisions whose hashes are digests, in little memory.

ghost use Rattle.std.specs.Prelude.{◌≡◌, ◌≤◌, ◌<◌, codes};
ghost use Rattle.hex.specs.Hex.{encode_lower};
ghost use Rattle.json.specs.Print.{quoted};
ghost use Rattle.hub_model.specs.Revision.{text_of};
ghost use Rattle.hub_document.specs.Appends.{Appends};

use crate::revision::RevId;
use crate::revision::digest::write_digits;
use std::alloc::AllocError;
use std::marker::Model;

/// A revision whose hash is a digest's text: 16 bytes in lower-case hexadecimal digits. Each revision that is
/// made here has this form. The value takes 18 bytes.
#[derive(Debug, Drop)]
pub struct DigestRev {
    generation: u16,
    digest: [u8; 16],
}

impl Model for DigestRev {
    ghost use Rattle.std.specs.Prelude.{◌≤◌};
    ghost use Rattle.hub_model.specs.Revision.{Revision};
    ghost use Rattle.hex.specs.Hex.{encode_lower};

    ghost Value = { Revision };

    ghost view = { λ a. record { generation = a.generation; hash = encode_lower a.digest } };

    ghost invariant = { λ a. 1 ≤ a.generation };
}

// Writes the JSON string of the revision with this digest and a generation of one digit over a string of the
// same length. The digest is copied first: so no write into the string can change it, and the digits are made
// together.
#[inline(always)]
fn fill_short(text: &mut [u8], generation: u16, digest: &[u8; 16])
    requires short { (1 ≤ generation) × (generation < 10) }
    requires form { text.old ≡ codes "\"0-................................\"" }
    ensures { text.new ≡ quoted (text_of (record {
      generation = generation;
      hash = encode_lower digest.now;
    })) }
{
    let bytes = *digest;
    text[1] = b'0' + generation as u8;
    write_digits(&mut text[3..35], &bytes);
}

impl DigestRev {
    /// The revision of this generation and digest. Constant time.
    pub fn new(generation: u16, digest: [u8; 16]) -> DigestRev
        requires { 1 ≤ generation }
        ensures { result ≡ record { generation = generation; hash = encode_lower digest } }
    {
        DigestRev { generation, digest }
    }

    /// How many edits lead to the revision, its own included.
    pub fn generation(&self) -> u16
        ensures value { result ≡ self.now.generation }
        ensures positive { 1 ≤ result }
    {
        self.generation
    }

    /// The digest whose text is the hash.
    pub fn digest(&self) -> [u8; 16]
        ensures { self.now.hash ≡ encode_lower result }
    {
        self.digest
    }

    /// A copy. Constant time.
    pub fn copy(&self) -> DigestRev
        ensures { result ≡ self.now }
    {
        DigestRev {
            generation: self.generation,
            digest: self.digest,
        }
    }

    /// The revision with its hash as text. Constant time.
    pub fn rev(&self) -> RevId
        ensures { result ≡ self.now }
    {
        RevId::from_digest(self.generation, &self.digest)
    }

    /// Writes the revision's text as a JSON string over a string of the same length, which ends alike. So a row of
    /// changes is appended with room for the text, and no text is copied. Constant time.
    #[inline(always)]
    pub fn write_short(&self, text: &mut [u8])
        requires short { self.now.generation < 10 }
        requires form { text.old ≡ codes "\"0-................................\"" }
        ensures { text.new ≡ quoted (text_of self.now) }
    {
        fill_short(text, self.generation, &self.digest);
    }

    /// Appends the revision's text as a JSON string. Out of memory, the vector keeps its old bytes, and a
    /// part of the string may follow them.
    pub fn print_quoted(&self, out: &mut Vec<u8>) -> Result<(), AllocError>
        ensures { Appends (quoted (text_of self.now)) result out.old.items out.new.items }
    {
        if self.generation >= 10 {
            return self.rev().print_quoted(out);
        }
        let mut text = *b"\"0-................................\"";
        self.write_short(&mut text);
        out.extend_from_slice(text.as_slice())
    }
}
