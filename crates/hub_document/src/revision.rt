//! Revision ids.

mod digest;
mod digest_rev;

ghost use Rattle.std.specs.Prelude.{◌≡◌, ◌≤◌, ◌-◌, ◌<◌, ◌++◌, length};
ghost use Rattle.std.specs.Prelude.{replicate, option_map, IfSome, IfNone, OnOk, OnErr};
ghost use Rattle.std.specs.List.{list_all};
ghost use Rattle.json.specs.Print.{quoted};
ghost use Rattle.hub_model.specs.Revision.{IsRevision, text_of, is_hash_byte as is_letter};
ghost use Rattle.hub_model.specs.Revision.{is_same as is_same_revision};
ghost use Rattle.hub_document.specs.Appends.{Appends, AppendsWhole};
ghost use Rattle.hub_document.specs.RevisionLaws.{TextsRead, ReadsAreTexts};
ghost use Rattle.hub_document.specs.RevisionText.{number_of, is_hash as is_hash_text, with_hash, revision_of};

use crate::sequence::{put_before, put_bytes};
pub use digest_rev::DigestRev;
use itoa::{Buffer, write_digits};
use std::alloc::AllocError;
use std::marker::Model;

/// A revision id, `N-H`: the generation, 1 to 65,535, and a hash of 1 to 64 letters and digits (CouchDB API
/// reference, document revisions). The value is plain, and has 68 bytes.
#[derive(Clone, Copy, Debug, PartialEq, Eq)]
pub struct RevId {
    number: u16,
    len: u8,
    bytes: [u8; 64],
}

impl Model for RevId {
    ghost use Rattle.hub_model.specs.Revision.{Revision};

    ghost Value = { Revision };

    ghost use Rattle.hub_document.specs.Fields.{IsLaidOut};
    ghost use Rattle.hub_document.specs.Inside.{fields_of, revision_in, fields_of-revision_in};

    ghost view = { revision_in };

    ghost invariant = { λ r. IsLaidOut r.number r.len r.bytes };

    ghost inverse = { fields_of };

    ghost inverse_ok = { fields_of-revision_in };
}

impl RevId {
    /// How many edits lead to the revision, its own included.
    pub fn generation(&self) -> u16
        ensures value { result ≡ self.now.generation }
        ensures good { IsRevision self.now }
    {
        self.number
    }

    /// The hash, as ASCII bytes.
    pub fn hash(&self) -> &[u8]
        ensures { result.now ≡ self.now.hash }
    {
        &self.bytes[..self.len as usize]
    }

    /// Whether both are the same revision. No byte past the hashes is compared.
    pub fn is_same(&self, other: &RevId) -> bool
        ensures { result ≡ is_same_revision self.now other.now }
    {
        self.number == other.number && self.hash() == other.hash()
    }
}

// The bytes of the longest text in quotes: a number of 5 digits, a dash, a hash and two quotes.
const ROOM: usize = 72;

// The generation, and the bytes after its dash; None where no generation stands in front.
fn read_number(bytes: &[u8]) -> Option<(u16, &[u8])>
    ensures value { option_map (λ p. (p.0, p.1.now)) result ≡ number_of 0 bytes.now }
    ensures from_one { IfSome result (λ p. 1 ≤ p.0) }
{
    let mut number: u32 = 0;
    for (at, byte) in bytes.iter().enumerate() {
        if *byte == b'-' {
            if number == 0 {
                return None;
            }
            return Some((number as u16, &bytes[at + 1..]));
        }
        if *byte < b'0' || *byte > b'9' {
            return None;
        }
        number = 10 * number + u32::from(*byte - b'0');
        if number == 0 || number > 65535 {
            return None;
        }
    }
    None
}

fn are_letters(bytes: &[u8]) -> bool
    ensures { result ≡ list_all is_letter bytes.now }
{
    bytes
        .iter()
        .all(|b| matches!(*b, b'0'..=b'9' | b'A'..=b'Z' | b'a'..=b'z'))
}

fn is_hash(bytes: &[u8]) -> bool
    ensures { result ≡ is_hash_text bytes.now }
{
    1 <= bytes.len() && bytes.len() <= 64 && are_letters(bytes)
}

// The hash, and zeros after the hash.
fn padded(hash: &[u8]) -> [u8; 64]
    requires { length hash.now ≤ 64 }
    ensures { result ≡ hash.now ++ replicate (64 - length hash.now) 0 }
{
    let mut kept = [0u8; 64];
    kept[..hash.len()].copy_from_slice(hash);
    kept
}

impl RevId {
    ghost use Rattle.hub_model.specs.Revision.{Revision};

    /// The revision with this text; None where no revision has it. The cost is the text's length.
    pub fn read(text: &str) -> Option<RevId>
        ensures value { result ≡ revision_of text.now }
        ensures text { IfSome result (λ r. text_of r ≡ text.now) }
        ensures none { IfNone result ((r : Revision) → IsRevision r → text_of r ≡ text.now → ⊥) }
    {
        let bytes = text.as_bytes();
        let (number, hash) = read_number(bytes)?;
        RevId::from_parts(number, hash)
    }

    /// The revision of this generation and hash; None where the bytes are no hash.
    pub fn from_parts(generation: u16, hash: &[u8]) -> Option<RevId>
        requires { 1 ≤ generation }
        ensures { result ≡ with_hash generation hash.now }
    {
        if !is_hash(hash) {
            return None;
        }
        Some(RevId {
            number: generation,
            len: hash.len() as u8,
            bytes: padded(hash),
        })
    }

    /// Appends the revision's text. Out of memory, the vector stays as it was.
    pub fn print(&self, out: &mut Vec<u8>) -> Result<(), AllocError>
        ensures appends { AppendsWhole (text_of self.now) result out.old.items out.new.items }
        ensures good { IsRevision self.now }
    {
        let mut buffer = Buffer::new();
        let number = buffer.format(self.number).as_bytes();
        let hash = self.hash();
        out.try_reserve(number.len() + 1 + hash.len())?;
        out.extend_from_slice(number)?;
        out.push(b'-')?;
        out.extend_from_slice(hash)
    }

    /// Appends the revision's text as a JSON string. Out of memory, the vector keeps its old bytes, and a
    /// part of the string may follow them.
    pub fn print_quoted(&self, out: &mut Vec<u8>) -> Result<(), AllocError>
        ensures { Appends (quoted (text_of self.now)) result out.old.items out.new.items }
    {
        // The text is made from its end to its front, and appended once.
        let number = u64::from(self.generation());
        let mut text = [b'"'; ROOM];
        let hash_at = put_bytes(&mut text, ROOM - 1, self.hash());
        let dash_at = put_before(&mut text, hash_at, b'-');
        let number_at = write_digits(number, &mut text, dash_at);
        let at = put_before(&mut text, number_at, b'"');
        out.extend_from_slice(&text[at..])
    }

    /// Appends the hash as a JSON string. Out of memory, the vector is as after `print_quoted`.
    pub(crate) fn print_hash(&self, out: &mut Vec<u8>) -> Result<(), AllocError>
        ensures { Appends (quoted self.now.hash) result out.old.items out.new.items }
    {
        let hash = &self.bytes[..self.len as usize];
        out.push(b'"')?;
        out.extend_from_slice(hash)?;
        out.push(b'"')?;
        Ok(())
    }
}

/// Reading and printing undo each other: the text of each revision reads as that revision, and a text that
/// reads as a revision is that revision's text.
pub fn revision_texts()
    ensures reads { TextsRead }
    ensures prints { ReadsAreTexts }
{}
