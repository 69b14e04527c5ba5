//! The texts of sequences.

ghost use Rattle.std.specs.Prelude.{◌≡◌, ◌+◌, ◌<◌, ◌≤◌, ◌∷◌, ◌++◌, length, drop};
ghost use Rattle.hub_document.specs.Appends.{Appends};
ghost use Rattle.hub_document.specs.SequenceText.{sequence_text};

use itoa::write_digits;
use std::alloc::AllocError;

// The bytes of the longest text: two numbers of 20 digits, two quotes and a dash.
const ROOM: usize = 43;

/// Writes the bytes directly in front of the place `end`, and returns the place of the first one.
pub(crate) fn put_bytes(text: &mut [u8], end: usize, bytes: &[u8]) -> usize
    requires { (length bytes.now ≤ end) × (end ≤ length text.old) }
    ensures start { result + length bytes.now ≡ end }
    ensures written { drop result text.new ≡ bytes.now ++ drop end text.old }
{
    let at = end - bytes.len();
    text[at..end].copy_from_slice(bytes);
    at
}

/// Writes the byte directly in front of the place `end`, and returns the byte's place.
pub(crate) fn put_before(text: &mut [u8], end: usize, byte: u8) -> usize
    requires { (0 < end) × (end ≤ length text.old) }
    ensures start { result + 1 ≡ end }
    ensures written { drop result text.new ≡ byte ∷ drop end text.old }
{
    text[end - 1] = byte;
    end - 1
}

/// Appends a sequence with the number of its life as a JSON string: sequence 12 of life 3 is `"12-3"`. Out of
/// memory, the vector keeps its old bytes, and a part of the string may follow them.
#[tactic(auto, unfolding(crate::specs::SequenceText::sequence_text))]
pub fn put_sequence(out: &mut Vec<u8>, seq: u64, life: u64) -> Result<(), AllocError>
    ensures { Appends (sequence_text seq life) result out.old.items out.new.items }
{
    // The text is made from its end to its front.
    let mut text = [b'"'; ROOM];
    let life_at = write_digits(life, &mut text, ROOM - 1);
    let dash_at = put_before(&mut text, life_at, b'-');
    let seq_at = write_digits(seq, &mut text, dash_at);
    let at = put_before(&mut text, seq_at, b'"');
    out.extend_from_slice(&text[at..])
}
