//! Texts that a JSON string holds as they are (RFC 8259, section 7).

ghost use Rattle.std.specs.Prelude.{◌≡◌, ◌+◌, ◌≤◌, length};
ghost use Rattle.std.specs.Bool.{OnTrue};
ghost use Rattle.json.specs.Print.{escape};
ghost use Rattle.json.specs.Written.{PlainBetween};

use std::simd::prelude::*;

fn plain_8(text: &[u8], at: usize) -> bool
    requires { at + 8 ≤ length text.now }
    ensures { OnTrue result (PlainBetween text.now at (at + 8)) }
{
    let v = u8x8::from_slice(&text[at..]);
    (v.simd_eq(u8x8::splat(b'"'))
        | v.simd_eq(u8x8::splat(b'\\'))
        | v.simd_lt(u8x8::splat(0x20))).to_bitmask()
        == 0
}

fn plain_16(text: &[u8], at: usize) -> bool
    requires { at + 16 ≤ length text.now }
    ensures { OnTrue result (PlainBetween text.now at (at + 16)) }
{
    let v = u8x16::from_slice(&text[at..]);
    (v.simd_eq(u8x16::splat(b'"'))
        | v.simd_eq(u8x16::splat(b'\\'))
        | v.simd_lt(u8x16::splat(0x20))).to_bitmask()
        == 0
}

// Two loads, which may overlap, cover a text of 8 to 16 bytes, such as a short id.
fn plain_all(text: &[u8]) -> bool
    ensures { OnTrue result (PlainBetween text.now 0 (length text.now)) }
{
    let len = text.len();
    if len < 8 {
        for &byte in text {
            if byte == b'"' || byte == b'\\' || byte < 0x20 {
                return false;
            }
        }
        return true;
    }
    if len <= 16 {
        return plain_8(text, 0) && plain_8(text, len - 8);
    }
    let mut at = 0;
    while len - at > 16 {
        if !plain_16(text, at) {
            return false;
        }
        at += 16;
    }
    plain_16(text, len - 16)
}

/// Whether a text needs no escape in a JSON string. From 8 bytes on, 8 or 16 bytes are looked at together.
pub fn is_plain(text: &[u8]) -> bool
    ensures { OnTrue result (escape text.now ≡ text.now) }
{
    plain_all(text)
}
