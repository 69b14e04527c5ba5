//! A hash of ids.

/// The bytes of a word.
const WORD: usize = 8;

// A factor that spreads bits upwards: 2^64 by the golden ratio, made odd (Knuth, The Art of Computer Programming,
// volume 3, section 6.4).
const FACTOR: u64 = 0x9e37_79b9_7f4a_7c15;

// A number whose lower bits depend on all bits of this one.
fn mixed(number: u64) -> u64 {
    let product = number.wrapping_mul(FACTOR);
    product ^ (product >> 32)
}

// The last eight bytes as a number, or all of fewer bytes.
fn last_word(bytes: &[u8]) -> u64 {
    if let Some(word) = bytes.last_chunk::<WORD>() {
        return u64::from_le_bytes(*word);
    }
    let mut word = 0u64;
    for byte in bytes {
        word = (word << 8) ^ u64::from(*byte);
    }
    word
}

/// A hash of the bytes of an id, of 32 bits. It takes a step for each eight bytes, and one for the last eight. Of
/// an id of fewer bytes it takes a step for each byte. No contract rests on a hash: ids are compared. So ids that are
/// made to collide cost comparisons alone, and the hash has no secret. Source: own.
pub(crate) fn hash_of(bytes: &[u8]) -> u32 {
    let (words, _) = bytes.as_chunks::<WORD>();
    let mut hash = bytes.len() as u64;
    for word in words {
        hash = mixed(hash ^ u64::from_le_bytes(*word));
    }
    hash = mixed(hash ^ last_word(bytes));
    (mixed(hash) & 0xffff_ffff) as u32
}
