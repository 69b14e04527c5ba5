//! Keys of revisions, for looks in an index.

ghost use Rattle.hex.specs.Hex.{encode_lower};
ghost use Rattle.hub_revtree.specs.Key.{HasKey, IsKey};

use hub_document::RevId;

/// The key of a digest: the number of its first eight bytes. Different digests may have the same key.
pub(crate) fn key_of(digest: &[u8; 16]) -> u64
    ensures { IsKey (encode_lower digest.now) result }
{
    (u128::from_le_bytes(*digest) % (1 << 64)) as u64
}

/// The key of the revision's digest; None where its hash is no digest's text. Constant time.
pub(crate) fn key_of_rev(rev: &RevId) -> Option<u64>
    ensures { HasKey rev.now.hash result }
{
    match rev.digest() {
        Some(digest) => Some(key_of(&digest)),
        None => None,
    }
}
