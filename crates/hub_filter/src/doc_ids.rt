//! The documents that a subscriber lists.

ghost use Rattle.std.specs.Prelude.{ℕ, List, ◌≡◌, ◌<◌, length, map, string_bytes, IfOk, OnErr};
ghost use Rattle.hub_filter.specs.Listed.{is_listed, in_order};

use std::alloc::{AllocError, Global};
use std::marker::Model;

/// The ids that a subscriber lists (`doc_ids` of `_changes`), seen as the list of their bytes, in
/// byte order. An id may be there twice.
#[derive(Debug)]
pub struct DocIds {
    sorted: Vec<String>,
}

impl Drop for DocIds {
    fn drop(self) {
        let Self { sorted } = self;
    }
}

impl Model for DocIds {
    ghost use Rattle.std.specs.Prelude.{List, ℕ, map, string_bytes, IsSorted};
    ghost use Rattle.std.specs.String.{string_cmp};

    ghost Value = { List (List ℕ) };

    ghost view = { λ a. map string_bytes a.sorted.items };

    ghost invariant = { λ a. IsSorted string_cmp a.sorted.items };
}

impl DocIds {
    /// The listed ids, sorted in place. The call takes no memory. The number of comparisons is the number of
    /// ids times its logarithm.
    pub fn new(ids: Vec<String>) -> DocIds
        ensures listed { (id : List ℕ) → is_listed id result ≡ is_listed id (map string_bytes ids.items) }
        ensures order { result ≡ in_order (map string_bytes ids.items) }
    {
        let mut sorted = ids;
        sorted.sort_unstable();
        DocIds { sorted }
    }

    /// Whether the id is listed, by a binary search. The number of comparisons is the logarithm of the number
    /// of ids.
    pub fn contains(&self, id: &str) -> bool
        ensures { result ≡ is_listed id.now self.now }
    {
        self.sorted
            .binary_search_by(|listed| listed.as_str().cmp(id))
            .is_ok()
    }

    /// The listed ids. Constant time.
    pub fn as_slice(&self) -> &[String]
        ensures { map string_bytes result.now ≡ self.now }
    {
        &self.sorted
    }

    /// A copy. The cost is the length of the ids, and an empty list takes no memory.
    pub fn copy(&self, alloc: Global) -> Result<DocIds, AllocError>
        ensures ok { IfOk result (λ ids. ids ≡ self.now) }
        ensures err { OnErr result (0 < length self.now) }
    {
        if self.sorted.is_empty() {
            let sorted = Vec::new(alloc);
            return Ok(DocIds { sorted });
        }
        let sorted = self.sorted.to_vec(alloc)?;
        Ok(DocIds { sorted })
    }
}
