//! Rows in a balanced tree.

ghost use Rattle.std.specs.Prelude.{[], ◌≡◌};

use crate::SeqIndex;
use std::alloc::{AllocError, Global};
use std::collections::BTreeMap;
use std::marker::Model;
use std::ops::Bound;

/// Rows in a tree by sequence. A contract sees the list of the rows.
#[derive(Debug)]
pub struct TreeIndex {
    documents: BTreeMap<u64, u32>,
}

impl Drop for TreeIndex {
    fn drop(self) {
        let Self { documents } = self;
    }
}

impl Model for TreeIndex {
    ghost use Rattle.std.specs.Prelude.{List, ℕ};
    ghost use Rattle.hub_index.specs.Rows.{IsIndex};

    ghost Value = { List (ℕ × ℕ) };

    ghost view = { λ a. a.documents.entries };

    ghost invariant = { λ a. IsIndex a.documents.entries };
}

impl TreeIndex {
    /// An index without a row. It takes no memory yet; `move_to` takes it from this allocator.
    pub fn new(alloc: Global) -> TreeIndex
        ensures { result ≡ [] }
    {
        TreeIndex {
            documents: BTreeMap::new(alloc),
        }
    }
}

impl SeqIndex for TreeIndex {
    ghost rows = { λ rows. rows };

    /// The cost is logarithmic in the number of rows.
    fn move_to(&mut self, document: u32, old: Option<u64>, new: u64) -> Result<(), AllocError> {
        self.documents.insert(new, document)?;
        if let Some(old) = old {
            self.documents.remove(&old);
        }
        Ok(())
    }

    /// The cost is logarithmic in the number of rows.
    fn next_after(&self, place: u64, bound: Option<u64>) -> Option<(u64, u32)> {
        let above = (Bound::Excluded(place), Bound::Unbounded);
        let (seq, document) = self.documents.range(above).next()?;
        match bound {
            Some(bound) if bound < *seq => None,
            _ => Some((*seq, *document)),
        }
    }

    /// The cost is logarithmic in the number of rows.
    fn last_before(&self, place: u64) -> Option<(u64, u32)> {
        let (seq, document) = self.documents.range(..place).next_back()?;
        Some((*seq, *document))
    }

    /// It goes over the rows above the place, after a search whose cost is logarithmic in the number of rows.
    fn count_after(&self, place: u64) -> u64 {
        let above = (Bound::Excluded(place), Bound::Unbounded);
        self.documents.range(above).count() as u64
    }
}
