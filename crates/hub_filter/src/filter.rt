//! The filters of a feed.

ghost use Rattle.std.specs.Prelude.{◌≡◌, IfOk, OnErr};
ghost use Rattle.hub_model.specs.Filter.{is_passing};
ghost use Rattle.hub_filter.specs.Shown.{filter_of, HasIds};

use crate::DocIds;
use std::alloc::{AllocError, Global};

/// Which documents a feed shows.
#[derive(Debug, Drop)]
pub enum Filter {
    /// Every document.
    All,
    /// The listed documents (`filter=_doc_ids`).
    DocIds(DocIds),
    /// Design documents (`filter=_design`): their ids begin with `_design/`.
    Design,
}

impl Filter {
    /// Whether the document with this id is shown. The call takes no memory. Constant time; with listed ids
    /// the cost is that of `DocIds::contains`.
    pub fn passes(&self, id: &str) -> bool
        ensures { result ≡ is_passing (filter_of self.now) id.now }
    {
        match self {
            Filter::All => true,
            Filter::DocIds(ids) => ids.contains(id),
            Filter::Design => id.as_bytes().starts_with(b"_design/"),
        }
    }

    /// A copy. The cost is the length of the listed ids, and only listed ids take memory.
    pub fn copy(&self, alloc: Global) -> Result<Filter, AllocError>
        ensures ok { IfOk result (λ filter. filter_of filter ≡ filter_of self.now) }
        ensures err { OnErr result (HasIds (filter_of self.now)) }
    {
        match self {
            Filter::All => Ok(Filter::All),
            Filter::DocIds(ids) => Ok(Filter::DocIds(ids.copy(alloc)?)),
            Filter::Design => Ok(Filter::Design),
        }
    }
}
