//! The faults of a feed's parameters.

use std::alloc::AllocError;
use thiserror::Error;

/// Why a query and a body are no parameters of a feed: the first of these faults, in this order. `NoMemory`
/// may come in place of a fault, where memory is taken before the fault is known. The error texts are the
/// reasons that a hub answers (own).
#[derive(Clone, Copy, Debug, PartialEq, Eq, Error)]
pub enum ParamFault {
    /// A growth was refused.
    #[error("out of memory")]
    NoMemory,
    /// `since` is neither `now` nor a number below 2^64, alone or with the number of its life.
    #[error("bad since")]
    BadSince,
    /// `limit` is no number below 2^64.
    #[error("bad limit")]
    BadLimit,
    /// `style` is neither `main_only` nor `all_docs`.
    #[error("bad style")]
    BadStyle,
    /// `feed` is none of `normal`, `longpoll` and `continuous`.
    #[error("bad feed")]
    BadFeed,
    /// `filter` is neither `_doc_ids` nor `_design`.
    #[error("bad filter")]
    BadFilter,
    /// With `filter=_doc_ids`: `doc_ids` is absent or no list of texts, or a body is there and is no object.
    #[error("bad doc_ids")]
    BadDocIds,
    /// `heartbeat` or `timeout` is no number in its range, nor a word that stands for one.
    #[error("bad heartbeat")]
    BadHeartbeat,
    /// `descending` is `true`, and the feed does not end at once.
    #[error("descending needs feed=normal")]
    DescendingMode,
    /// `descending` or `include_docs` is neither `true` nor `false`.
    #[error("bad flag")]
    BadFlag,
}

impl From<AllocError> for ParamFault {
    ghost use Rattle.std.specs.Prelude.{◌≡◌};
    ghost use Rattle.hub_params.specs.declared.feed_fault.ParamFault.TheVariants.{NoMemory};

    ghost from_gives = { λ _ e. e ≡ NoMemory };

    fn from(_refused: AllocError) -> ParamFault {
        ParamFault::NoMemory
    }
}
