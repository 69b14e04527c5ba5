//! The parameters of a changes feed.

ghost use Rattle.std.specs.Prelude.{◌≡◌, ◌⊎◌, ◌<◌, true, IfOk, IfErr, OnErr, Ok, Err, codes};
ghost use Rattle.std.specs.Prelude.{length, option_map};
ghost use Rattle.std.specs.Option.{option_copied};
ghost use Rattle.hub_filter.specs.Shown.{HasIds, filter_of};
ghost use Rattle.hub_params.specs.DocParams.{is_value};
ghost use Rattle.hub_params.specs.Encoded.{decoded_text};
ghost use Rattle.hub_params.specs.FeedParams.{feed_asked, filter_in};
ghost use Rattle.hub_params.specs.FeedShown.{params_asked};
ghost use Rattle.hub_params.specs.Room.{FeedNeedsRoom, HasBytes, IsEscaped};

use crate::feed_fault::ParamFault::{
    self, BadFeed, BadFlag, BadHeartbeat, BadLimit, BadSince, BadStyle,
};
use crate::feed_values::{
    flag_of, heartbeat_of, limit_of, mode_of, since_of, style_of, timeout_of,
};
use crate::listed_ids::ids_of;
use crate::query::{lent, parsed, read_written, value_of};
use hub_filter::{DocIds, Filter};
use hub_model::{Mode, Since, Style};
use std::alloc::{AllocError, Global};

// The names of the parameters of a feed.
const NAMES: [&str; 10] = [
    "since",
    "limit",
    "style",
    "feed",
    "filter",
    "doc_ids",
    "heartbeat",
    "timeout",
    "descending",
    "include_docs",
];

/// The parameters in the query and the body of a changes feed (CouchDB API reference, `_changes`).
#[derive(Debug, Drop)]
pub struct FeedParams {
    /// How long the feed lasts (`feed`).
    pub mode: Mode,
    /// Where the feed begins (`since`).
    pub since: Since,
    /// The greatest number of rows (`limit`), at least 1; None: no limit.
    pub limit: Option<u64>,
    /// Whether the newest row comes first.
    pub descending: bool,
    /// Which revisions a row lists (`style`).
    pub style: Style,
    /// Whether rows bring their documents.
    pub include_docs: bool,
    /// Which documents are shown (`filter`, `doc_ids`).
    pub filter: Filter,
    /// The milliseconds between heartbeats, at least 1; None: no heartbeats.
    pub heartbeat: Option<u64>,
    /// The milliseconds that the feed waits for a row, 60,000 at most.
    pub timeout: u64,
}

impl FeedParams {
    /// The parameters of a query and a body, or the first fault in them. Names and values are compared
    /// decoded, of a repeated name the last value counts, and unknown names are ignored. The body is read
    /// only with `filter=_doc_ids`. The cost is the query's length, for each of its pairs a comparison with each
    /// of the ten names, the body's length, and the sorting of listed ids. Memory is taken for escaped names
    /// and values, and for listed ids. A fault is answered before any later value is decoded.
    pub fn read(alloc: Global, query: &[u8], body: &[u8]) -> Result<FeedParams, ParamFault>
        ensures ok { IfOk result (λ p. feed_asked query.now body.now ≡ Ok (params_asked p)) }
        ensures err { IfErr result (λ e. (e ≡ ParamFault.NoMemory)
            ⊎ (feed_asked query.now body.now ≡ Err e)) }
        ensures memory { IfErr result (λ e. e ≡ ParamFault.NoMemory → FeedNeedsRoom query.now body.now) }
    {
        let mut written = [None; 10];
        read_written(alloc, query, &NAMES, &mut written)?;
        let [
            since,
            limit,
            style,
            feed,
            filter,
            doc_ids,
            heartbeat,
            timeout,
            descending,
            include_docs,
        ] = written;
        let since = parsed(alloc, since, BadSince, since_of)?;
        let limit = parsed(alloc, limit, BadLimit, limit_of)?;
        let style = parsed(alloc, style, BadStyle, style_of)?;
        let mode = parsed(alloc, feed, BadFeed, mode_of)?;
        let filter = read_filter(alloc, filter, doc_ids, body)?;
        let heartbeat = parsed(alloc, heartbeat, BadHeartbeat, heartbeat_of)?;
        let timeout = parsed(alloc, timeout, BadHeartbeat, timeout_of)?;
        let descending = parsed(alloc, descending, BadFlag, flag_of)?;
        if descending && mode.waits() {
            return Err(ParamFault::DescendingMode);
        }
        let include_docs = parsed(alloc, include_docs, BadFlag, flag_of)?;
        Ok(FeedParams {
            mode,
            since,
            limit,
            descending,
            style,
            include_docs,
            filter,
            heartbeat,
            timeout,
        })
    }

    /// A copy. The cost is the length of the listed ids, and only listed ids take memory.
    pub fn copy(&self, alloc: Global) -> Result<FeedParams, AllocError>
        ensures ok { IfOk result (λ p. params_asked p ≡ params_asked self.now) }
        ensures memory { OnErr result (HasIds (params_asked self.now).filter) }
    {
        let filter = self.filter.copy(alloc)?;
        Ok(FeedParams {
            mode: self.mode,
            since: self.since,
            limit: self.limit,
            descending: self.descending,
            style: self.style,
            include_docs: self.include_docs,
            filter,
            heartbeat: self.heartbeat,
            timeout: self.timeout,
        })
    }
}

// Which documents are shown. `doc_ids` and the body are read only where listed documents are shown.
fn read_filter(
    alloc: Global,
    filter: Option<&[u8]>,
    doc_ids: Option<&[u8]>,
    body: &[u8],
) -> Result<Filter, ParamFault>
    ensures ok { IfOk result (λ f. filter_in (option_map decoded_text (option_copied filter.entry))
        (option_map decoded_text (option_copied doc_ids.entry)) body.now ≡ Ok (filter_of f)) }
    ensures err { IfErr result (λ e. (e ≡ ParamFault.NoMemory)
        ⊎ (filter_in (option_map decoded_text (option_copied filter.entry))
        (option_map decoded_text (option_copied doc_ids.entry)) body.now ≡ Err e)) }
    ensures memory { IfErr result (λ e. e ≡ ParamFault.NoMemory → IsEscaped (option_copied filter.entry)
        ⊎ ((is_value (codes "_doc_ids") (option_map decoded_text (option_copied filter.entry)) ≡ true)
        × (HasBytes (option_copied doc_ids.entry) ⊎ (0 < length body.now)))) }
{
    let kind = value_of(alloc, filter)?;
    match lent(&kind) {
        None => Ok(Filter::All),
        Some(text) if text == "_doc_ids" => {
            let ids = value_of(alloc, doc_ids)?;
            let listed = ids_of(alloc, lent(&ids), body)?;
            Ok(Filter::DocIds(DocIds::new(listed)))
        }
        Some(text) if text == "_design" => Ok(Filter::Design),
        Some(_) => Err(ParamFault::BadFilter),
    }
}
