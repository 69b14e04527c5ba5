//! The state of a feed.

ghost use Rattle.std.specs.Prelude.{◌≡◌, ◌<◌, ◌≤◌, map, option_map, find};
ghost use Rattle.std.specs.Prelude.{List, Some, true, Contains, string_bytes, IfSome, IfOk, OnErr};
ghost use Rattle.hub_model.specs.Feed.{Open, new_feed, next_due, is_in_reach, is_open, bound_of, bound_after};
ghost use Rattle.hub_model.specs.Feed.{status_after, feed_after_due, after_nothing, after_row, is_beat_allowed, expired_feed};
ghost use Rattle.hub_model.specs.Feed.{end};
ghost use Rattle.hub_model.specs.Filter.{Everything};
ghost use Rattle.hub_model.specs.Hand.{item_of_due};
ghost use Rattle.hub_model.specs.declared.feeds.Item.TheVariants.{End};
ghost use Rattle.hub_model.specs.Current.{Current, pending};
ghost use Rattle.hub_params.specs.FeedModel.{params_of};
ghost use Rattle.hub_feed.specs.Due.{after_sequence, due_sequence};
ghost use Rattle.hub_feed.specs.Hand.{HandsTo, MayTake};
ghost use Rattle.hub_feed.specs.Next.{next_of_due, feed_after_next, IsRowDue};
ghost use Rattle.hub_feed.specs.Reach.{IsReady, first_listed, lesser, listed_in};
ghost use Rattle.hub_feed.specs.Shown.{status_of};
ghost use Rattle.hub_feed.specs.declared.next.Next.TheVariants.{Give};
ghost use Rattle.hub_feed.specs.declared.feed.DueSequence.TheVariants.{Row as RowAt};

use crate::handed::Handed;
use crate::next::Next;
use crate::sink::{Pushes, Sink};
use crate::source::Source;
use hub_filter::Filter;
use hub_model::{Item, Mode, Style, by_mode};
use hub_params::FeedParams;
use std::alloc::AllocError;
use std::marker::Model;

/// The status of a feed. A finished feed has no state.
#[derive(Clone, Copy, Debug, PartialEq, Eq)]
pub(crate) enum Status {
    /// The feed may hand rows.
    Open,
    /// The feed has only its end left to hand.
    Ending,
    /// The feed has handed its end.
    Ended,
}

/// The step that is due to a feed, with the sequence of its item. A feed needs no more of an item to move.
#[derive(Clone, Copy)]
pub(crate) enum DueSequence {
    /// The row of this sequence.
    Row(u64),
    /// An end at this sequence.
    End(u64),
    /// Nothing now.
    Nothing,
    /// Nothing any more.
    Gone,
}

/// A feed that was opened, over any source (CouchDB API reference, `_changes`).
#[derive(Debug)]
pub struct FeedState {
    params: FeedParams,
    /// The feed shows rows above this sequence.
    since: u64,
    /// The feed shows no row above this sequence, if there is one.
    bound: Option<u64>,
    /// The feed has shown the rows that pass, up to this sequence.
    place: u64,
    /// The number of rows that the feed has handed.
    rows: u64,
    status: Status,
}

impl Drop for FeedState {
    fn drop(self) {
        let Self {
            params,
            since,
            bound,
            place,
            rows,
            status,
        } = self;
    }
}

impl Model for FeedState {
    ghost use Rattle.std.specs.Prelude.{◌+◌, ◌≤◌, IfSome};
    ghost use Rattle.hub_model.specs.Feed.{Feed};

    ghost Value = { Feed };

    ghost use Rattle.hub_params.specs.FeedModel.{params_of};
    ghost use Rattle.hub_feed.specs.Shown.{status_of};

    ghost view = { λ f. record {
      params = params_of f.params;
      since = f.since;
      bound = f.bound;
      place = f.place;
      rows = f.rows;
      status = status_of f.status;
    } };

    ghost invariant = { λ f. (f.since + f.rows ≤ f.place) × IfSome f.bound (λ bound. f.place ≤ bound) };
}

// The bound of a feed that is opened while there are `length` edits.
fn bound_of(mode: Mode, length: u64) -> Option<u64>
    ensures { result ≡ bound_of mode length }
{
    by_mode!(
        mode,
        normal: Some(length),
        longpoll: None,
        continuous: None,
    )
}

// The bound of a feed after a row, while there are `length` edits.
fn bound_after(mode: Mode, bound: Option<u64>, length: u64) -> Option<u64>
    ensures { result ≡ bound_after mode bound length }
{
    by_mode!(
        mode,
        normal: bound,
        longpoll: bound.or(Some(length)),
        continuous: bound,
    )
}

// The status of an open feed that has handed so many rows: it is ending once they reach its limit.
fn status_after(limit: Option<u64>, rows: u64) -> Status
    ensures { status_of result ≡ status_after limit rows }
{
    match limit {
        Some(limit) if limit <= rows => Status::Ending,
        _ => Status::Open,
    }
}

// The end of a feed at a place. The cost is that of `Source::count_after`.
fn end_at<S: Source>(source: &S, place: u64) -> Item<S::Row>
    ensures { result ≡ End place (pending (S.current source.now) place) }
{
    Item::End {
        last_seq: place,
        pending: source.count_after(place),
    }
}

// The row of this sequence with its document, made in the memory of a spare item of the sink, if that is a row.
#[inline(always)]
fn row_over<S: Source, K: Sink<Item<S::Row>>>(
    source: &S,
    seq: u64,
    style: Style,
    sink: &mut K,
) -> Result<S::Row, AllocError>
    requires { (c : Current) × Contains (S.current source.now) c × (c.seq ≡ seq) }
    ensures row { IfOk result (λ r. (c : Current) → Contains (S.current source.now) c → c.seq ≡ seq
        → r ≡ S.shown source.now style true c) }
    ensures sink { sink.new ≡ sink.old }
{
    match sink.spare() {
        Some(Item::Row(spare)) => source.row_over(seq, style, spare),
        _ => source.row(seq, style, true),
    }
}

// The lesser of two sequences; where there is one alone, that sequence.
fn lesser(first: Option<u64>, second: Option<u64>) -> Option<u64>
    ensures { result ≡ lesser first second }
{
    match (first, second) {
        (Some(first), Some(second)) => Some(first.min(second)),
        (Some(first), None) => Some(first),
        (None, second) => second,
    }
}

// The sequence of the first row above a place and not above the bound, among rows of the documents with these
// ids. It costs a `Source::next_of` for each id.
fn first_of<S: Source>(source: &S, ids: &[String], place: u64, bound: Option<u64>) -> Option<u64>
    ensures { result ≡ option_map (λ c. c.seq)
        (first_listed place bound (map string_bytes ids.now) (S.current source.now)) }
{
    let mut first = None;
    for id in ids {
        first = lesser(first, source.next_of(id.as_str(), place, bound));
    }
    first
}

impl FeedState {
    /// A feed that is opened while there are `length` edits of the life of this number. If its parameters ask
    /// for a sequence of another life, it begins at the first edit. Constant time.
    pub fn begin(params: FeedParams, length: u64, life: u64) -> FeedState
        ensures { result ≡ new_feed (params_of params) length life }
    {
        let since = params.since.within(length, life);
        let bound = bound_of(params.mode, length);
        FeedState {
            params,
            since,
            bound,
            place: since,
            rows: 0,
            status: Status::Open,
        }
    }

    // The sequence of the first row in reach, if it is among the first `until - place` rows ahead of the
    // feed. It costs one step of the source for each row that does not pass, and one more.
    fn first_until<S: Source>(&self, source: &S, until: u64) -> Option<u64>
        ensures found { IfSome result
            (λ seq. Some seq ≡ option_map (λ c. c.seq) (find (is_in_reach self.now) (S.current source.now))) }
        ensures whole { S.length source.now ≤ until
            → result ≡ option_map (λ c. c.seq) (find (is_in_reach self.now) (S.current source.now)) }
    {
        let mut place = self.place;
        for _ in self.place..until {
            let (seq, id) = source.next_after(place, self.bound)?;
            if self.params.filter.passes(id) {
                return Some(seq);
            }
            place = seq;
        }
        None
    }

    // The sequence of the first row in reach of a feed that shows every document. It costs a step of the source.
    fn first_ahead<S: Source>(&self, source: &S) -> Option<u64>
        requires { self.now.params.filter ≡ Everything }
        ensures { result ≡ option_map (λ c. c.seq) (find (is_in_reach self.now) (S.current source.now)) }
    {
        match source.next_after(self.place, self.bound) {
            Some((seq, _)) => Some(seq),
            None => None,
        }
    }

    /// The sequence of the first row in reach of an open feed. It costs a step of the source for each row
    /// that does not pass, and one more. With listed ids there are at most as many steps as ids, and then a
    /// `Source::next_of` for each id.
    pub fn first_of_open<S: Source>(&self, source: &S) -> Option<u64>
        ensures { self.now.status ≡ Open
            → result ≡ option_map (λ c. c.seq) (find (is_in_reach self.now) (S.current source.now)) }
    {
        if self.status != Status::Open {
            return None;
        }
        let length = source.length();
        let ids = match &self.params.filter {
            Filter::All => return self.first_ahead(source),
            Filter::Design => return self.first_until(source, length),
            Filter::DocIds(ids) => ids.as_slice(),
        };
        let few = self.place.saturating_add(ids.len() as u64);
        if length <= few {
            return self.first_until(source, length);
        }
        match self.first_until(source, few) {
            Some(seq) => Some(seq),
            None => first_of(source, ids, self.place, self.bound),
        }
    }

    // The step that is due, where `first` is the sequence of the first row in reach, if there is one. A feed
    // that is not open needs no `first`. Constant time.
    fn due(&self, first: Option<u64>) -> DueSequence
        ensures { (rows : List Current)
            → (self.now.status ≡ Open → first ≡ option_map (λ c. c.seq) (find (is_in_reach self.now) rows))
            → result ≡ due_sequence (next_due rows self.now) }
    {
        match self.status {
            Status::Open => match (first, self.bound) {
                (Some(seq), _) => DueSequence::Row(seq),
                (None, Some(bound)) => DueSequence::End(bound),
                (None, None) => DueSequence::Nothing,
            },
            Status::Ending => DueSequence::End(self.place),
            Status::Ended => DueSequence::Gone,
        }
    }

    /// The item that the feed has to hand now, over the source that it was opened on. The item is made, and
    /// the feed stays: `accept_item` moves it. A feed with nothing to hand moves its place to the source's
    /// length. Only a row takes memory. The cost is that of `first_of_open` and of the row; an end costs the
    /// count of the rows above it.
    pub fn next_item<S: Source>(&mut self, source: &S) -> Result<Next<S::Row>, AllocError>
        requires reached { self.old.place ≤ S.length source.now }
        ensures ok { IfOk result (λ next.
            next ≡ next_of_due (S.shown source.now self.old.params.style self.old.params.include_docs)
            (S.current source.now) (next_due (S.current source.now) self.old)) }
        ensures new { IfOk result (λ next.
            self.new ≡ feed_after_next self.old (next_due (S.current source.now) self.old) (S.length source.now)) }
        ensures err { OnErr result ((self.new ≡ self.old) × IsRowDue (next_due (S.current source.now) self.old)) }
    {
        let first = self.first_of_open(source);
        match self.due(first) {
            DueSequence::Row(seq) => {
                let row = source.row(seq, self.params.style, self.params.include_docs)?;
                Ok(Next::Give(Item::Row(row)))
            }
            DueSequence::End(last_seq) => Ok(Next::Give(end_at(source, last_seq))),
            DueSequence::Nothing => {
                self.place = source.length();
                Ok(Next::Nothing)
            }
            DueSequence::Gone => Ok(Next::Gone),
        }
    }

    // The feed moves to the row at `seq`, which was handed.
    fn accept_row(&mut self, seq: u64, length: u64)
        requires above { self.old.place < seq }
        requires within { seq ≤ length }
        requires bound { IfSome self.old.bound (λ bound. seq ≤ bound) }
        ensures { self.new ≡ after_row self.old seq length }
    {
        self.place = seq;
        self.rows += 1;
        self.bound = bound_after(self.params.mode, self.bound, length);
        self.status = status_after(self.params.limit, self.rows);
    }

    // The feed moves to the row or the end of this sequence, which was handed. It takes no memory, and
    // constant time.
    fn accept_due<S: Source>(&mut self, source: &S, sequence: DueSequence)
        requires due { sequence ≡ due_sequence (next_due (S.current source.now) self.old) }
        ensures { self.new ≡ after_sequence self.old sequence (S.length source.now) }
    {
        match sequence {
            DueSequence::Row(seq) => self.accept_row(seq, source.length()),
            DueSequence::End(last_seq) => {
                self.place = last_seq;
                self.status = Status::Ended;
            }
            DueSequence::Nothing | DueSequence::Gone => {}
        }
    }

    /// The feed moves as if it handed the item of `next_item`. It takes no memory, and constant time.
    pub fn accept_item<S: Source>(&mut self, source: &S, item: &Item<S::Row>)
        requires due { item_of_due (S.shown source.now self.old.params.style self.old.params.include_docs)
            (S.current source.now) (next_due (S.current source.now) self.old)
            ≡ Some item.now }
        ensures { self.new ≡ feed_after_due self.old (next_due (S.current source.now) self.old) (S.length source.now) }
    {
        let sequence = match item {
            Item::Row(row) => DueSequence::Row(S::seq(row)),
            Item::End { last_seq, .. } => DueSequence::End(*last_seq),
            Item::Beat => return,
        };
        self.accept_due(source, sequence);
    }

    // Gives the sink the item that is due, and then the feed moves. Where the sink gives the item back
    // nothing changes. It costs a push.
    #[inline(always)]
    fn give<S: Source, K: Sink<Item<S::Row>>, H: Pushes<K, Item<S::Row>>>(
        &mut self,
        source: &S,
        given: DueSequence,
        item: Item<S::Row>,
        handle: &H,
        sink: &mut K,
    ) -> Handed
        requires due { given ≡ due_sequence (next_due (S.current source.now) self.old) }
        requires item { next_of_due (S.shown source.now self.old.params.style self.old.params.include_docs)
            (S.current source.now) (next_due (S.current source.now) self.old) ≡ Give item }
        requires may { MayTake K.allows K.sent sink.old item }
        ensures { HandsTo K.behind (H.refuses handle.now) self.old
            (feed_after_due self.old (next_due (S.current source.now) self.old) (S.length source.now))
            (after_nothing self.old (S.length source.now)) sink.old (Give item) result self.new sink.new }
    {
        let handed = Handed::of(&item);
        if let Err(_back) = handle.push(sink, item) {
            return Handed::Full;
        }
        self.accept_due(source, given);
        handed
    }

    // Hands the row of this sequence, which is due, with its document. The sink may give memory for the row. The
    // call is never inlined: a row without a document would pay for the moves of this row.
    #[inline(never)]
    fn hand_with_doc<S: Source, K: Sink<Item<S::Row>>, H: Pushes<K, Item<S::Row>>>(
        &mut self,
        source: &S,
        seq: u64,
        handle: &H,
        sink: &mut K,
    ) -> Result<Handed, AllocError>
        requires docs { self.old.params.include_docs ≡ true }
        requires due { RowAt seq ≡ due_sequence (next_due (S.current source.now) self.old) }
        requires may { IfSome (item_of_due
            (S.shown source.now self.old.params.style self.old.params.include_docs)
            (S.current source.now) (next_due (S.current source.now) self.old))
            (MayTake K.allows K.sent sink.old) }
        ensures ok { IfOk result (λ did. HandsTo K.behind (H.refuses handle.now) self.old
            (feed_after_due self.old (next_due (S.current source.now) self.old) (S.length source.now))
            (after_nothing self.old (S.length source.now)) sink.old
            (next_of_due (S.shown source.now self.old.params.style self.old.params.include_docs)
            (S.current source.now) (next_due (S.current source.now) self.old))
            did self.new sink.new) }
        ensures err { OnErr result ((self.new ≡ self.old) × (sink.new ≡ sink.old)
            × IsRowDue (next_due (S.current source.now) self.old)) }
    {
        let row = row_over(source, seq, self.params.style, sink)?;
        Ok(self.give(source, DueSequence::Row(seq), Item::Row(row), handle, sink))
    }

    /// Hands the item that is due. `first` is the sequence of the first row in reach of an open feed, if
    /// there is one. The item is made, then `sink` takes it, and only then the feed moves. Where `sink` gives
    /// it back nothing changes, and the next hand makes it again. A feed with nothing to hand moves its place
    /// to the source's length. Only a row takes memory. Out of memory, nothing changes. It costs the row, or
    /// the count of the rows above an end, and a push.
    pub fn hand<S: Source, K: Sink<Item<S::Row>>, H: Pushes<K, Item<S::Row>>>(
        &mut self,
        source: &S,
        first: Option<u64>,
        handle: &H,
        sink: &mut K,
    ) -> Result<Handed, AllocError>
        requires ready { IsReady (S.length source.now) (S.current source.now) self.old first }
        requires may { IfSome (item_of_due
            (S.shown source.now self.old.params.style self.old.params.include_docs)
            (S.current source.now) (next_due (S.current source.now) self.old))
            (MayTake K.allows K.sent sink.old) }
        ensures ok { IfOk result (λ did. HandsTo K.behind (H.refuses handle.now) self.old
            (feed_after_due self.old (next_due (S.current source.now) self.old) (S.length source.now))
            (after_nothing self.old (S.length source.now)) sink.old
            (next_of_due (S.shown source.now self.old.params.style self.old.params.include_docs)
            (S.current source.now) (next_due (S.current source.now) self.old))
            did self.new sink.new) }
        ensures err { OnErr result ((self.new ≡ self.old) × (sink.new ≡ sink.old)
            × IsRowDue (next_due (S.current source.now) self.old)) }
    {
        let due = self.due(first);
        match due {
            DueSequence::Row(seq) => {
                if self.params.include_docs {
                    return self.hand_with_doc(source, seq, handle, sink);
                }
                let row = source.row(seq, self.params.style, self.params.include_docs)?;
                Ok(self.give(source, due, Item::Row(row), handle, sink))
            }
            DueSequence::End(last_seq) => {
                Ok(self.give(source, due, end_at(source, last_seq), handle, sink))
            }
            DueSequence::Nothing => {
                self.place = source.length();
                Ok(Handed::Nothing)
            }
            DueSequence::Gone => Ok(Handed::Gone),
        }
    }

    /// Whether the feed may hand rows. Constant time.
    pub fn is_open(&self) -> bool
        ensures { result ≡ is_open self.now.status }
    {
        self.status == Status::Open
    }

    /// The sequence up to which the feed has shown the rows that pass. Constant time.
    pub fn place(&self) -> u64
        ensures { result ≡ self.now.place }
    {
        self.place
    }

    /// The sequence above which the feed shows no row, if there is one. Constant time.
    pub fn bound(&self) -> Option<u64>
        ensures { result ≡ self.now.bound }
    {
        self.bound
    }

    /// The ids that the filter lists, in byte order, if the feed shows listed documents alone. An id may
    /// stand twice. Constant time.
    pub fn listed(&self) -> Option<&[String]>
        ensures { option_map (λ ids. map string_bytes ids.now) result ≡ listed_in self.now.params.filter }
    {
        match &self.params.filter {
            Filter::DocIds(ids) => Some(ids.as_slice()),
            Filter::All | Filter::Design => None,
        }
    }

    /// Whether the feed may hand a heartbeat: it asked for heartbeats, is open, and waits.
    pub fn beat_due(&self) -> bool
        ensures { result ≡ is_beat_allowed self.now }
    {
        self.status == Status::Open && self.params.mode.waits() && self.params.heartbeat.is_some()
    }

    /// The feed's time without an item is over: an open feed that waits is ending.
    pub fn expire(&mut self)
        ensures { self.new ≡ expired_feed self.old }
    {
        if self.status == Status::Open && self.params.mode.waits() {
            self.status = Status::Ending;
        }
    }

    /// The feed's source is deleted: an open feed is ending.
    pub fn end(&mut self)
        ensures { self.new ≡ end self.old }
    {
        if self.status == Status::Open {
            self.status = Status::Ending;
        }
    }
}
