//! Logs of updates as tables: the notes of a log, and the items that its feeds hand.
//!
//! With ample memory each step is made once. Where a growth is refused the step is an error, and the log
//! shows the same as before. The step made again has the answer that it has with ample memory. So these tests
//! hold whichever one growth is refused. The growths of the tests themselves are among them, as that of a
//! notice.

use crate::listed::{Listed, NoHandle};
use crate::tests::Handed::{End, Full, Gone, Nothing, Row};
use crate::tests::Step::{Beats, Expire, Finish, Hand, Heeds, Items, Length, Note, Open};
use hub_document::{Limits, UpdateRow};
use hub_feed::{FeedHost, FeedId, Handed as Did, OpenFault};
use hub_model::UpdateKind::{self, Created, Deleted, Updated};
use hub_model::{Item, Mode, Since, Style};
use hub_params::FeedParams;
use hub_updates::{NoteFault, Notice, UpdatesState};
use std::alloc::{AllocError, Global};

/// An empty log, and the steps that are made on it.
struct Case {
    name: &'static str,
    /// Whether the log has room for one note and one feed alone.
    narrow: bool,
    steps: &'static [Step],
}

/// A step on a log, and its answer.
enum Step {
    /// A notice comes of a change of the database of this name.
    Note(UpdateKind, &'static str, Result<(), NoteFault>),
    /// How many notes there are.
    Length(u64),
    /// A feed with the parameters of this query is opened.
    Open(&'static str, Result<FeedId, OpenFault>),
    /// The outcome of the next hand of a feed.
    Hand(FeedId, Handed),
    /// The last answer of so many hands at most, and the items of the hands.
    Items(FeedId, u64, Did, &'static [Handed]),
    /// Whether a beat is due to a feed.
    Beats(FeedId, bool),
    /// The time of a feed is over.
    Expire(FeedId),
    /// A feed is finished.
    Finish(FeedId),
    /// The parameters of this query that a feed of a log heeds.
    Heeds(&'static str, Heeded),
}

/// The outcome of a hand.
enum Handed {
    /// A row: its kind, the name of its database, its sequence, and how many notes there were when it was
    /// made.
    Row(UpdateKind, &'static str, u64, u64),
    /// Its end: the last sequence and how many rows are pending.
    End(u64, u64),
    /// Nothing now.
    Nothing,
    /// Nothing any more.
    Gone,
    /// An item is due, and the list has no room for it.
    Full,
}

/// The parameters that a feed of a log heeds. The feed shows every row, upwards, with the winner and without
/// a document.
struct Heeded {
    mode: Mode,
    since: Since,
    limit: Option<u64>,
    heartbeat: Option<u64>,
    timeout: u64,
}

// Feeds, by the order in which they are opened.

const FIRST: FeedId = FeedId { number: 0 };

const SECOND: FeedId = FeedId { number: 1 };

/// A log on trial.
#[derive(Drop)]
struct Trial {
    alloc: Global,
    state: UpdatesState,
}

// The limits of a log. Where they are narrow, it may have one note and one feed alone.
fn limits(narrow: bool) -> Limits {
    let mut limits = Limits::full();
    if narrow {
        limits.journal = 1;
        limits.feeds = 1;
    }
    limits
}

// The parameters of a query; an error out of memory, and each time where the query is refused.
fn params_of(alloc: Global, query: &str) -> Result<FeedParams, AllocError> {
    match FeedParams::read(alloc, query.as_bytes(), b"") {
        Ok(params) => Ok(params),
        Err(_) => Err(AllocError),
    }
}

// Whether the parameters are those of `heeded`, and otherwise those of each feed of a log.
fn is_heeded(params: &FeedParams, heeded: &Heeded) -> bool {
    params.mode == heeded.mode
        && params.since == heeded.since
        && params.limit == heeded.limit
        && params.heartbeat == heeded.heartbeat
        && params.timeout == heeded.timeout
        && !params.descending
        && !params.include_docs
        && params.style == Style::MainOnly
        && params.filter.passes("d")
}

// Whether a hand has this outcome. `item` is the first item of its list after it.
fn is_hand(did: Did, item: Option<&Item<UpdateRow>>, handed: &Handed) -> bool {
    match (did, item, handed) {
        (Did::Row, Some(Item::Row(row)), Row(kind, name, seq, seen)) => {
            row.kind == *kind
                && row.db_name.as_str() == *name
                && row.seq == *seq
                && row.seen == *seen
        }
        (Did::End, Some(Item::End { last_seq, pending }), End(last, rest)) => {
            last_seq == last && pending == rest
        }
        (Did::Full, None, Full) | (Did::Nothing, None, Nothing) | (Did::Gone, None, Gone) => true,
        _ => false,
    }
}

// Whether the next hand of a feed has this outcome. The list has room for one item, or for none where the
// outcome is `Full`.
fn hands<H: FeedHost<Row = UpdateRow>>(
    alloc: Global,
    host: &mut H,
    feed: FeedId,
    handed: &Handed,
) -> Result<bool, AllocError> {
    let room = if matches!(handed, Full) { 0 } else { 1 };
    let mut list = Listed::new(alloc, room)?;
    let did = host.hand(feed, &NoHandle, &mut list)?;
    Ok(is_hand(did, list.items().first(), handed))
}

// Hands so many items at most into a list, and answers the last answer. Items before one that found no memory
// stay handed: the list keeps them, and the rest is handed once more.
fn handed_rest<H: FeedHost<Row = UpdateRow>>(
    host: &mut H,
    feed: FeedId,
    most: u64,
    list: &mut Listed<Item<UpdateRow>>,
) -> Result<(Did, u64), AllocError> {
    if let Ok(did) = host.hand_items(feed, &NoHandle, list, most) {
        return Ok(did);
    }
    let taken = list.items().len() as u64;
    let rest = most.saturating_sub(taken);
    let (last, count) = host.hand_items(feed, &NoHandle, list, rest)?;
    Ok((last, taken.saturating_add(count)))
}

// Whether the items are these.
fn are_items(items: &[Item<UpdateRow>], handed: &[Handed]) -> bool {
    for (item, handed) in items.iter().zip(handed) {
        let did = if item.is_end() { Did::End } else { Did::Row };
        if !is_hand(did, Some(item), handed) {
            return false;
        }
    }
    items.len() == handed.len()
}

// Whether so many hands at most have this last answer, and hand these items. The list has room for so many items,
// or for these alone where the answer is `Full`.
fn hands_items<H: FeedHost<Row = UpdateRow>>(
    alloc: Global,
    host: &mut H,
    feed: FeedId,
    most: u64,
    answer: Did,
    handed: &[Handed],
) -> Result<bool, AllocError> {
    let room = if answer == Did::Full {
        handed.len()
    } else {
        most as usize
    };
    let mut list = Listed::new(alloc, room)?;
    let (last, count) = handed_rest(host, feed, most, &mut list)?;
    Ok(last == answer && count == handed.len() as u64 && are_items(list.items(), handed))
}

// Whether opening a feed of a host has this answer.
fn opens<H: FeedHost>(
    alloc: Global,
    host: &mut H,
    query: &str,
    answer: Result<FeedId, OpenFault>,
) -> Result<bool, AllocError> {
    let params = params_of(alloc, query)?;
    match host.open_feed(params) {
        Err(OpenFault::NoMemory) => Err(AllocError),
        opened => Ok(opened == answer),
    }
}

impl Trial {
    // Whether a notice has this answer. A notice that is handed back has to be the same, and lapses.
    fn notes(
        &mut self,
        kind: UpdateKind,
        name: &str,
        answer: Result<(), NoteFault>,
    ) -> Result<bool, AllocError> {
        match self.state.note(Notice::new(self.alloc, kind, name)?) {
            Ok(()) => Ok(answer == Ok(())),
            Err((notice, fault)) => {
                let same = notice.kind() == kind && notice.name() == name;
                notice.lapse();
                if same && fault == NoteFault::NoMemory {
                    return Err(AllocError);
                }
                Ok(same && answer == Err(fault))
            }
        }
    }

    // Whether a step has its answer; an error out of memory.
    fn holds(&mut self, step: &Step) -> Result<bool, AllocError> {
        match step {
            Note(kind, name, answer) => self.notes(*kind, name, *answer),
            Length(length) => {
                Ok(self.state.update_seq() == *length && self.state.length() == *length)
            }
            Open(query, answer) => opens(self.alloc, &mut self.state, query, *answer),
            Hand(feed, handed) => hands(self.alloc, &mut self.state, *feed, handed),
            Items(feed, most, answer, handed) => {
                hands_items(self.alloc, &mut self.state, *feed, *most, *answer, handed)
            }
            Beats(feed, answer) => Ok(self.state.beat_due(*feed) == *answer),
            Expire(feed) => {
                self.state.expire(*feed);
                Ok(true)
            }
            Finish(feed) => {
                self.state.finish(*feed);
                Ok(true)
            }
            Heeds(query, heeded) => {
                let params = UpdatesState::effective(params_of(self.alloc, query)?);
                Ok(is_heeded(&params, heeded))
            }
        }
    }

    // Whether a step has its answer, also where one of its growths is refused. A step out of memory has to
    // leave the number of notes and the beats that are due, and is made again.
    fn holds_again(&mut self, step: &Step) -> bool {
        let notes = self.state.update_seq();
        let first = self.state.beat_due(FIRST);
        let second = self.state.beat_due(SECOND);
        match self.holds(step) {
            Ok(held) => held,
            Err(AllocError) => {
                self.state.update_seq() == notes
                    && self.state.beat_due(FIRST) == first
                    && self.state.beat_due(SECOND) == second
                    && matches!(self.holds(step), Ok(true))
            }
        }
    }

    // How many steps have their answers, before the first step that has another answer.
    fn count_of(&mut self, steps: &[Step]) -> usize {
        let mut count = 0usize;
        for step in steps {
            if !self.holds_again(step) {
                return count;
            }
            count = count.saturating_add(1);
        }
        count
    }
}

const AGAIN: &[Step] = &[
    Note(Created, "d", Ok(())),
    Note(Updated, "d", Ok(())),
    Note(Deleted, "d", Ok(())),
    Note(Created, "d", Ok(())),
    Length(4),
    Open("", Ok(FIRST)),
    Hand(FIRST, Row(Updated, "d", 2, 4)),
    Hand(FIRST, Row(Deleted, "d", 3, 4)),
    Hand(FIRST, Row(Created, "d", 4, 4)),
    Hand(FIRST, End(4, 0)),
    Hand(FIRST, Gone),
    Finish(FIRST),
    Hand(FIRST, Gone),
];

// A row above the feed's place gets a new sequence, above the feed's bound.
const LEFT: &[Step] = &[
    Note(Created, "cd", Ok(())),
    Note(Created, "d", Ok(())),
    Note(Updated, "", Ok(())),
    Open("since=1", Ok(FIRST)),
    Hand(FIRST, Row(Created, "d", 2, 3)),
    Note(Updated, "", Ok(())),
    Hand(FIRST, End(3, 1)),
    Hand(FIRST, Gone),
];

const FOLLOWED: &[Step] = &[
    Open("feed=continuous&heartbeat=1000", Ok(FIRST)),
    Hand(FIRST, Nothing),
    Note(Created, "d", Ok(())),
    Hand(FIRST, Row(Created, "d", 1, 1)),
    Hand(FIRST, Nothing),
    Note(Updated, "d", Ok(())),
    Note(Updated, "e", Ok(())),
    Note(Updated, "d", Ok(())),
    Hand(FIRST, Row(Updated, "e", 3, 4)),
    Hand(FIRST, Row(Updated, "d", 4, 4)),
    Hand(FIRST, Nothing),
    Beats(FIRST, true),
    Expire(FIRST),
    Beats(FIRST, false),
    Hand(FIRST, End(4, 0)),
    Hand(FIRST, Gone),
];

// A feed begins after a sequence of the log's life, 0. For another life it begins at the first row.
const LIVES: &[Step] = &[
    Note(Created, "d", Ok(())),
    Note(Created, "e", Ok(())),
    Open("since=1-0", Ok(FIRST)),
    Hand(FIRST, Row(Created, "e", 2, 2)),
    Hand(FIRST, End(2, 0)),
    Hand(FIRST, Gone),
    Open("since=1-1", Ok(SECOND)),
    Hand(SECOND, Row(Created, "d", 1, 2)),
    Hand(SECOND, Row(Created, "e", 2, 2)),
    Hand(SECOND, End(2, 0)),
    Hand(SECOND, Gone),
];

const FULL: &[Step] = &[
    Note(Created, "d", Ok(())),
    Note(Created, "d", Err(NoteFault::SequenceFull)),
    Note(Deleted, "e", Err(NoteFault::SequenceFull)),
    Length(1),
    Open("", Ok(FIRST)),
    Hand(FIRST, Row(Created, "d", 1, 1)),
    Hand(FIRST, End(1, 0)),
];

const LIMITED: &[Step] = &[
    Open("", Ok(FIRST)),
    Open("", Err(OpenFault::TooManyFeeds)),
    Finish(FIRST),
    Open("", Ok(SECOND)),
];

const REFUSED: &[Step] = &[
    Note(Created, "d", Ok(())),
    Open("feed=continuous&heartbeat=1000", Ok(FIRST)),
    Hand(FIRST, Full),
    Hand(FIRST, Full),
    Hand(FIRST, Row(Created, "d", 1, 1)),
    Hand(FIRST, Nothing),
    Note(Updated, "d", Ok(())),
    Hand(FIRST, Full),
    Hand(FIRST, Row(Updated, "d", 2, 2)),
    Hand(FIRST, Nothing),
    Expire(FIRST),
    Hand(FIRST, Full),
    Hand(FIRST, End(2, 0)),
    Hand(FIRST, Gone),
];

const TAKEN: &[Step] = &[
    Note(Created, "d", Ok(())),
    Note(Deleted, "e", Ok(())),
    Open("", Ok(FIRST)),
    Hand(FIRST, Row(Created, "d", 1, 2)),
    Hand(FIRST, Row(Deleted, "e", 2, 2)),
];

const SEVERAL: &[Step] = &[
    Note(Created, "d", Ok(())),
    Note(Created, "e", Ok(())),
    Open("feed=continuous", Ok(FIRST)),
    Items(
        FIRST,
        3,
        Did::Nothing,
        &[Row(Created, "d", 1, 2), Row(Created, "e", 2, 2)],
    ),
    Note(Updated, "d", Ok(())),
    Note(Deleted, "e", Ok(())),
    Items(FIRST, 1, Did::Row, &[Row(Updated, "d", 3, 4)]),
    Items(FIRST, 1, Did::Row, &[Row(Deleted, "e", 4, 4)]),
    Items(FIRST, 1, Did::Nothing, &[]),
    Note(Created, "e", Ok(())),
    Note(Updated, "f", Ok(())),
    Items(FIRST, 3, Did::Full, &[Row(Created, "e", 5, 6)]),
    Items(FIRST, 1, Did::Row, &[Row(Updated, "f", 6, 6)]),
    Expire(FIRST),
    Items(FIRST, 3, Did::End, &[End(6, 0)]),
    Items(FIRST, 1, Did::Gone, &[]),
];

const ABSENT: &[Step] = &[
    Note(Created, "d", Ok(())),
    Hand(FIRST, Gone),
    Open("", Ok(FIRST)),
    Hand(SECOND, Gone),
    Hand(FIRST, Row(Created, "d", 1, 1)),
];

const LONGPOLL: Heeded = Heeded {
    mode: Mode::Longpoll,
    since: Since::Tagged(2, 0),
    limit: Some(3),
    heartbeat: Some(1000),
    timeout: 5,
};

// The parameters where a query says nothing of them.
const PLAIN: Heeded = Heeded {
    mode: Mode::Normal,
    since: Since::Plain(0),
    limit: None,
    heartbeat: None,
    timeout: 60000,
};

// The parameters of documents are not heeded.
const PARAMETERS: &[Step] = &[
    Heeds(
        "feed=longpoll&since=2-0&limit=3&heartbeat=1000&timeout=5",
        LONGPOLL,
    ),
    Heeds(
        "descending=true&style=all_docs&include_docs=true&filter=_design",
        PLAIN,
    ),
];

const CASES: &[Case] = &[
    Case {
        name: "a database has a row for each kind",
        narrow: false,
        steps: AGAIN,
    },
    Case {
        name: "a row leaves the reach of a normal feed",
        narrow: false,
        steps: LEFT,
    },
    Case {
        name: "a continuous feed hands rows as they come",
        narrow: false,
        steps: FOLLOWED,
    },
    Case {
        name: "a sequence of a database is none of the log",
        narrow: false,
        steps: LIVES,
    },
    Case {
        name: "a full log hands notices back",
        narrow: true,
        steps: FULL,
    },
    Case {
        name: "feeds are limited",
        narrow: true,
        steps: LIMITED,
    },
    Case {
        name: "a full list leaves a feed as it was",
        narrow: false,
        steps: REFUSED,
    },
    Case {
        name: "a list has the row that it took",
        narrow: false,
        steps: TAKEN,
    },
    Case {
        name: "several items are handed at once",
        narrow: false,
        steps: SEVERAL,
    },
    Case {
        name: "a hand to no feed is gone",
        narrow: false,
        steps: ABSENT,
    },
    Case {
        name: "parameters that are heeded",
        narrow: false,
        steps: PARAMETERS,
    },
];

// The steps of each case, one at least, have their answers in a new log. The assertion shows how many steps
// have their answers before the first step that has another answer.
#[test]
fn logs_answer_each_step(rt: HostRuntime) {
    let alloc = rt.alloc();
    for case in CASES {
        let name = case.name;
        let mut trial = Trial {
            alloc,
            state: UpdatesState::new(alloc, limits(case.narrow), 0),
        };
        let count = trial.count_of(case.steps);
        assert!(rt;
            count == case.steps.len() && count > 0,
            "{name}: step {count}"
        );
    }
}
