//! Feeds over a plain list of edits.
//!
//! The rows of these edits take no memory. A list of ids takes memory, and is made again where it finds none.

ghost use Rattle.std.specs.Prelude.{length};
ghost use Rattle.hub_feed_tests.specs.Edits.{IsWithin};

mod edits;

use edits::{Edits, Shown};
use hub_feed::{FeedState, Next, Source};
use hub_filter::{DocIds, Filter};
use hub_model::{Item, Mode, Since, Style};
use hub_params::FeedParams;
use std::alloc::{AllocError, Global};
use std::fmt::Debug;
use std::process::Abort;
use std::test::Fail;

// Fails unless the value found is the wanted value. The comparison is proved here, and not in each test.
fn same<T: PartialEq + Debug>(rt: &impl Abort, found: &T, wanted: &T) {
    assert_eq!(rt; *found, *wanted);
}

// The answer of a feed in one step.
#[derive(Clone, Copy, Debug, PartialEq, Eq)]
enum Step {
    Row(Shown),
    Beat,
    End(u64, u64),
    Nothing,
    Gone,
}

// Parameters of a feed that shows every document.
fn params(mode: Mode, since: Since, limit: Option<u64>) -> FeedParams {
    FeedParams {
        mode,
        since,
        limit,
        descending: false,
        style: Style::AllDocs,
        include_docs: true,
        filter: Filter::All,
        heartbeat: None,
        timeout: 60_000,
    }
}

// A row, as `params` asks for it.
fn row(seq: u64) -> Step {
    Step::Row(Shown {
        seq,
        style: Style::AllDocs,
        include_docs: true,
    })
}

fn step_of(item: &Item<Shown>) -> Step {
    match item {
        Item::Row(shown) => Step::Row(*shown),
        Item::Beat => Step::Beat,
        Item::End { last_seq, pending } => Step::End(*last_seq, *pending),
    }
}

fn next_step_of(next: &Next<Shown>) -> Step {
    match next {
        Next::Give(item) => step_of(item),
        Next::Nothing => Step::Nothing,
        Next::Gone => Step::Gone,
    }
}

// A feed that is opened on the edits.
fn begin(params: FeedParams, edits: &Edits) -> FeedState
    ensures { IsWithin result (length edits.now.ids.now) }
{
    FeedState::begin(params, edits.length(), edits.life())
}

// The next step of the feed, without taking it.
fn look(feed: &mut FeedState, edits: &Edits) -> Result<Step, AllocError>
    requires { IsWithin feed.old (length edits.now.ids.now) }
    ensures { IsWithin feed.new (length edits.now.ids.now) }
{
    let next = feed.next_item(edits)?;
    Ok(next_step_of(&next))
}

// Takes the next step of the feed.
fn take(feed: &mut FeedState, edits: &Edits) -> Result<Step, AllocError>
    requires { IsWithin feed.old (length edits.now.ids.now) }
    ensures { IsWithin feed.new (length edits.now.ids.now) }
{
    let next = feed.next_item(edits)?;
    let step = next_step_of(&next);
    if let Next::Give(item) = &next {
        feed.accept_item(edits, item);
    }
    Ok(step)
}

// The feed hands these steps, one after the other. Each is looked at before it is taken.
fn walk(rt: &impl Abort, feed: &mut FeedState, edits: &Edits, wanted: &[Step]) -> Result<(), Fail>
    requires { IsWithin feed.old (length edits.now.ids.now) }
    ensures { IsWithin feed.new (length edits.now.ids.now) }
{
    for step in wanted {
        let looked = look(feed, edits)?;
        let taken = take(feed, edits)?;
        same(rt, &(looked, taken), &(*step, *step));
    }
    Ok(())
}

// Three documents in five edits.
const THREE: Edits = Edits {
    ids: &[None, Some("a"), Some("_design/b"), None, Some("c")],
};

#[test]
fn a_normal_feed_shows_what_is_there(rt: HostRuntime) -> Result<(), Fail> {
    let mut feed = begin(params(Mode::Normal, Since::Plain(0), None), &THREE);
    walk(
        &rt,
        &mut feed,
        &THREE,
        &[
            row(2),
            row(3),
            row(5),
            Step::End(5, 0),
            Step::Gone,
            Step::Gone,
        ],
    )
}

#[test]
fn since_and_limit_cut_a_feed(rt: HostRuntime) -> Result<(), Fail> {
    let ended = Step::End(5, 0);
    for (since, limit, first, second) in [
        (Since::Plain(1), Some(1), row(2), Step::End(2, 2)),
        (Since::Plain(2), Some(1), row(3), Step::End(3, 1)),
        (Since::Plain(2), Some(0), row(3), Step::End(3, 1)),
        (Since::Plain(3), Some(1), row(5), Step::End(5, 0)),
        (Since::Plain(3), None, row(5), ended),
        (Since::Plain(5), None, ended, Step::Gone),
        (Since::Plain(6), None, ended, Step::Gone),
        (Since::Plain(u64::MAX), Some(1), ended, Step::Gone),
        (Since::Now, None, ended, Step::Gone),
        (Since::Tagged(2, 4), Some(1), row(3), Step::End(3, 1)),
        (Since::Tagged(6, 4), None, ended, Step::Gone),
        (Since::Tagged(2, 7), Some(1), row(2), Step::End(2, 2)),
        (Since::Tagged(u64::MAX, 0), Some(1), row(2), Step::End(2, 2)),
    ] {
        let mut feed = begin(params(Mode::Normal, since, limit), &THREE);
        walk(&rt, &mut feed, &THREE, &[first, second, Step::Gone])?;
    }
    Ok(())
}

// A list of ids, in this order; an error out of memory.
fn list_of(alloc: Global, ids: &[&str]) -> Result<DocIds, AllocError> {
    let mut texts = Vec::new(alloc);
    for id in ids {
        texts.push(String::from_str(alloc, id)?)?;
    }
    Ok(DocIds::new(texts))
}

// A list of ids, in this order, made again where it finds no memory.
fn listed(alloc: Global, ids: &[&str]) -> Result<DocIds, AllocError> {
    match list_of(alloc, ids) {
        Ok(list) => Ok(list),
        Err(AllocError) => list_of(alloc, ids),
    }
}

#[test]
fn a_limit_counts_rows_that_pass(rt: HostRuntime) -> Result<(), Fail> {
    let mut asked = params(Mode::Normal, Since::Plain(0), Some(1));
    asked.filter = Filter::Design;
    let mut feed = begin(asked, &THREE);
    walk(
        &rt,
        &mut feed,
        &THREE,
        &[row(3), Step::End(3, 1), Step::Gone],
    )?;

    let mut asked = params(Mode::Normal, Since::Plain(0), Some(2));
    asked.filter = Filter::DocIds(listed(rt.alloc(), &["c", "x"])?);
    let mut feed = begin(asked, &THREE);
    walk(
        &rt,
        &mut feed,
        &THREE,
        &[row(5), Step::End(5, 0), Step::Gone],
    )
}

#[test]
fn a_longpoll_feed_waits_for_a_row(rt: HostRuntime) -> Result<(), Fail> {
    let two = Edits {
        ids: &[None, Some("a")],
    };
    let six = Edits {
        ids: &[None, Some("a"), Some("b"), Some("c"), Some("d"), Some("e")],
    };
    let mut feed = begin(params(Mode::Longpoll, Since::Now, None), &two);
    walk(&rt, &mut feed, &two, &[Step::Nothing, Step::Nothing])?;
    walk(&rt, &mut feed, &THREE, &[row(3)])?;
    walk(
        &rt,
        &mut feed,
        &six,
        &[row(4), row(5), Step::End(5, 1), Step::Gone],
    )
}

#[test]
fn a_continuous_feed_goes_on(rt: HostRuntime) -> Result<(), Fail> {
    let none = Edits { ids: &[] };
    let mut asked = params(Mode::Continuous, Since::Plain(0), None);
    asked.heartbeat = Some(1_000);
    let mut feed = begin(asked, &none);
    walk(&rt, &mut feed, &none, &[Step::Nothing])?;
    walk(
        &rt,
        &mut feed,
        &THREE,
        &[row(2), row(3), row(5), Step::Nothing],
    )?;
    same(&rt, &feed.beat_due(), &true);
    feed.expire();
    same(&rt, &feed.beat_due(), &false);
    walk(&rt, &mut feed, &THREE, &[Step::End(5, 0), Step::Gone])?;
    same(&rt, &feed.beat_due(), &false);
    Ok(())
}

#[test]
fn nothing_moves_a_feed_to_the_end(rt: HostRuntime) -> Result<(), Fail> {
    let mut asked = params(Mode::Continuous, Since::Plain(0), None);
    asked.filter = Filter::Design;
    let mut feed = begin(asked, &THREE);
    walk(&rt, &mut feed, &THREE, &[row(3), Step::Nothing])?;
    feed.expire();
    walk(&rt, &mut feed, &THREE, &[Step::End(5, 0), Step::Gone])
}

#[test]
fn feeds_end_at_their_places(rt: HostRuntime) -> Result<(), Fail> {
    for mode in [Mode::Normal, Mode::Longpoll, Mode::Continuous] {
        let mut feed = begin(params(mode, Since::Plain(0), None), &THREE);
        walk(&rt, &mut feed, &THREE, &[row(2)])?;
        same(&rt, &feed.beat_due(), &false);
        feed.end();
        walk(&rt, &mut feed, &THREE, &[Step::End(2, 2), Step::Gone])?;
    }
    Ok(())
}

#[test]
fn only_feeds_that_wait_expire(rt: HostRuntime) -> Result<(), Fail> {
    for (mode, second) in [
        (Mode::Normal, row(3)),
        (Mode::Longpoll, Step::End(2, 2)),
        (Mode::Continuous, Step::End(2, 2)),
    ] {
        let mut asked = params(mode, Since::Plain(0), None);
        asked.heartbeat = Some(1_000);
        let mut feed = begin(asked, &THREE);
        walk(&rt, &mut feed, &THREE, &[row(2)])?;
        same(&rt, &feed.beat_due(), &(mode != Mode::Normal));
        feed.expire();
        walk(&rt, &mut feed, &THREE, &[second])?;
    }
    Ok(())
}
