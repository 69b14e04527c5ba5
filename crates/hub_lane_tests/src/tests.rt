//! The answers of the two ends of a lane, in one thread and in two.
//!
//! Any one growth may be refused, also that of a thread. The refused call is an error, and is made again.

ghost use Rattle.std.specs.Prelude.{◌≡◌, ◌<◌, ◌≤◌};

use hub_lane::{Asks, Full, Kept, Lane, Receiver, Sender};
use std::alloc::{AllocError, Global};
use std::fmt::Debug;
use std::process::Abort;
use std::sync::Wait;
use std::test::Fail;
use std::thread;

// Fails unless the value found is the wanted value. The comparison is proved here, and not in each test.
fn same<T: PartialEq + Debug>(rt: &impl Abort, found: &T, wanted: &T) {
    assert_eq!(rt; *found, *wanted);
}

// A label that allows numbers below its limit.
#[derive(Drop)]
struct Below {
    limit: u64,
}

impl Kept<u64> for Below {
    ghost use Rattle.std.specs.Prelude.{◌<◌, All};

    ghost allows = { λ l numbers. All (λ n. n < l.limit) numbers };
}

// The two ends of an empty lane for so many numbers below a limit. The lane is made again where it finds no
// memory.
fn lane(
    alloc: Global,
    capacity: usize,
    limit: u64,
) -> Result<(Sender<Below, u64>, Receiver<Below, u64>), AllocError>
    requires { 0 < capacity }
{
    match Lane::new(alloc, capacity, Below { limit }) {
        Ok(ends) => Ok(ends),
        Err(AllocError) => Lane::new(alloc, capacity, Below { limit }),
    }
}

// The number that comes back from a push; None where it was sent. A number that the label does not allow
// comes back without a push.
fn push_below<R: Asks<Below, u64>>(
    rt: &R,
    sender: &mut Sender<Below, u64>,
    number: u64,
) -> Option<u64> {
    if number >= sender.label().limit {
        return Some(number);
    }
    match sender.push(rt, number) {
        Ok(()) => None,
        Err(Full(number)) => Some(number),
    }
}

// A push of a number, or a take where there is no number; and the number that comes back or is taken.
type Step = (Option<u64>, Option<u64>);

// The first step that has another answer, with that answer.
fn first_wrong<R: Asks<Below, u64>>(
    rt: &R,
    sender: &mut Sender<Below, u64>,
    receiver: &mut Receiver<Below, u64>,
    steps: &[Step],
) -> Option<Step> {
    for (push, answer) in steps {
        let found = match push {
            Some(number) => push_below(rt, sender, *number),
            None => receiver.take(rt),
        };
        if found != *answer {
            return Some((*push, found));
        }
    }
    None
}

// Items come in order, each once. A number that finds the lane full comes back.
const LANE_OF_TWO: [Step; 10] = [
    (None, None),
    (Some(7), None),
    (Some(5), None),
    (Some(6), Some(6)),
    (None, Some(7)),
    (Some(6), None),
    (Some(8), Some(8)),
    (None, Some(5)),
    (None, Some(6)),
    (None, None),
];

const LANE_OF_ONE: [Step; 7] = [
    (Some(7), None),
    (Some(5), Some(5)),
    (None, Some(7)),
    (None, None),
    (Some(5), None),
    (None, Some(5)),
    (None, None),
];

#[test]
fn items_come_in_order(rt: HostRuntime) -> Result<(), Fail> {
    let (mut sender, mut receiver) = lane(rt.alloc(), 2, 9)?;
    let wrong = first_wrong(&rt, &mut sender, &mut receiver, &LANE_OF_TWO);
    let limits = (sender.label().limit, receiver.label().limit);
    same(&rt, &(wrong, limits), &(None, (9, 9)));
    Ok(())
}

#[test]
fn one_item_fills_a_lane_of_one(rt: HostRuntime) -> Result<(), Fail> {
    let (mut sender, mut receiver) = lane(rt.alloc(), 1, 8)?;
    let wrong = first_wrong(&rt, &mut sender, &mut receiver, &LANE_OF_ONE);
    same(&rt, &wrong, &None);
    Ok(())
}

// Sends the numbers below the count, each until it is sent.
fn send_all<R: Wait>(rt: &R, mut sender: Sender<Below, u64>, count: u64) {
    let mut next = 0;
    for _ in rt.forever() {
        if next >= count {
            break;
        }
        match push_below(rt, &mut sender, next) {
            None => next += 1,
            Some(_) => thread::yield_now(),
        }
    }
}

// Takes numbers from 0 on, until this many came or another number comes. Answers how many came in order.
fn take_all<R: Wait>(rt: &R, receiver: &mut Receiver<Below, u64>, count: u64) -> u64 {
    let mut next = 0;
    for _ in rt.forever() {
        if next >= count {
            break;
        }
        match receiver.take(rt) {
            Some(number) if number == next => next += 1,
            Some(_) => break,
            None => thread::yield_now(),
        }
    }
    next
}

#[test]
fn items_come_in_order_between_threads(rt: HostRuntime) -> Result<(), Fail> {
    let (sender, mut receiver) = lane(rt.alloc(), 2, 1000)?;
    let child = match thread::spawn(&rt, move || send_all(&rt, sender, 1000)) {
        Ok(child) => child,
        Err(refused) => thread::spawn(&rt, refused.value)?,
    };
    same(&rt, &take_all(&rt, &mut receiver, 1000), &1000);
    child.join(&rt);
    same(&rt, &receiver.take(&rt), &None);
    Ok(())
}
