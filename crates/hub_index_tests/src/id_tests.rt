//! Numbers in the order of their ids, compared with a list of the numbers.

ghost use Rattle.std.specs.Prelude.{map, string_bytes, OnOk};
ghost use Rattle.hub_index.specs.Order.{IsOrder};

use crate::ids::{Ids, Looked};
use hub_index::IdOrder;
use std::alloc::{AllocError, Global};
use std::cell::Cell;
use std::test::Fail;

// Adds an id under the next number, unless the id is there.
fn enter(ids: &mut Ids, order: &mut IdOrder, alloc: Global, id: &str) -> Result<(), AllocError>
    requires { IsOrder (map string_bytes ids.old.list.items) order.old }
    ensures { OnOk result (IsOrder (map string_bytes ids.new.list.items) order.new) }
{
    if order.find(ids, id).is_some() {
        return Ok(());
    }
    let Ok(number) = u32::try_from(ids.list.len()) else {
        return Ok(());
    };
    let own = String::from_str(alloc, id)?;
    ids.list.try_reserve(1)?;
    order.insert(ids, number, id)?;
    ids.list.push_reserved(own);
    Ok(())
}

// The text of a number, of four digits.
fn text_of(alloc: Global, number: u64) -> Result<String, AllocError> {
    format!(in alloc; "{:04}", number)
}

// Adds so many ids. Each is the id before it plus a step, modulo 9973. Answers whether each id then has its
// number, and each other text below 9973 has none.
fn agree_by_steps(alloc: Global, count: u32, first: u64, step: u64) -> Result<bool, AllocError> {
    let mut ids = Ids {
        list: Vec::new(alloc),
    };
    let mut order = IdOrder::new(alloc);
    let mut numbers: Vec<Option<u32>> = Vec::new(alloc);
    numbers.resize(9973, None)?;
    let mut at = first;
    for number in 0..count {
        at = at.wrapping_add(step) % 9973;
        if let Some(place) = numbers.get_mut(at as usize)
            && place.is_none()
        {
            *place = Some(number);
            enter(&mut ids, &mut order, alloc, text_of(alloc, at)?.as_str())?;
        }
    }
    let mut agree = order.find(&ids, "").is_none() && order.find(&ids, "a").is_none();
    for tried in 0..9973u64 {
        let found = order.find(&ids, text_of(alloc, tried)?.as_str());
        agree = agree && numbers.get(tried as usize) == Some(&found);
    }
    Ok(agree)
}

// The id of a step. The steps go in turn to two sequences, whose ids follow one another by numbers from
// `first` on. The numbers have no leading zeros, so 10 comes before 9.
fn id_in_turn(alloc: Global, first: u64, step: u64) -> Result<String, AllocError> {
    format!(in alloc; "run-{}-{}", step % 2, first.wrapping_add(step / 2))
}

// Adds the ids of so many steps. Answers whether each had no number before, and then its own.
fn enter_in_turn(
    ids: &mut Ids,
    order: &mut IdOrder,
    alloc: Global,
    first: u64,
    count: u32,
) -> Result<bool, AllocError>
    requires { IsOrder (map string_bytes ids.old.list.items) order.old }
    ensures { OnOk result (IsOrder (map string_bytes ids.new.list.items) order.new) }
{
    let mut agree = true;
    for number in 0..count {
        let id = id_in_turn(alloc, first, u64::from(number))?;
        agree = agree && order.find(ids, id.as_str()).is_none();
        enter(ids, order, alloc, id.as_str())?;
        agree = agree && order.find(ids, id.as_str()) == Some(number);
    }
    Ok(agree)
}

// Adds ids of two sequences in turn. Answers whether each has its number in the end, and the next ids of the
// sequences have none.
fn agree_in_turn(alloc: Global, first: u64, count: u32) -> Result<bool, AllocError> {
    let mut ids = Ids {
        list: Vec::new(alloc),
    };
    let mut order = IdOrder::new(alloc);
    let mut agree = enter_in_turn(&mut ids, &mut order, alloc, first, count)?;
    for number in 0..count {
        let id = id_in_turn(alloc, first, u64::from(number))?;
        agree = agree && order.find(&ids, id.as_str()) == Some(number);
    }
    for step in 0..400u64 {
        let id = id_in_turn(alloc, first, u64::from(count).wrapping_add(step))?;
        agree = agree && order.find(&ids, id.as_str()).is_none();
    }
    Ok(agree)
}

// The number of ids that are looked at to find the next id of one of two sequences, which came in turn. An
// even step is for the first of them, and an odd one for the second.
fn looks_in_turn(alloc: Global, first: u64, count: u32, step: u64) -> Result<u64, AllocError> {
    let mut ids = Ids {
        list: Vec::new(alloc),
    };
    let mut order = IdOrder::new(alloc);
    enter_in_turn(&mut ids, &mut order, alloc, first, count)?;
    let looked = Looked {
        ids: &ids,
        count: Cell::new(0),
    };
    order.find(&looked, id_in_turn(alloc, first, step)?.as_str());
    Ok(looked.count.get())
}

/// An order without ids finds none. Ids are found that came in order, in reverse order, and scattered.
#[test]
fn ids_are_found(rt: HostRuntime) -> Result<(), Fail> {
    assert!(rt; agree_by_steps(rt.alloc(), 0, 0, 3)?, "none");
    assert!(rt; agree_by_steps(rt.alloc(), 1500, 0, 3)?, "rising");
    assert!(rt; agree_by_steps(rt.alloc(), 1500, 9970, 9970)?, "falling");
    assert!(rt; agree_by_steps(rt.alloc(), 3000, 1, 3571)?, "scattered");
    assert!(rt; agree_by_steps(rt.alloc(), 3000, 17, 6133)?, "scattered");
    Ok(())
}

/// Ids of two sequences are found, where they came in turn. The order guesses their places. Their numbers have
/// one length, or pass from 9 to 10 and from 99 to 100. There are enough to halve pages.
#[test]
fn ids_in_turn_are_found(rt: HostRuntime) -> Result<(), Fail> {
    assert!(rt; agree_in_turn(rt.alloc(), 10000, 1600)?, "of one length");
    assert!(rt; agree_in_turn(rt.alloc(), 0, 1600)?, "from 0 on");
    Ok(())
}

/// The next id of a sequence takes few looks at ids, where two sequences came in turn: at most six for the
/// first sequence, and two for the second, whose ids lie above all. An id in the middle takes more.
#[test]
fn the_next_id_takes_few_looks(rt: HostRuntime) -> Result<(), Fail> {
    assert!(rt; looks_in_turn(rt.alloc(), 10000, 1600, 1600)? <= 6, "first");
    assert_eq!(rt; looks_in_turn(rt.alloc(), 10000, 1600, 1601)?, 2, "second");
    assert!(rt; looks_in_turn(rt.alloc(), 10000, 1600, 500)? > 6, "middle");
    Ok(())
}
