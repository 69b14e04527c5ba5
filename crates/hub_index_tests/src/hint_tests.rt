//! Guesses of the numbers of ids, compared with the ids.

use crate::ids::Ids;
use crate::tests::same;
use hub_index::IdHints;
use std::alloc::{AllocError, Global};
use std::test::Fail;

// Adds an id under the next number, which is `number`.
fn add(ids: &mut Ids, hints: &mut IdHints, number: u32, id: String) -> Result<(), AllocError> {
    hints.remember(id.as_str(), number);
    ids.list.push(id)?;
    Ok(())
}

// So many ids in order, each of them a text of digits, and their hints.
fn ids_of(alloc: Global, count: u32) -> Result<(Ids, IdHints), AllocError> {
    let mut ids = Ids {
        list: Vec::new(alloc),
    };
    let mut hints = IdHints::new(alloc);
    for number in 0..count {
        let id = format!(in alloc; "{:05}", number)?;
        add(&mut ids, &mut hints, number, id)?;
    }
    Ok((ids, hints))
}

// The ids of a text, with blanks between them, and their hints.
fn listed(alloc: Global, texts: &str) -> Result<(Ids, IdHints), AllocError> {
    let (mut ids, mut hints) = ids_of(alloc, 0)?;
    let mut number = 0u32;
    for text in texts.split(" ") {
        add(&mut ids, &mut hints, number, String::from_str(alloc, text)?)?;
        number = number.saturating_add(1);
    }
    Ok((ids, hints))
}

// How many of the ids are found under their own numbers.
fn found(ids: &Ids, hints: &IdHints) -> usize {
    let mut count = 0usize;
    let mut number = 0u32;
    for id in &ids.list {
        if hints.find(ids, id.as_str()) == Some(number) {
            count = count.saturating_add(1);
        }
        number = number.saturating_add(1);
    }
    count
}

// Whether, beside so many ids, no id is found for the text of a greater number, nor for an empty text.
fn finds_no_other(alloc: Global, count: u32) -> Result<bool, AllocError> {
    let (ids, hints) = ids_of(alloc, count)?;
    let mut found = hints.find(&ids, "").is_some();
    for number in count..9999u32 {
        let id = format!(in alloc; "{:05}", number)?;
        found = found || hints.find(&ids, id.as_str()).is_some();
    }
    Ok(!found)
}

#[test]
fn another_id_is_not_found(rt: HostRuntime) -> Result<(), Fail> {
    assert!(rt; finds_no_other(rt.alloc(), 0)?, "of none");
    assert!(rt; finds_no_other(rt.alloc(), 1000)?, "of many");
    Ok(())
}

#[test]
fn most_are_found_after_growth(rt: HostRuntime) -> Result<(), Fail> {
    for count in [1u32, 7, 8, 9, 1000, 4095, 4096, 5000] {
        let (ids, hints) = ids_of(rt.alloc(), count)?;
        let all = ids.list.len();
        assert!(rt; found(&ids, &hints) >= all - all / 20, "of {count}");
    }
    Ok(())
}

// Texts whose hashes all begin at the same one of 32 slots.
const COLLIDING: &str = "00001 00007 00009 00010 00012 00014 00017 00024 00031 00032 00033 00038";

#[test]
fn of_ids_that_collide_each_place_has_one(rt: HostRuntime) -> Result<(), Fail> {
    let (ids, hints) = listed(rt.alloc(), COLLIDING)?;
    same(&rt, &found(&ids, &hints), &8);
    same(&rt, &hints.find(&ids, "00001"), &None);
    same(&rt, &hints.find(&ids, "00007"), &Some(1));
    same(&rt, &hints.find(&ids, "00038"), &Some(11));
    Ok(())
}

#[test]
fn a_number_of_another_id_is_not_given(rt: HostRuntime) -> Result<(), Fail> {
    let (ids, mut hints) = ids_of(rt.alloc(), 4)?;
    hints.remember("00007", 3);
    same(&rt, &hints.find(&ids, "00007"), &None);
    same(&rt, &hints.find(&ids, "00003"), &Some(3));
    Ok(())
}
