//! Filters on ids, and their copies.
//!
//! Any one growth of a list or a copy may be refused. A call whose growth is refused fails, and is made
//! again. The second call gives the answer that it gives with ample memory.

use crate::{DocIds, Filter};
use std::alloc::{AllocError, Global};
use std::test::Fail;

// The ids, in this order, where memory is found.
fn list_of(alloc: Global, ids: &[&str]) -> Result<DocIds, AllocError> {
    let mut texts = Vec::new(alloc);
    for id in ids {
        texts.push(String::from_str(alloc, id)?)?;
    }
    Ok(DocIds::new(texts))
}

// The ids, in this order, made again where no memory is found.
fn listed(alloc: Global, ids: &[&str]) -> Result<DocIds, AllocError> {
    match list_of(alloc, ids) {
        Ok(list) => Ok(list),
        Err(AllocError) => list_of(alloc, ids),
    }
}

// A copy of a filter, made again where no memory is found.
fn copy_of(alloc: Global, filter: &Filter) -> Result<Filter, AllocError> {
    match filter.copy(alloc) {
        Ok(copy) => Ok(copy),
        Err(AllocError) => filter.copy(alloc),
    }
}

#[test]
fn every_document_passes(rt: HostRuntime) -> Result<(), Fail> {
    for id in ["", "a", "_design", "_design/x", "_local/x"] {
        assert!(rt; Filter::All.passes(id), "at {id}");
    }
    Ok(())
}

#[test]
fn design_documents_pass(rt: HostRuntime) -> Result<(), Fail> {
    for (id, wanted) in [
        ("_design/x", true),
        ("_design/", true),
        ("_design//", true),
        ("_design", false),
        ("_designx", false),
        ("_designx/", false),
        ("a_design/x", false),
        ("_Design/x", false),
        ("a", false),
        ("", false),
    ] {
        assert_eq!(rt; Filter::Design.passes(id), wanted, "at {id}");
    }
    Ok(())
}

#[test]
fn listed_documents_pass(rt: HostRuntime) -> Result<(), Fail> {
    let alloc = rt.alloc();
    let ids = listed(alloc, &["b", "ab", "_design/x", "a", "é", "b"])?;
    let filter = Filter::DocIds(ids);
    let copy = copy_of(alloc, &filter)?;
    for (id, wanted) in [
        ("a", true),
        ("ab", true),
        ("b", true),
        ("é", true),
        ("_design/x", true),
        ("_design/", false),
        ("abc", false),
        ("ba", false),
        ("B", false),
        ("c", false),
        ("", false),
    ] {
        assert_eq!(rt; filter.passes(id), wanted, "at {id}");
        assert_eq!(rt; copy.passes(id), wanted, "of the copy at {id}");
    }
    Ok(())
}

#[test]
fn an_empty_list_passes_none(rt: HostRuntime) -> Result<(), Fail> {
    let alloc = rt.alloc();
    let filter = Filter::DocIds(listed(alloc, &[])?);
    for id in ["", "a", "_design/x"] {
        assert!(rt; !filter.passes(id), "at {id}");
        let copy = copy_of(alloc, &filter)?;
        assert!(rt; !copy.passes(id), "of the copy at {id}");
    }
    Ok(())
}

#[test]
fn long_lists_are_searched(rt: HostRuntime) -> Result<(), Fail> {
    let alloc = rt.alloc();
    // The even numbers below 4,000, from the greatest, each by its decimal text.
    let mut texts = Vec::new(alloc);
    for step in 0u32..2000 {
        let number = 3998 - 2 * step;
        texts.push(format!(in alloc; "{number}")?)?;
    }
    let ids = DocIds::new(texts);
    let copy = ids.copy(alloc)?;
    for number in 0u32..4100 {
        let id = format!(in alloc; "{number}")?;
        let wanted = number < 4000 && number % 2 == 0;
        assert_eq!(rt; ids.contains(id.as_str()), wanted, "at {id}");
        assert_eq!(rt; copy.contains(id.as_str()), wanted, "of the copy at {id}");
    }
    Ok(())
}

#[test]
fn copies_keep_their_kind(rt: HostRuntime) -> Result<(), Fail> {
    let alloc = rt.alloc();
    assert!(rt; matches!(Filter::All.copy(alloc)?, Filter::All));
    assert!(rt; matches!(Filter::Design.copy(alloc)?, Filter::Design));
    assert!(rt; Filter::All.copy(alloc)?.passes("a"));
    assert!(rt; !Filter::Design.copy(alloc)?.passes("a"));
    assert!(rt; Filter::Design.copy(alloc)?.passes("_design/a"));
    Ok(())
}
