//! Random edits of one document. Histories are parts of larger ones and come in any order. Edits that are
//! made here come between them.

ghost use Rattle.std.specs.Prelude.{◌<◌};

use super::model::Model;
use super::texts::{hash_of, put_doc};
use hub_document::{Doc, RevId};
use std::alloc::{AllocError, Global};
use std::test::Fail;

/// A linear congruential generator.
#[derive(Clone, Copy)]
pub(super) struct Random {
    pub(super) state: u64,
}

impl Random {
    /// The next random number, below `end`.
    pub(super) fn below(&mut self, end: u64) -> u64
        requires { 0 < end }
        ensures { result < end }
    {
        self.state = self
            .state
            .wrapping_mul(6_364_136_223_846_793_005)
            .wrapping_add(1_442_695_040_888_963_407);
        self.state / 4_294_967_296 % end
    }
}

/// Appends the revision of a generation, with one of three hashes, to a history. Generation 0 adds nothing.
pub(super) fn push(
    line: &mut Vec<RevId>,
    alloc: Global,
    generation: u64,
    hash: u64,
) -> Result<(), AllocError> {
    let hash = if hash == 0 {
        "a"
    } else if hash == 1 {
        "b"
    } else {
        "c"
    };
    let text = format!(in alloc; "{generation}-{hash}")?;
    if let Some(rev) = RevId::read(text.as_str()) {
        line.push(rev)?;
    }
    Ok(())
}

// Appends a part of the tree of this salt to a history: a revision and some of its ancestors. About one
// ancestor in 20 has a random hash.
fn put_part(
    line: &mut Vec<RevId>,
    alloc: Global,
    random: &mut Random,
    salt: u64,
) -> Result<(), AllocError> {
    let mut generation = random.below(6) + 1;
    let mut hash = random.below(3);
    for _ in 0..random.below(generation) + 1 {
        push(line, alloc, generation, hash)?;
        let number = generation.wrapping_mul(3).wrapping_add(hash);
        hash = salt.wrapping_mul(number) / 65_536 % 3;
        if random.below(20) == 0 {
            hash = random.below(3);
        }
        generation = generation.saturating_sub(1);
    }
    Ok(())
}

// Fills an empty history: with a part of the tree, or with a child of the leaf and some of its ancestors.
fn put_history(
    line: &mut Vec<RevId>,
    alloc: Global,
    random: &mut Random,
    model: &Model,
    leaf: &Option<RevId>,
) -> Result<(), AllocError> {
    let Some(leaf) = leaf else {
        return put_part(line, alloc, random, model.salt);
    };
    if random.below(3) > 0 {
        return put_part(line, alloc, random, model.salt);
    }
    let next = u64::from(leaf.generation()).saturating_add(1);
    push(line, alloc, next, random.below(3))?;
    let behind = model.line(alloc, leaf)?;
    let count = behind.len().min(random.below(8) as usize);
    line.extend_from_slice(&behind.as_slice()[..count])
}

// The text of a document whose revision is made here, as a child of this revision or of none.
fn draft(
    alloc: Global,
    id: &str,
    rev: &Option<RevId>,
    deleted: bool,
    members: &str,
) -> Result<String, AllocError> {
    match rev {
        Some(rev) => {
            let (generation, hash) = (rev.generation(), hash_of(rev));
            format!(in alloc;
                r#"{{"_id":"{id}","_rev":"{generation}-{hash}","_deleted":{deleted},{members}"#
            )
        }
        None => format!(in alloc; r#"{{"_id":"{id}","_deleted":{deleted},{members}"#),
    }
}

// Appends the revision that a draft would make here to a history, if it would make one.
fn put_made(line: &mut Vec<RevId>, alloc: Global, model: &Model, draft: &str) -> Result<(), Fail> {
    let doc = Doc::read(alloc, draft.as_bytes(), true)?;
    if let Some(rev) = model.made(alloc, &doc)? {
        line.push(rev)?;
    }
    Ok(())
}

// A random leaf, if there is one.
fn some_leaf(
    alloc: Global,
    random: &mut Random,
    model: &Model,
) -> Result<Option<RevId>, AllocError> {
    let leaves = model.leaves(alloc)?;
    let place = random.below((leaves.len() as u64).max(1)) as usize;
    Ok(leaves.get(place).copied())
}

// Fills an empty history for a document of a kind. It stays empty where the revision is to be made here.
fn put_line(
    line: &mut Vec<RevId>,
    alloc: Global,
    random: &mut Random,
    model: &Model,
    kind: u64,
    leaf: &Option<RevId>,
    draft: &str,
) -> Result<(), Fail> {
    if kind == 4 {
        return put_made(line, alloc, model, draft);
    }
    if kind > 4 {
        put_history(line, alloc, random, model, leaf)?;
    }
    Ok(())
}

/// Writes the next document, and tells whether its revision is to be made here. Now and then the document
/// comes from another database with the very revision that would be made here, and without ancestors.
pub(super) fn next(
    alloc: Global,
    random: &mut Random,
    model: &Model,
    out: &mut String,
) -> Result<bool, Fail> {
    let leaf = some_leaf(alloc, random, model)?;
    let members = if random.below(2) == 0 {
        "\"v\":0}"
    } else {
        "\"v\":1}"
    };
    let deleted = random.below(3) == 0;
    let kind = random.below(9);
    let named = match kind {
        0 => None,
        1 => RevId::read("2-a"),
        _ => leaf,
    };
    let id = model.id.as_str();
    let draft = draft(alloc, id, &named, deleted, members)?;
    let mut line = Vec::new(alloc);
    put_line(&mut line, alloc, random, model, kind, &leaf, draft.as_str())?;
    if line.is_empty() {
        out.push_str(draft.as_str())?;
        return Ok(true);
    }
    put_doc(out, id, line.as_slice(), deleted, members)?;
    Ok(false)
}
