//! The order of leaves.

ghost use Rattle.std.specs.Prelude.{◌≡◌, ◌<◌, [], Some, length, map, option_and_then};
ghost use Rattle.std.specs.Prelude.{option_map, reverse, slice_get, List, IfOk, IfSome};
ghost use Rattle.std.specs.List.{list_any};
ghost use Rattle.std.specs.Ordering.{is_gt};
ghost use Rattle.hub_model.specs.Revision.{revision_cmp};
ghost use Rattle.hub_model.specs.Leaves.{Leaf, leaf_cmp, leaves_among, leaves_of, best_first, with_leaf};
ghost use Rattle.hub_revtree.specs.Branch.{earlier_branches, edit_of, edits_in};
ghost use Rattle.hub_revtree.specs.Winner.{HasWinner, has_below, head_in};
ghost use Rattle.hub_revtree.specs.Winner.{winner_of, is_better_than, winners_of};

use crate::branches::Branches;
use hub_document::RevId;
use std::alloc::{AllocError, Global};
use std::cmp::Ordering;

/// The revision and the mark of a document's winner, or of another edit's head.
#[derive(Clone, Copy, Debug, PartialEq, Eq)]
pub struct Winner {
    /// The revision.
    pub rev: RevId,
    /// Whether the revision's edit deletes the document.
    pub deleted: bool,
}

/// How revisions compare: the greater generation is above, then the greater hash in the order of its bytes.
pub(crate) fn revision_order(rev: &RevId, other: &RevId) -> Ordering
    ensures { result ≡ revision_cmp rev.now other.now }
{
    rev.generation()
        .cmp(&other.generation())
        .then_with(|| rev.hash().cmp(other.hash()))
}

/// How leaves compare: one that is not deleted is above a deleted one, then the greater revision is above.
pub(crate) fn leaf_order(leaf: &Winner, other: &Winner) -> Ordering
    ensures { result ≡ leaf_cmp leaf.now.deleted leaf.now.rev other.now.deleted other.now.rev }
{
    match (leaf.deleted, other.deleted) {
        (true, false) => Ordering::Less,
        (false, true) => Ordering::Greater,
        _ => revision_order(&leaf.rev, &other.rev),
    }
}

// Whether a leaf is above the best one so far, if there is one.
fn is_better(leaf: &Winner, best: &Option<Winner>) -> bool
    ensures { result ≡ is_better_than leaf.now best.now }
{
    match best {
        Some(best) => leaf_order(leaf, best).is_gt(),
        None => true,
    }
}

/// The number of the best leaf's edit; where there is no leaf, the number of edits. One step for each edit.
pub(crate) fn best_leaf(branches: &Branches) -> usize
    ensures { option_and_then head_in (slice_get branches.now.list result)
        ≡ winner_of (best_first (leaves_among (edits_in branches.now.list) (edits_in branches.now.list))) }
{
    let mut best = None;
    let mut number = branches.len();
    for at in (0..branches.len()).rev() {
        let Some(leaf) = branches.head_if_leaf(at) else {
            continue;
        };
        if !is_better(&leaf, &best) {
            continue;
        }
        best = Some(leaf);
        number = at;
    }
    number
}

// The number of the best leaf's edit by the candidates; None without an index, and out of memory. Each edit
// becomes a candidate once at most, and is given up once, at log n comparisons of revisions each time.
fn best_candidate(branches: &mut Branches) -> Option<usize>
    ensures list { branches.new.list ≡ branches.old.list }
    ensures best { IfSome result (λ best. option_and_then head_in (slice_get branches.old.list best)
        ≡ winner_of (leaves_of (edits_in branches.old.list) [])) }
{
    let mut candidates = branches.take_candidates()?;
    if candidates.add_newer(branches).is_err() {
        return None;
    }
    let best = candidates.best(branches);
    branches.put_candidates(candidates);
    Some(best)
}

// Whether the head of the edit `at` is above that of the edit `other`. No text is made of its hash where it has
// the same mark and a greater generation. Constant time.
fn is_head_above(branches: &Branches, at: usize, other: usize) -> bool
    requires at { at < length branches.now.list }
    requires other { other < length branches.now.list }
    ensures { (w v : Winner) → option_and_then head_in (slice_get branches.now.list at) ≡ Some w
        → option_and_then head_in (slice_get branches.now.list other) ≡ Some v
        → result ≡ is_gt (leaf_cmp w.deleted w.rev v.deleted v.rev) }
{
    let (deleted, generation) = branches.rank(at);
    let (other_deleted, other_generation) = branches.rank(other);
    if deleted == other_deleted && generation > other_generation {
        return true;
    }
    leaf_order(&branches.head(at), &branches.head(other)).is_gt()
}

/// The number of the best leaf's edit, where `best` was that before the newest edit came. Constant time where
/// the newest edit wins, or the winner is not an ancestor of its revision. Else the cost is that of
/// `best_candidate` where the edits have an index, and memory for candidates; and where not, that of
/// `best_leaf`.
pub(crate) fn best_with_newest(branches: &mut Branches, best: usize) -> usize
    requires some { 0 < length branches.old.list }
    requires winner { HasWinner (edits_in (earlier_branches branches.old.list))
        (option_and_then head_in (slice_get (earlier_branches branches.old.list) best)) }
    ensures list { branches.new.list ≡ branches.old.list }
    ensures best { option_and_then head_in (slice_get branches.old.list result)
        ≡ winner_of (leaves_of (edits_in branches.old.list) []) }
{
    let newest = branches.len() - 1;
    if best >= newest {
        return newest;
    }
    if is_head_above(branches, newest, best) {
        return newest;
    }
    if branches.is_head_inner(best) {
        return match best_candidate(branches) {
            Some(best) => best,
            None => best_leaf(branches),
        };
    }
    best
}

// Puts the leaves in order, the best first, as the definition `best_first` does. It sorts in place: the cost
// is their number times its logarithm.
fn put_in_order(leaves: &mut [Winner])
    ensures { (found : List Leaf) → leaves.old ≡ reverse (winners_of found)
        → leaves.new ≡ winners_of (best_first found) }
{
    leaves.sort_unstable_by(|leaf, other| leaf_order(other, leaf));
}

/// The leaves with their marks, best first. One step for each edit, and a sort of the leaves.
pub(crate) fn best_leaves(alloc: Global, branches: &Branches) -> Result<Vec<Winner>, AllocError>
    ensures { IfOk result (λ leaves. leaves.items ≡ winners_of (best_first (leaves_among
        (edits_in branches.now.list) (edits_in branches.now.list)))) }
{
    let mut leaves = Vec::new(alloc);
    for at in (0..branches.len()).rev() {
        let Some(leaf) = branches.head_if_leaf(at) else {
            continue;
        };
        leaves.push(leaf)?;
    }
    put_in_order(leaves.as_mut_slice());
    Ok(leaves)
}

// Whether the head of the edit of this number is a leaf, and of a generation below this one. Constant time.
fn is_leaf_below(branches: &Branches, at: usize, generation: u16) -> bool
    requires { at < length branches.now.list }
    ensures { option_map (λ b.
        has_below generation (with_leaf (edits_in branches.now.list) (edit_of b) b.path []))
        (slice_get branches.now.list at)
        ≡ Some result }
{
    let head = branches.head(at);
    head.rev.generation() < generation && !branches.is_head_inner(at)
}

/// Whether a leaf is of a generation below this one. One step for each edit.
pub(crate) fn has_leaf_below(branches: &Branches, generation: u16) -> bool
    ensures { result ≡ list_any (λ b.
        has_below generation (with_leaf (edits_in branches.now.list) (edit_of b) b.path []))
        branches.now.list }
{
    for at in 0..branches.len() {
        if is_leaf_below(branches, at, generation) {
            return true;
        }
    }
    false
}

/// The revisions of the leaves, in the same order.
pub(crate) fn revisions(alloc: Global, leaves: &[Winner]) -> Result<Vec<RevId>, AllocError>
    ensures { IfOk result (λ revs. revs.items ≡ map (λ w. w.rev) leaves.now) }
{
    leaves.iter().map(|leaf| leaf.rev).collect(alloc)
}
