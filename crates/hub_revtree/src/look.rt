//! Questions to a tree.

ghost use Rattle.std.specs.Prelude.{◌≡◌, [], IfOk, OnErr, filter, find, nat_lt, option_map};
ghost use Rattle.hub_model.specs.Journal.{IsKnown};
ghost use Rattle.hub_model.specs.Leaves.{leaves_of, revisions_of};
ghost use Rattle.hub_model.specs.Missing.{unknown_revisions as missing_from, possible_ancestors as ancestors_from};
ghost use Rattle.hub_model.specs.Walk.{is_head};
ghost use Rattle.hub_revtree.specs.Extend.{path_to};

use crate::branches::{highest_unnamed, unnamed};
use crate::leaf::{best_leaves, has_leaf_below, revisions};
use crate::tree::RevTree;
use hub_document::{Body, Path, RevId, Revisions};
use std::alloc::{AllocError, Global};

// The revisions of a generation below this one, in the same order.
fn below(alloc: Global, revs: &[RevId], generation: u16) -> Result<Vec<RevId>, AllocError>
    ensures { IfOk result (λ found. found.items ≡ filter (λ r. nat_lt r.generation generation) revs.now) }
{
    revs.iter()
        .copied()
        .filter(|rev| rev.generation() < generation)
        .collect(alloc)
}

impl RevTree {
    /// The leaves, best first. One step for each edit, and a sort of the leaves: their number times its
    /// logarithm.
    pub fn leaves(&self, alloc: Global) -> Result<Revisions, AllocError>
        ensures ok { IfOk result (λ revs. revs ≡ revisions_of (leaves_of self.now.edits [])) }
        ensures memory { OnErr result (¬ (self.now.edits ≡ [])) }
    {
        if self.is_empty() {
            return Ok(Revisions::new(Vec::new(alloc)));
        }
        let leaves = best_leaves(alloc, self.branches())?;
        let revs = revisions(alloc, leaves.as_slice())?;
        Ok(Revisions::new(revs))
    }

    /// A known revision and all revisions behind it, in memory of just their size; None of an unknown
    /// revision. The cost is two finds, the path's length, and at each join of the path two looks for the
    /// stem that goes on. Such a look is two looks in the index, or without an index one at each edit.
    pub fn path(&self, alloc: Global, rev: &RevId) -> Result<Option<Path>, AllocError>
        ensures ok { IfOk result (λ path. path ≡ path_to self.now.edits rev.now) }
        ensures memory { OnErr result (IsKnown self.now.edits [] rev.now) }
    {
        let branches = self.branches();
        let count = branches.line_length(rev);
        if count == 0 {
            return Ok(None);
        }
        let mut revisions = Vec::with_capacity(alloc, usize::from(count))?;
        branches.append_line(rev, &mut revisions)?;
        Ok(Some(Path::new(revisions)))
    }

    /// The members of the edit that the revision heads; None where it heads none. An ancestor heads none that
    /// came inside another edit's path alone. One find.
    pub fn body(&self, rev: &RevId) -> Option<&Body>
        ensures { option_map (λ b. b.now) result
            ≡ option_map (λ e. e.body) (find (is_head rev.now) self.now.edits) }
    {
        match self.branches().headed(rev) {
            Some(stem) => Some(stem.body()),
            None => None,
        }
    }

    /// The unknown ones of these revisions, in the same order. The cost is that of `knows` for each.
    pub fn missing(&self, alloc: Global, revs: &[RevId]) -> Result<Revisions, AllocError>
        ensures ok { IfOk result (λ found. found ≡ missing_from self.now.edits [] revs.now) }
        ensures memory { OnErr result (¬ (missing_from self.now.edits [] revs.now ≡ [])) }
    {
        let found = unnamed(alloc, self.branches(), revs)?;
        Ok(Revisions::new(found))
    }

    /// The leaves of a generation below the greatest missing one of these revisions, best first. Each may be
    /// an ancestor of a missing revision. The cost is that of `missing` and `leaves`. Memory is taken only
    /// where there is such a leaf.
    pub fn possible_ancestors(&self, alloc: Global, revs: &[RevId]) -> Result<Revisions, AllocError>
        ensures ok { IfOk result (λ found. found ≡ ancestors_from self.now.edits [] revs.now) }
        ensures memory { OnErr result (¬ (ancestors_from self.now.edits [] revs.now ≡ [])) }
    {
        let branches = self.branches();
        let newest = highest_unnamed(branches, revs);
        if !has_leaf_below(branches, newest) {
            return Ok(Revisions::new(Vec::new(alloc)));
        }
        let leaves = self.leaves(alloc)?;
        let found = below(alloc, leaves.as_slice(), newest)?;
        Ok(Revisions::new(found))
    }
}
