//! The stored edits of a tree, one by one.

ghost use Rattle.std.specs.Prelude.{◌≡◌, ◌≤◌, [], IfSome, Some, find, option_map, slice_get, take};
ghost use Rattle.hub_model.specs.Journal.{edits_of};
ghost use Rattle.hub_model.specs.Walk.{is_head};
ghost use Rattle.hub_revtree.specs.Extend.{path_to};
ghost use Rattle.hub_revtree.specs.Tree.{tip, tip_of};

use crate::stem::Stem;
use crate::tree::RevTree;
use hub_document::{Body, RevId};

/// An edit that a tree has. `RevTree::path` gives its revision and all revisions that stand behind it by now.
/// The edit's own path is the first `count` of these.
#[derive(Clone, Copy, Debug)]
pub struct StoredEdit<'a> {
    /// The edit's revision.
    pub rev: RevId,
    /// Whether the edit deletes the document.
    pub deleted: bool,
    /// The edit's members.
    pub body: &'a Body,
    /// How many revisions the edit's path has.
    pub count: u16,
}

// The edit of a stem, with this revision as its head.
fn stored(stem: &Stem, rev: RevId) -> StoredEdit<'_>
    ensures rev { result.rev ≡ rev }
    ensures deleted { result.deleted ≡ stem.now.deleted }
    ensures body { result.body.now ≡ stem.now.body }
    ensures count { result.count ≡ stem.now.count }
{
    StoredEdit {
        rev,
        deleted: stem.mark().deleted(),
        body: stem.body(),
        count: stem.count(),
    }
}

impl RevTree {
    /// The edit of this number, from 0 in the order in which the edits came. Constant time.
    pub fn edit(&self, at: usize) -> Option<StoredEdit<'_>>
        ensures tip { option_map (λ e. tip e.rev e.deleted e.body.now) result
            ≡ option_map tip_of (slice_get self.now.edits at) }
        ensures path { option_map (λ e. option_map (take e.count) (path_to self.now.edits e.rev)) result
            ≡ option_map (λ e. Some e.path) (slice_get self.now.edits at) }
        ensures some { IfSome result (λ e. 1 ≤ e.count) }
    {
        let stem = self.branches().stems().as_slice().get(at)?;
        Some(stored(stem, stem.head()))
    }

    /// The edit that the revision heads; None where it heads none. An ancestor heads none that came inside
    /// another edit's path alone. One find.
    pub fn headed(&self, rev: &RevId) -> Option<StoredEdit<'_>>
        ensures tip { option_map (λ e. tip e.rev e.deleted e.body.now) result
            ≡ option_map tip_of (find (is_head rev.now) (edits_of self.now.edits [])) }
        ensures path { option_map (λ e. option_map (take e.count) (path_to self.now.edits e.rev)) result
            ≡ option_map (λ e. Some e.path) (find (is_head rev.now) (edits_of self.now.edits [])) }
    {
        let stem = self.branches().headed(rev)?;
        Some(stored(stem, *rev))
    }
}
