//! Revisions that may be the best leaf.

ghost use Rattle.std.specs.Prelude.{◌≡◌, ◌<◌, ◌+◌, [], List, Some, length};
ghost use Rattle.std.specs.Prelude.{option_and_then, refl, slice_get, IfOk, OnOk};
ghost use Rattle.std.specs.Ordering.{eq_by_cmp};
ghost use Rattle.std.specs.Cmp.{partial_equiv_from_equiv, partial_order_from_total};
ghost use Rattle.hub_model.specs.Leaves.{leaves_of};
ghost use Rattle.hub_revtree.specs.Branch.{Branch, edits_in};
ghost use Rattle.hub_revtree.specs.Candidate.{candidate_cmp, candidates_level, candidates_total};
ghost use Rattle.hub_revtree.specs.Candidates.{AreCandidates, candidate_of, winner_in};
ghost use Rattle.hub_revtree.specs.Winner.{head_in, winner_of};

use crate::branches::Branches;
use crate::index::kept_number;
use crate::leaf::{Winner, leaf_order};
use crate::run::Run;
use std::alloc::{AllocError, Global};
use std::cmp::Ordering;
use std::collections::BinaryHeap;
use std::marker::Model;
use std::mem::size_of;

// A revision that may be the best leaf, and the number of its edit. It takes 40 bytes, and 68 more where its
// hash is no digest's text.
#[derive(Debug, Drop)]
struct Candidate {
    // A run of the revision alone.
    rev: Run,
    number: u32,
    deleted: bool,
}

const _: () = prove!(size_of::<Candidate>() == 40);

impl Model for Candidate {
    ghost use Rattle.hub_revtree.specs.Candidate.{Candidate};

    ghost Value = { Candidate };

    ghost use Rattle.std.specs.Prelude.{[], slice_get, unwrap_or};
    ghost use Rattle.hub_model.specs.Path.{IsPath};

    ghost view = { λ a. record {
      rev = unwrap_or (slice_get a.rev 0) (record { generation = 0; hash = [] });
      deleted = a.deleted;
      number = a.number;
    } };

    ghost invariant = { λ a. IsPath a.rev };
}

impl Candidate {
    // The candidate of the edit of this number, whose head and mark are `leaf`.
    fn new(alloc: Global, leaf: &Winner, number: u32) -> Result<Candidate, AllocError>
        ensures { IfOk result (λ candidate. candidate ≡ candidate_of number leaf.now) }
    {
        let _from_one = leaf.rev.generation();
        Ok(Candidate {
            rev: Run::front(alloc, &[leaf.rev], 1)?,
            number,
            deleted: leaf.deleted,
        })
    }

    // The candidate's revision and mark.
    fn leaf(&self) -> Winner
        ensures { result ≡ winner_in self.now }
    {
        Winner {
            rev: self.rev.at(0),
            deleted: self.deleted,
        }
    }
}

impl PartialEq for Candidate {
    ghost eq = { eq_by_cmp candidate_cmp };

    ghost laws = { partial_equiv_from_equiv candidates_level };

    fn eq(&self, other: &Candidate) -> bool {
        self.cmp(other).is_eq()
    }
}

impl Eq for Candidate {
    ghost laws = { candidates_level };
}

impl PartialOrd for Candidate {
    ghost partial_cmp = { λ c d. Some (candidate_cmp c d) };

    ghost laws = { partial_order_from_total candidates_total };

    fn partial_cmp(&self, other: &Candidate) -> Option<Ordering> {
        Some(self.cmp(other))
    }
}

impl Ord for Candidate {
    ghost cmp = { candidate_cmp };

    ghost total = { candidates_total };

    ghost matches_partial_cmp = { λ c d. refl };

    ghost matches_eq = { λ c d. refl };

    fn cmp(&self, other: &Candidate) -> Ordering {
        leaf_order(&self.leaf(), &other.leaf())
    }
}

/// The heads of a tree's first edits that were leaves when they were looked at, in the order of leaves.
/// `count` says how many edits those are. A candidate that is no leaf any more stays until it comes to the
/// top. A candidate takes 40 to 80 bytes, and 68 more where its hash is no digest's text.
#[derive(Debug, Drop)]
pub(crate) struct Candidates {
    heap: BinaryHeap<Candidate>,
    /// How many edits were looked at, from the first on.
    count: usize,
}

impl Candidates {
    /// The candidates of no edit. They take no memory.
    pub(crate) fn new(alloc: Global) -> Candidates
        ensures { (branches : List Branch) → AreCandidates branches result }
    {
        Candidates {
            heap: BinaryHeap::new(alloc),
            count: 0,
        }
    }

    /// Looks at all edits that came since the last call. Where an edit's revision is a leaf, it becomes a
    /// candidate. At most log n comparisons of revisions for each.
    pub(crate) fn add_newer(&mut self, branches: &Branches) -> Result<(), AllocError>
        requires { AreCandidates branches.now.list self.old }
        ensures candidates { OnOk result (AreCandidates branches.now.list self.new) }
        ensures all { OnOk result (self.new.count ≡ length branches.now.list) }
    {
        while self.count < branches.len() {
            let at = self.count;
            if let Some(leaf) = branches.head_if_leaf(at) {
                let number = kept_number(at)?;
                let candidate = Candidate::new(*branches.stems().allocator(), &leaf, number)?;
                self.heap.push(candidate)?;
            }
            self.count = at + 1;
        }
        Ok(())
    }

    /// The number of the best leaf's edit, where all edits were looked at; where there is no leaf, the number
    /// of edits. Each candidate above the best leaf is no leaf any more, and is given up, at log n
    /// comparisons of revisions.
    pub(crate) fn best(&mut self, branches: &Branches) -> usize
        requires candidates { AreCandidates branches.now.list self.old }
        requires all { self.old.count ≡ length branches.now.list }
        ensures candidates { AreCandidates branches.now.list self.new }
        ensures best { option_and_then head_in (slice_get branches.now.list result)
            ≡ winner_of (leaves_of (edits_in branches.now.list) []) }
    {
        let edits = branches.len();
        while let Some(top) = self.heap.peek() {
            let number = top.number as usize;
            if !branches.is_head_inner(number) {
                return number;
            }
            drop(self.heap.pop());
        }
        edits
    }
}
