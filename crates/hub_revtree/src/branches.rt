//! The stored edits of a document. Each keeps the revisions that it brought, and shares those behind them.

ghost use Rattle.std.specs.Prelude.{◌≡◌, ◌≤◌, ◌<◌, ◌+◌, ◌++◌, ◌∷◌, List, Some, [], ◌-◌, ◌^◌, length, map};
ghost use Rattle.std.specs.Prelude.{min, take, false, find, not, ◌&&◌, option_map, option_and_then};
ghost use Rattle.std.specs.Prelude.{slice_get, IfNone, IfSome, IfOk, OnOk, OnErr, true};
ghost use Rattle.std.specs.List.{list_any};
ghost use Rattle.hex.specs.Hex.{encode_lower};
ghost use Rattle.hub_model.specs.Journal.{IsAcceptable, IsLegal};
ghost use Rattle.hub_model.specs.Leaves.{is_behind_head as stands_behind_head};
ghost use Rattle.hub_model.specs.Missing.{highest as highest_of};
ghost use Rattle.hub_model.specs.Path.{is_first, names};
ghost use Rattle.hub_revtree.specs.Winner.{IsHeadAt, head_in};
ghost use Rattle.hub_revtree.specs.Branch.{edit_of, edits_in, unnamed_in};
ghost use Rattle.hub_revtree.specs.Candidates.{AreCandidates, candidates_in};
ghost use Rattle.hub_revtree.specs.Count.{revision_count as count_of};
ghost use Rattle.hub_revtree.specs.Extend.{line_to};
ghost use Rattle.hub_revtree.specs.Index.{IsIndexed};
ghost use Rattle.hub_revtree.specs.Mark.{AreStemsOf};
ghost use Rattle.hub_revtree.specs.Stem.{Stem, AreStems, branches_of};
ghost use Rattle.hub_revtree.specs.Tree.{nameless, tip, tip_of};

use crate::candidates::Candidates;
use crate::index::{Index, renewed};
use crate::inner::note_inner;
use crate::leaf::Winner;
use crate::line::Line;
use crate::run::Run;
use crate::stem::{Standing, Stem};
use crate::stems::{Meeting, headed, is_newest, new_in};
use hub_document::{Body, DigestRev, RevId};
use std::alloc::{AllocError, Global};
use std::marker::Model;

/// The stored edits, in the order in which they came. An edit keeps the revisions that it brought, and shares
/// those behind them with the edits that brought these. The comment of `RevTree` says the cost of a find.
#[derive(Debug, Drop)]
pub(crate) struct Branches {
    pub(crate) stems: Vec<Stem>,
    /// The highest generation of the stems' revisions; 0 where there is no stem.
    pub(crate) highest: u16,
    /// The index of the stems' revisions, with the newest stem's line; None of fewer than 256 stems, and
    /// where the memory for it was not to be had.
    pub(crate) index: Option<Box<Index>>,
}

impl Model for Branches {
    ghost use Rattle.std.specs.Prelude.{◌-◌, vec_len, vec_capacity, option_map};
    ghost use Rattle.hub_revtree.specs.Stem.{Storage};

    ghost Value = { Storage };

    ghost use Rattle.std.specs.Prelude.{IfSome};
    ghost use Rattle.hub_model.specs.Journal.{IsLegal};
    ghost use Rattle.hub_revtree.specs.Branch.{edits_in};
    ghost use Rattle.hub_revtree.specs.Candidates.{AreCandidates, candidates_in};
    ghost use Rattle.hub_revtree.specs.Index.{IsIndexed};
    ghost use Rattle.hub_revtree.specs.Mark.{AreMarked};
    ghost use Rattle.hub_revtree.specs.Stem.{AreStems, AreUpTo, branches_of};

    ghost view = { λ a.
        record {
          list = branches_of a.stems.items;
          stems = a.stems.items;
          spare = vec_capacity a.stems - vec_len a.stems;
        } };

    ghost invariant = { λ a. AreStems a.stems.items × AreUpTo a.stems.items a.highest
        × IsIndexed (option_map (λ i. i.value) a.index) a.stems.items × AreMarked a.stems.items
        × IfSome (candidates_in (option_map (λ i. i.value) a.index))
        (AreCandidates (branches_of a.stems.items))
        × IsLegal (edits_in (branches_of a.stems.items)) };
}

/// A reference to the index, if there is one.
pub(crate) fn lent(index: &Option<Box<Index>>) -> Option<&Index>
    ensures { option_map (λ i. i.now) result ≡ option_map (λ i. i.value) index.now }
{
    match index {
        Some(index) => Some(index),
        None => None,
    }
}

// The path's first `count` revisions: the run where it has just these, else the path, cut in its own memory.
// Also the digests of a whole path that may be shared. The sharing alone takes new memory.
fn kept(run: Run, path: Run, count: usize) -> (Run, Option<Line>)
    requires some { 1 ≤ count }
    requires within { count ≤ length path }
    requires front { run ≡ take (length run) path }
    ensures run { result.0 ≡ take count path }
    ensures line { IfSome result.1 (λ line. map encode_lower line ≡ map (λ r. r.hash) path) }
{
    if run.len() == count {
        (run, path.into_line())
    } else {
        (path.cut(count), None)
    }
}

// The index without its shared line.
fn without_line(index: Option<Box<Index>>) -> Option<Box<Index>>
    ensures candidates { candidates_in (option_map (λ i. i.value) result)
        ≡ candidates_in (option_map (λ i. i.value) index) }
    ensures index { (stems : List Stem) → IsIndexed (option_map (λ i. i.value) index) stems
        → IsIndexed (option_map (λ i. i.value) result) stems }
{
    match index {
        Some(mut index) => {
            index.line = None;
            Some(index)
        }
        None => None,
    }
}

// How a path of `count` revisions goes on behind the revisions that its stem keeps.
fn standing_of(met: &Meeting, count: usize) -> Standing
    requires kept { met.now.at ≤ count }
    requires short { count < 2 ^ 16 }
    requires reach { met.now.at + met.now.behind < 2 ^ 16 }
    ensures parent { result.parent ≡ met.now.place }
    ensures count { result.count ≡ count }
    ensures reach { result.reach ≡ met.now.at + met.now.behind }
    ensures joins { result.joins ≡ met.now.joins }
{
    Standing {
        parent: met.place,
        count: count as u16,
        reach: (met.at + met.behind) as u16,
        joins: met.joins,
    }
}

impl Branches {
    /// The branches of no edit, without memory for an edit.
    pub(crate) fn new(alloc: Global) -> Branches
        ensures { result.list ≡ [] }
    {
        Branches {
            stems: Vec::new(alloc),
            highest: 0,
            index: None,
        }
    }

    /// The stems of the edits, in the same order. Constant time.
    pub(crate) fn stems(&self) -> &Vec<Stem>
        ensures { AreStemsOf result.now.items self.now.list }
    {
        &self.stems
    }

    /// How many edits there are.
    pub(crate) fn len(&self) -> usize
        ensures length { result ≡ length self.now.list }
        ensures legal { IsLegal (edits_in self.now.list) }
    {
        self.stems.len()
    }

    /// How many different revisions the paths name, up to 2 ^ 64 - 1. One step for each edit. A stem that
    /// joins others costs, for each revision that it keeps, a look at each earlier stem at most.
    pub(crate) fn revision_count(&self) -> usize
        ensures { result ≡ min (count_of (edits_in self.now.list)) (2 ^ 64 - 1) }
    {
        let stems = self.stems.as_slice();
        let mut count = 0usize;
        for number in 0..stems.len() {
            count = count.saturating_add(new_in(stems, number));
        }
        count
    }

    /// The stem of the edit that the revision heads; None where it heads no edit. One find.
    pub(crate) fn headed(&self, rev: &RevId) -> Option<&Stem>
        ensures tip { option_map (λ s. tip rev.now s.now.deleted s.now.body) result
            ≡ option_map (λ b. tip_of (edit_of b)) (find (λ b. is_first rev.now b.path) self.now.list) }
        ensures count { option_map (λ s. s.now.count) result
            ≡ option_map (λ b. length b.path) (find (λ b. is_first rev.now b.path) self.now.list) }
    {
        headed(self.stems.as_slice(), lent(&self.index), rev)
    }

    /// The mark of the edit of this number, and the generation of its revision. Constant time.
    pub(crate) fn rank(&self, at: usize) -> (bool, u16)
        requires { at < length self.now.list }
        ensures { (head : Winner) × (option_and_then head_in (slice_get self.now.list at) ≡ Some head)
            × (result.0 ≡ head.deleted) × (result.1 ≡ head.rev.generation) }
    {
        let stem = &self.stems[at];
        (stem.mark().deleted(), stem.run().generation())
    }

    /// The revision of the edit of this number, and its mark. Constant time.
    pub(crate) fn head(&self, at: usize) -> Winner
        requires { at < length self.now.list }
        ensures { option_and_then head_in (slice_get self.now.list at) ≡ Some result }
    {
        let stem = &self.stems[at];
        Winner {
            rev: stem.head(),
            deleted: stem.mark().deleted(),
        }
    }

    /// The same for an edit whose revision is a leaf; None, and no revision is made, where it stands behind
    /// another edit's head. Constant time.
    pub(crate) fn head_if_leaf(&self, at: usize) -> Option<Winner>
        requires { at < length self.now.list }
        ensures leaf { IfSome result (λ head. IsHeadAt self.now.list at head false) }
        ensures inner { IfNone result ((head : Winner) × IsHeadAt self.now.list at head true) }
    {
        if self.stems[at].mark().is_inner() {
            return None;
        }
        Some(self.head(at))
    }

    /// The revision and the mark of the edit of this number, if there is one. Constant time.
    pub(crate) fn head_if_any(&self, at: usize) -> Option<Winner>
        ensures { result ≡ option_and_then head_in (slice_get self.now.list at) }
    {
        if at < self.len() {
            Some(self.head(at))
        } else {
            None
        }
    }

    /// Whether a path names the revision. One find; constant time above the highest generation of the stems.
    pub(crate) fn is_named(&self, rev: &RevId) -> bool
        ensures { result ≡ list_any (λ b. names b.path rev.now) self.now.list }
    {
        self.place(rev).is_some()
    }

    /// Whether a path has the revision, where its hash is a digest's text. No text is made for a generation above
    /// the highest.
    pub(crate) fn is_digest_named(&self, rev: &DigestRev) -> bool
        ensures { result ≡ list_any (λ b. names b.path rev.now) self.now.list }
    {
        if rev.generation() > self.highest {
            return false;
        }
        self.is_named(&rev.rev())
    }

    /// Whether the revision of the edit of this number stands behind another edit's head. Constant time.
    pub(crate) fn is_head_inner(&self, at: usize) -> bool
        ensures { (w : Winner) → option_and_then head_in (slice_get self.now.list at) ≡ Some w
            → result ≡ list_any (λ b. stands_behind_head w.rev (edit_of b)) self.now.list }
    {
        match self.stems.as_slice().get(at) {
            Some(stem) => stem.mark().is_inner(),
            None => false,
        }
    }

    /// Whether a path names the revision, and the revision stands behind no edit's head. One find.
    pub(crate) fn is_leaf(&self, rev: &RevId) -> bool
        ensures { result ≡ (list_any (λ b. names b.path rev.now) self.now.list
            && not (list_any (λ b. stands_behind_head rev.now (edit_of b)) self.now.list)) }
    {
        match headed(self.stems.as_slice(), lent(&self.index), rev) {
            Some(stem) => !stem.mark().is_inner(),
            None => false,
        }
    }

    /// Whether an edit that is made here shares its path's digests with the next ones: it does with an index.
    pub(crate) fn shares_lines(&self) -> bool {
        self.index.is_some()
    }

    /// The digests of the revision and of all revisions behind it, where the revision is the newest edit's
    /// and the index has these digests as a line to share. Constant time.
    pub(crate) fn newest_line(&self, rev: &RevId) -> Option<&Line>
        ensures { IfSome result (λ line.
            map encode_lower line.now ≡ map (λ r. r.hash) (line_to (edits_in self.now.list) (Some rev.now))) }
    {
        let index = lent(&self.index)?;
        let line = index.line.as_ref()?;
        if !is_newest(self.stems.as_slice(), rev) {
            return None;
        }
        Some(line)
    }

    /// The candidates for the best leaf, taken out of the index, or those of no edit; None without an index.
    pub(crate) fn take_candidates(&mut self) -> Option<Candidates>
        ensures list { self.new.list ≡ self.old.list }
        ensures candidates { IfSome result (AreCandidates self.old.list) }
    {
        let alloc = *self.stems.allocator();
        match &mut self.index {
            Some(index) => Some(index.candidates.take().unwrap_or(Candidates::new(alloc))),
            None => None,
        }
    }

    /// Puts the candidates for the best leaf into the index, if there is one.
    pub(crate) fn put_candidates(&mut self, candidates: Candidates)
        requires { AreCandidates self.old.list candidates }
        ensures { self.new.list ≡ self.old.list }
    {
        if let Some(index) = &mut self.index {
            index.candidates = Some(candidates);
        }
    }

    /// Makes room for one more edit. The room for the first is exact, since most documents have one edit.
    pub(crate) fn make_room(&mut self) -> Result<(), AllocError>
        ensures list { self.new.list ≡ self.old.list }
        ensures room { OnOk result (1 ≤ self.new.spare) }
    {
        if self.stems.is_empty() {
            self.stems.try_reserve_exact(1)
        } else {
            self.stems.try_reserve(1)
        }
    }

    /// Takes an edit, in the place that `make_room` made for it. It asks for memory for the index and the
    /// shared path alone, and out of memory goes on without them. The run is a front of the path. Where the
    /// run has just the revisions that the stem is to keep, the stem takes it, and the path is shared or its
    /// memory given back. Else the path is cut to these revisions. The cost is that of `new_count` and of
    /// `renewed`, and a find for each of these revisions where one of them was known.
    pub(crate) fn push(&mut self, path: Run, run: Run, deleted: bool, body: Body)
        requires acceptable { IsAcceptable (edits_in self.old.list) (nameless path deleted body) }
        requires front { run ≡ take (length run) path }
        requires room { 1 ≤ self.old.spare }
        ensures { edits_in self.new.list ≡ edits_in self.old.list ++ nameless path deleted body ∷ [] }
    {
        let met = self.met_by(&path);
        let newest = path.generation();
        let whole = self.behind_last(&path).is_none();
        self.highest = newest.max(self.highest);
        let standing = standing_of(&met, path.len());
        let index = without_line(self.index.take());
        let (run, line) = kept(run, path, met.at);
        let line = if whole { line } else { None };
        note_inner(&mut self.stems, lent(&index), &run, &standing);
        self.stems
            .push_reserved(Stem::new(run, standing, deleted, body));
        self.index = renewed(*self.stems.allocator(), index, self.stems.as_slice(), line);
    }
}

/// The revisions that no path names, in the same order. The cost is that of `is_named` for each revision.
pub(crate) fn unnamed(
    alloc: Global,
    branches: &Branches,
    revs: &[RevId],
) -> Result<Vec<RevId>, AllocError>
    ensures ok { IfOk result (λ found. found.items ≡ unnamed_in branches.now.list revs.now) }
    ensures memory { OnErr result (¬ (unnamed_in branches.now.list revs.now ≡ [])) }
{
    let mut found = Vec::new(alloc);
    for rev in revs {
        if branches.is_named(rev) {
            continue;
        }
        found.push(*rev)?;
    }
    Ok(found)
}

/// The greatest generation of the revisions that no path names; 0 where a path names each of them. The cost
/// is that of `is_named` for each revision.
pub(crate) fn highest_unnamed(branches: &Branches, revs: &[RevId]) -> u16
    ensures { result ≡ highest_of (unnamed_in branches.now.list revs.now) }
{
    let mut highest = 0;
    for rev in revs {
        if branches.is_named(rev) {
            continue;
        }
        highest = rev.generation().max(highest);
    }
    highest
}
