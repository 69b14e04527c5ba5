//! The revisions of a tree, as its edits brought them.

ghost use Rattle.std.specs.Prelude.{◌≡◌, ◌≤◌, ◌<◌, ◌-◌, ◌^◌, ◌++◌, length, Some, None, false};
ghost use Rattle.std.specs.Prelude.{map, take, filter, not, find, is_some, slice_get};
ghost use Rattle.std.specs.Prelude.{option_map, IsTrue, IfSome, IfNone, IfOk, OnOk};
ghost use Rattle.std.specs.List.{list_all, list_any};
ghost use Rattle.hex.specs.Hex.{encode_lower};
ghost use Rattle.hub_model.specs.Revision.{Revision};
ghost use Rattle.hub_model.specs.Path.{IsHistory, IsNext, IsPath, is_consistent as agrees_with, is_first, names};
ghost use Rattle.hub_revtree.specs.Branch.{edits_in};
ghost use Rattle.hub_revtree.specs.Common.{last_in};
ghost use Rattle.hub_revtree.specs.Extend.{line_to};
ghost use Rattle.hub_revtree.specs.Index.{GoesOn};
ghost use Rattle.hub_revtree.specs.Lookup.{AreIndexed, IsMeeting, IsNumberIn};
ghost use Rattle.hub_revtree.specs.Mark.{AreStemsOf};
ghost use Rattle.hub_revtree.specs.Stem.{Stem as StemModel, IsBrought};
ghost use Rattle.hub_revtree.specs.Stem.{IsAfter, IsBehind, IsFound, IsFoundBehind, IsWithin, StandsAt};
ghost use Rattle.hub_revtree.specs.Stem.{chain_from, chains_of};
ghost use Rattle.hub_revtree.specs.Stem.{has_revision, own_path, revisions_at};

use crate::branches::{Branches, lent};
use crate::index::Index;
use crate::run::Run;
use crate::sought::Sought;
use crate::stem::{Place, Stem};
use hub_document::{Path, RevId};
use std::alloc::AllocError;

/// The place of the revision in the stem of this number; None where that stem lacks it. Constant time.
pub(crate) fn place_in(stems: &[Stem], number: usize, rev: &RevId) -> Option<Place>
    ensures found { IfSome result (StandsAt stems.now rev.now) }
    ensures stem { IfSome result (λ place. place.stem ≡ number) }
    ensures none { IfNone result (names (revisions_at stems.now number) rev.now ≡ false) }
{
    if number >= stems.len() {
        return None;
    }
    match stems[number].run().position(&Sought::among(rev, 1)) {
        Some(at) => Some(Place { stem: number, at }),
        None => None,
    }
}

/// A place of the revision; None where no stem has it. With an index it is the place in the first stem that
/// has the revision. That takes constant time for digests that differ in their first eight bytes, else at
/// most log n comparisons of revisions. Without an index it is one look for each stem, from the newest on up
/// to one that has the revision.
pub(crate) fn place_of(stems: &[Stem], index: Option<&Index>, rev: &RevId) -> Option<Place>
    requires { AreIndexed stems.now (option_map (λ i. i.now) index) }
    ensures { IsFound stems.now rev.now result }
{
    if let Some(index) = index {
        return index.firsts.place(stems, rev);
    }
    let sought = Sought::among(rev, stems.len());
    for number in (0..stems.len()).rev() {
        if let Some(at) = stems[number].run().position(&sought) {
            return Some(Place { stem: number, at });
        }
    }
    None
}

/// The stem whose newest revision this is; None where there is none. With an index it is the first stem that
/// has the revision, since no stem's newest revision is one of an earlier stem. The cost then is that of
/// `place_of`. Without an index the stems are read from the newest on, up to this one.
pub(crate) fn headed<'a>(stems: &'a [Stem], index: Option<&Index>, rev: &RevId) -> Option<&'a Stem>
    requires { AreIndexed stems.now (option_map (λ i. i.now) index) }
    ensures { option_map (λ s. s.now) result ≡ find (λ s. is_first rev.now s.revisions) stems.now }
{
    if let Some(index) = index {
        return match index.firsts.place(stems, rev) {
            Some(place) => {
                if place.at == 0 {
                    Some(&stems[place.stem])
                } else {
                    None
                }
            }
            None => None,
        };
    }
    let sought = Sought::among(rev, stems.len());
    for number in (0..stems.len()).rev() {
        let stem = &stems[number];
        if stem.is_head(&sought) {
            return Some(stem);
        }
    }
    None
}

/// Whether the revision is the newest one of the stem that came last. Constant time.
pub(crate) fn is_newest(stems: &[Stem], rev: &RevId) -> bool
    ensures { result ≡ is_first rev.now (revisions_at stems.now (length stems.now - 1)) }
{
    match stems.last() {
        Some(newest) => newest.is_head(&Sought::among(rev, 1)),
        None => false,
    }
}

/// The place behind the revision in the stem of this number; behind its last, its parent. Constant time.
pub(crate) fn behind_in(stems: &[Stem], number: usize, sought: &Sought) -> Option<Place>
    requires { IsNumberIn stems.now number }
    ensures found { IfSome result (IsBehind stems.now sought.now) }
    ensures none { IfNone result
        ((stem : StemModel) (r : Revision) → slice_get stems.now number ≡ Some stem
        → ¬ IsNext (own_path stems.now stem) sought.now r) }
    ensures goes { IfSome result (λ _. GoesOn stems.now number sought.now) }
    ensures ends { IfNone result (¬ GoesOn stems.now number sought.now) }
{
    let stem = &stems[number];
    let run = stem.run();
    let at = run.position(sought)?;
    if usize::from(at) + 1 < run.len() {
        Some(Place {
            stem: number,
            at: at + 1,
        })
    } else {
        stem.parent()
    }
}

/// The place directly behind the revision, as `behind_in` finds it in a stem. With an index the cost is that
/// of `place_of`. Where the chain of the first stem with the revision ends there, a look at the links is
/// added, at most log n comparisons of revisions. Without an index it is one look for each stem at most.
pub(crate) fn place_behind(stems: &[Stem], index: Option<&Index>, rev: &RevId) -> Option<Place>
    requires { AreIndexed stems.now (option_map (λ i. i.now) index) }
    ensures found { IfSome result (IsBehind stems.now rev.now) }
    ensures none { IfNone result ((r : Revision) → ¬ IsBrought stems.now r rev.now) }
{
    if let Some(index) = index {
        let place = index.firsts.place(stems, rev)?;
        if let Some(behind) = behind_in(stems, place.stem, &Sought::among(rev, 1)) {
            return Some(behind);
        }
        let number = index.link(rev)?;
        return behind_in(stems, number, &Sought::among(rev, 1));
    }
    let sought = Sought::among(rev, stems.len());
    for number in 0..stems.len() {
        if let Some(place) = behind_in(stems, number, &sought) {
            return Some(place);
        }
    }
    None
}

/// How a path that may be stored meets the stems.
#[derive(Clone, Copy)]
pub(crate) struct Meeting {
    /// How many of the path's revisions the stem of its edit keeps.
    pub(crate) at: usize,
    /// The place of the path's next revision; None where the stem keeps the whole path.
    pub(crate) place: Option<Place>,
    /// How many revisions the chain has from that place on; 0 without a place.
    pub(crate) behind: usize,
    /// Whether an earlier stem has one of the revisions that the stem keeps.
    pub(crate) joins: bool,
}

/// How many revisions of the stem of this number no earlier stem has. Constant time where the stem joins
/// none; else, for each revision of the stem, a look at each earlier stem at most.
pub(crate) fn new_in(stems: &[Stem], number: usize) -> usize
    requires { IsNumberIn stems.now number }
    ensures { (stem : StemModel) → slice_get stems.now number ≡ Some stem
        → result ≡ length (filter (λ r. not (has_revision (take number stems.now) r)) stem.revisions) }
{
    let stem = &stems[number];
    let run = stem.run();
    if !stem.joins() {
        return run.len();
    }
    let mut count = 0usize;
    for at in 0..run.len() {
        if place_of(&stems[..number], None, &run.at(at)).is_none() {
            count += 1;
        }
    }
    count
}

impl Branches {
    /// A place of the revision; None where no stem has it. The cost is that of `place_of`, and constant time
    /// above the highest generation of the stems.
    pub(crate) fn place(&self, rev: &RevId) -> Option<Place>
        ensures place { IsFound self.now.stems rev.now result }
        ensures stored { AreStemsOf self.now.stems self.now.list }
        ensures named { is_some result ≡ list_any (λ b. names b.path rev.now) self.now.list }
        ensures low { rev.now.generation < 2 ^ 16 }
    {
        if rev.generation() > self.highest {
            return None;
        }
        place_of(self.stems.as_slice(), lent(&self.index), rev)
    }

    // How many revisions the chain of the place's stem has from the place on. Constant time.
    fn reach_from(&self, place: Place) -> usize
        requires { IsWithin self.now.stems place }
        ensures { result ≡ length (chain_from (chains_of self.now.stems) (Some place)) }
    {
        usize::from(self.stems[place.stem].reach()) - usize::from(place.at)
    }

    /// The place directly behind the run's last revision, as `place_behind` finds it. Constant time where
    /// that revision is of generation 1; else the cost is that of `place_behind`.
    pub(crate) fn behind_last(&self, run: &Run) -> Option<Place>
        requires { IsPath run.now }
        ensures { (x : Revision) → last_in run.now ≡ Some x → IsFoundBehind self.now.stems x result }
    {
        let stems = self.stems.as_slice();
        let count = run.len();
        if count == usize::from(run.generation()) {
            return None;
        }
        place_behind(stems, lent(&self.index), &run.at(count - 1))
    }

    // The place directly behind the last revision of the place's stem, if there is one. Constant time where
    // the stem stands on another; else the cost is that of `behind_last`.
    fn after(&self, place: Place) -> Option<Place>
        requires { IsWithin self.now.stems place }
        ensures { IsAfter self.now place result }
    {
        let stem = &self.stems[place.stem];
        match stem.parent() {
            Some(parent) => Some(parent),
            None => self.behind_last(stem.run()),
        }
    }

    /// The number of revisions from this one on to the last one behind it; 0 where no path names it. The cost
    /// is a find. Where the revision's chain ends above generation 1, a step for each stem of the line is
    /// added, and that of `behind_last` for each chain.
    pub(crate) fn line_length(&self, rev: &RevId) -> u16
        ensures { result ≡ length (line_to (edits_in self.now.list) (Some rev.now)) }
    {
        let stems = self.stems.as_slice();
        let mut count = 0usize;
        let mut next = self.place(rev);
        while let Some(place) = next {
            let stem = &stems[place.stem];
            if stem.run().generation() == stem.reach() {
                return (count + self.reach_from(place)) as u16;
            }
            next = self.after(place);
            count += stem.run().len() - usize::from(place.at);
        }
        count as u16
    }

    /// Appends the revision and all revisions behind it to the vector; nothing where no path names it. The
    /// cost is a find, the number of these revisions, a step for each stem, and that of `behind_last` for
    /// each chain. Out of memory, the vector may have some of them.
    pub(crate) fn append_line(&self, rev: &RevId, line: &mut Vec<RevId>) -> Result<(), AllocError>
        ensures { OnOk result
            (line.new.items ≡ line.old.items ++ line_to (edits_in self.now.list) (Some rev.now)) }
    {
        let stems = self.stems.as_slice();
        let mut next = self.place(rev);
        while let Some(place) = next {
            let run = stems[place.stem].run();
            run.append_from(usize::from(place.at), line)?;
            next = self.after(place);
        }
        Ok(())
    }

    /// Appends the digests of the same revisions to the vector; false, and perhaps some of them, where a stem
    /// shares digests or keeps texts. The cost is that of `append_line`, with a copy of 16 bytes for each.
    pub(crate) fn append_digests(
        &self,
        rev: &RevId,
        digests: &mut Vec<[u8; 16]>,
    ) -> Result<bool, AllocError>
        ensures { IfOk result (λ all. IsTrue all
            → map encode_lower digests.new.items
            ≡ map encode_lower digests.old.items
            ++ map (λ r. r.hash) (line_to (edits_in self.now.list) (Some rev.now))) }
    {
        let stems = self.stems.as_slice();
        let mut next = self.place(rev);
        while let Some(place) = next {
            let run = stems[place.stem].run();
            if !run.append_digests(usize::from(place.at), digests)? {
                return Ok(false);
            }
            next = self.after(place);
        }
        Ok(true)
    }

    // The place of a revision of a path: the place `told` if there is one, else one that `place` finds.
    fn place_or_told(&self, told: Option<Place>, rev: &RevId) -> Option<Place>
        requires { IfSome told (IsWithin self.now.stems) }
        ensures told { IfSome told (λ place. result ≡ Some place) }
        ensures within { IfSome result (IsWithin self.now.stems) }
        ensures found { IfNone told (IfSome result (StandsAt self.now.stems rev.now)) }
        ensures none { IfNone result (has_revision self.now.stems rev.now ≡ false) }
    {
        match told {
            Some(place) => Some(place),
            None => self.place(rev),
        }
    }

    /// How many of the path's revisions its edit is to keep; None where the path disagrees with a stored one.
    /// These are all revisions up to the last that is new, or with which a chain ends before the path does.
    /// The cost is the path's length, that of `place` for each new revision, and that of `behind_last` for
    /// each such chain.
    pub(crate) fn new_count(&self, path: &Path) -> Option<usize>
        requires { IsHistory path.now }
        ensures agrees { is_some result ≡ list_all (λ b. agrees_with path.now b.path) self.now.list }
        ensures within { IfSome result (λ n. (1 ≤ n) × (n ≤ length path.now)) }
    {
        let stems = self.stems.as_slice();
        let revisions = path.revisions();
        let mut at = 0usize;
        let mut kept = 0usize;
        let mut told = None;
        while at < revisions.len() {
            match self.place_or_told(told, &revisions[at]) {
                Some(place) => {
                    let stem = &stems[place.stem];
                    let count = stem.run().common(usize::from(place.at), &revisions[at..])?;
                    if count == revisions.len() - at {
                        return Some(kept.max(1));
                    }
                    at += count;
                    if stem.parent().is_none() {
                        kept = at;
                    }
                    told = self.after(place);
                }
                None => {
                    at += 1;
                    kept = at;
                    told = None;
                }
            }
        }
        Some(revisions.len())
    }

    // A place of the run's revision at this position, as `place` finds it. Above the highest generation of the
    // stems no revision is made.
    fn place_on(&self, run: &Run, at: usize) -> Option<Place>
        requires { at < length run.now }
        ensures place { (r : Revision) × (slice_get run.now at ≡ Some r)
            × IsFound self.now.stems r result }
        ensures stored { AreStemsOf self.now.stems self.now.list }
    {
        if run.generation_at(at) > self.highest {
            return None;
        }
        self.place(&run.at(at))
    }

    /// How a path that may be stored meets the stems: behind the revisions that its stem keeps, it is the
    /// front of one chain. The cost is that of `place` for each new revision and for each chain on the way.
    pub(crate) fn met_by(&self, path: &Run) -> Meeting
        ensures { IsMeeting self.now.stems path.now result.at result.place result.behind result.joins }
    {
        let mut at = 0usize;
        let mut joins = false;
        while at < path.len() {
            match self.place_on(path, at) {
                Some(place) => {
                    let behind = self.reach_from(place);
                    if path.len() - at <= behind {
                        return Meeting {
                            at,
                            place: Some(place),
                            behind,
                            joins,
                        };
                    }
                    at += behind;
                    joins = true;
                }
                None => at += 1,
            }
        }
        Meeting {
            at,
            place: None,
            behind: 0,
            joins,
        }
    }
}
