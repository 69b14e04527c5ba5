//! An index of a tree's revisions.

ghost use Rattle.std.specs.Prelude.{◌≡◌, ℕ, [], ◌+◌, ◌-◌, ◌<◌, List, Some, false, None, length};
ghost use Rattle.std.specs.Prelude.{nat_eq, option_map, take, unwrap_or, IfNone, IfOk, IfSome, OnOk};
ghost use Rattle.std.specs.Ordering.{eq_by_cmp};
ghost use Rattle.hub_model.specs.Revision.{Revision, revision_cmp};
ghost use Rattle.hub_revtree.specs.Candidates.{candidates_in};
ghost use Rattle.hub_revtree.specs.First.{first_put};
ghost use Rattle.hub_revtree.specs.Index.{AreLinked, AreTold, AreToldOf, HasTo, IsFirstPlace};
ghost use Rattle.hub_revtree.specs.Index.{IsIndex, IsIndexBefore, IsIndexed, IsNewestLine, IsOfLast};
ghost use Rattle.hub_revtree.specs.Index.{IsOfLastTold};
ghost use Rattle.hub_revtree.specs.Index.{entry_in, link_in, number_in, other_in};
ghost use Rattle.hub_revtree.specs.Stem.{AreStems, has_revision};

use crate::candidates::Candidates;
use crate::key::key_of_rev;
use crate::line::Line;
use crate::rev_key::RevKey;
use crate::sought::Sought;
use crate::stem::{Place, Stem};
use crate::stems::{behind_in, place_in};
use hub_document::RevId;
use std::alloc::{AllocError, Global};
use std::collections::{BTreeMap, HashMap};

// From this number of stems on there is an index. To look at each of them takes twice as long as one look in
// the map. Many documents have fewer edits, and they shall take no memory for an index.
const TURN: usize = 256;

/// The first stem that has each revision. A look takes constant time where the revision's hash is a digest's
/// text, and no earlier stem has another one with the same first eight bytes. Else it costs at most log n
/// comparisons of revisions, where n is the number of `others`.
#[derive(Debug, Drop)]
pub(crate) struct Firsts {
    /// From the key of a digest to the number of the first stem that has a revision with that key. It takes
    /// some 30 to 60 bytes for each key.
    stems: HashMap<u64, u32>,
    /// From each revision to which `stems` does not lead to the number of the first stem that has it. It
    /// takes some 100 to 200 bytes for each, and none while there is none.
    others: BTreeMap<RevKey, u32>,
}

/// The index of a tree with many edits, so that a look need not pass over all of them.
#[derive(Debug, Drop)]
pub(crate) struct Index {
    /// The first stem that has each revision.
    pub(crate) firsts: Firsts,
    /// From a revision with which the chain of its first stem ends to the number of a stem that goes on
    /// behind it. It takes some 100 to 200 bytes for each.
    links: BTreeMap<RevKey, u32>,
    /// The digests of the newest stem's newest revision and of all revisions behind it, for the next edit on
    /// it. None where the newest edit was not made on a shared line, and out of memory.
    pub(crate) line: Option<Line>,
    /// The candidates for the best leaf. None before the first search for it that takes more than constant
    /// time, and out of memory.
    pub(crate) candidates: Option<Candidates>,
}

// The number that the map has at the revision. At most log n comparisons of revisions.
fn number_at(map: &BTreeMap<RevKey, u32>, rev: &RevId) -> Option<u32>
    ensures { result ≡ number_in map.now rev.now }
{
    map.get(&RevKey { rev: *rev }).copied()
}

// Puts the number at the revision, where the map has none there. Two looks of log n comparisons at most.
fn put_at(map: &mut BTreeMap<RevKey, u32>, rev: &RevId, number: u32) -> Result<(), AllocError>
    ensures { OnOk result
        ((r : Revision)
        → number_in map.new r ≡ first_put (eq_by_cmp revision_cmp) (number_in map.old) rev.now number r) }
{
    let key = RevKey { rev: *rev };
    if map.contains_key(&key) {
        return Ok(());
    }
    map.insert(key, number)?;
    Ok(())
}

/// The number of a stem as 32 bits, for the index and the candidates; an error from 2 ^ 32 on.
pub(crate) fn kept_number(number: usize) -> Result<u32, AllocError>
    ensures { IfOk result (λ kept. kept ≡ number) }
{
    match u32::try_from(number) {
        Ok(kept) => Ok(kept),
        Err(_) => Err(AllocError),
    }
}

impl Firsts {
    // Puts the stem's number under the key, where the key has none. The reply is the number that the key then
    // has. Constant time.
    fn put(&mut self, key: u64, number: u32) -> Result<u32, AllocError>
        ensures first { IfOk result (λ first. first ≡ unwrap_or (entry_in self.old key) number) }
        ensures entries { OnOk result
            ((q : ℕ) → entry_in self.new q ≡ first_put nat_eq (entry_in self.old) key number q) }
        ensures others { self.new.others ≡ self.old.others }
    {
        let other = self.stems.insert(key, number)?;
        let Some(first) = other else {
            return Ok(number);
        };
        self.stems.insert(key, first)?;
        Ok(first)
    }

    // Takes in the revision at this place of the newest stem, whose number this is. Constant time where its
    // key is new, or the key's stem has the revision; else at most log n comparisons of revisions.
    fn add_at(&mut self, stems: &[Stem], number: u32, at: usize) -> Result<(), AllocError>
        requires last { IsOfLast stems.now number at }
        requires told { AreTold (HasTo stems.now number at) (entry_in self.old) (other_in self.old) }
        ensures { OnOk result
            (AreTold (HasTo stems.now number (at + 1)) (entry_in self.new) (other_in self.new)) }
    {
        let run = stems[number as usize].run();
        let Some(key) = run.key_at(at) else {
            return put_at(&mut self.others, &run.at(at), number);
        };
        let first = self.put(key, number)?;
        if first == number {
            return Ok(());
        }
        let rev = run.at(at);
        if place_in(stems, first as usize, &rev).is_some() {
            return Ok(());
        }
        put_at(&mut self.others, &rev, number)
    }

    /// The place of the revision in the first stem that has it; None where no stem has it. Constant time
    /// where its hash is a digest's text and the key's stem has the revision, or no stem has the key. Else at
    /// most log n comparisons of revisions.
    pub(crate) fn place(&self, stems: &[Stem], rev: &RevId) -> Option<Place>
        requires { AreToldOf stems.now self.now }
        ensures found { IfSome result (IsFirstPlace stems.now rev.now) }
        ensures none { IfNone result (has_revision stems.now rev.now ≡ false) }
    {
        if let Some(key) = key_of_rev(rev) {
            let Some(&number) = self.stems.get(&key) else {
                return None;
            };
            if let Some(place) = place_in(stems, number as usize, rev) {
                return Some(place);
            }
        }
        match number_at(&self.others, rev) {
            Some(number) => place_in(stems, number as usize, rev),
            None => None,
        }
    }

    // Links the revision at this place of the newest stem to that stem, where it goes on behind the revision
    // and the revision's first stem does not. The cost is a find, and at most log n comparisons of revisions.
    fn link_at(
        &self,
        links: &mut BTreeMap<RevKey, u32>,
        stems: &[Stem],
        number: u32,
        at: usize,
    ) -> Result<(), AllocError>
        requires last { IsOfLastTold stems.now self.now number at }
        requires linked { AreLinked (HasTo stems.now number at) stems.now (number_in links.old) }
        ensures { OnOk result
            (AreLinked (HasTo stems.now number (at + 1)) stems.now (number_in links.new)) }
    {
        let rev = stems[number as usize].run().at(at);
        let Some(place) = self.place(stems, &rev) else {
            return Ok(());
        };
        if behind_in(stems, place.stem, &Sought::among(&rev, 1)).is_some() {
            return Ok(());
        }
        if behind_in(stems, number as usize, &Sought::among(&rev, 1)).is_none() {
            return Ok(());
        }
        put_at(links, &rev, number)
    }
}

impl Index {
    // Takes in the newest stem; this is an index of all stems before it. The cost is that of `add_at` for
    // each of the stem's revisions, and, where it joins others, that of `link_at` for each.
    fn add(&mut self, stems: &[Stem]) -> Result<(), AllocError>
        requires { IsIndexBefore self.old stems.now }
        ensures index { OnOk result (IsIndex self.new stems.now) }
        ensures candidates { self.new.candidates ≡ self.old.candidates }
    {
        let newest = stems.len() - 1;
        let number = kept_number(newest)?;
        let count = stems[newest].run().len();
        for at in 0..count {
            self.firsts.add_at(stems, number, at)?;
        }
        if !stems[newest].joins() {
            return Ok(());
        }
        for place in 0..count {
            self.firsts.link_at(&mut self.links, stems, number, place)?;
        }
        Ok(())
    }

    /// The number of a later stem that goes on behind the revision, where the first stem that has it does
    /// not. At most log n comparisons of revisions.
    pub(crate) fn link(&self, rev: &RevId) -> Option<usize>
        ensures { result ≡ link_in self.now rev.now }
    {
        match number_at(&self.links, rev) {
            Some(number) => Some(number as usize),
            None => None,
        }
    }
}

// An index of no stems, with room for `capacity` keys.
fn empty(alloc: Global, capacity: usize) -> Result<Index, AllocError>
    ensures index { IfOk result (λ i. IsIndex i []) }
    ensures candidates { IfOk result (λ i. i.candidates ≡ None) }
{
    let stems = HashMap::with_capacity(alloc, capacity)?;
    Ok(Index {
        firsts: Firsts {
            stems,
            others: BTreeMap::new(alloc),
        },
        links: BTreeMap::new(alloc),
        line: None,
        candidates: None,
    })
}

// An index of the stems. The cost is that of `add` for each of them.
fn built(alloc: Global, stems: &[Stem]) -> Result<Box<Index>, AllocError>
    requires { AreStems stems.now }
    ensures index { IfOk result (λ i. IsIndex i.value stems.now) }
    ensures candidates { IfOk result (λ i. i.value.candidates ≡ None) }
{
    let mut index = empty(alloc, stems.len())?;
    for count in 0..stems.len() {
        index.add(&stems[..count + 1])?;
    }
    Ok(Box::new(alloc, index)?)
}

// A new index of the stems, where their number is a power of two from `TURN` on, and there is memory for it.
fn begun(alloc: Global, stems: &[Stem], line: Option<Line>) -> Option<Box<Index>>
    requires { AreStems stems.now }
    ensures index { IfSome result (λ i. IsIndex i.value stems.now) }
    ensures line { IfSome result (λ i. i.value.line ≡ line) }
    ensures candidates { IfSome result (λ i. i.value.candidates ≡ None) }
{
    if stems.len() < TURN || !stems.len().is_power_of_two() {
        return None;
    }
    match built(alloc, stems) {
        Ok(mut index) => {
            index.line = line;
            Some(index)
        }
        Err(_) => None,
    }
}

/// The index of the stems, from the one of all but the newest, with the newest stem's line where it is given.
/// Without an earlier index `begun` may build one, at most once for each doubling of the number of stems. Out
/// of memory there is no index until that number is a power of two again, and looks take longer. The cost is
/// that of `add` for the newest stem, or for each stem where the index is built.
pub(crate) fn renewed(
    alloc: Global,
    index: Option<Box<Index>>,
    stems: &[Stem],
    line: Option<Line>,
) -> Option<Box<Index>>
    requires stems { AreStems stems.now }
    requires index { IsIndexed (option_map (λ i. i.value) index) (take (length stems.now - 1) stems.now) }
    ensures index { IsNewestLine line stems.now → IsIndexed (option_map (λ i. i.value) result) stems.now }
    ensures candidates { IfSome (candidates_in (option_map (λ i. i.value) result))
        (λ c. candidates_in (option_map (λ i. i.value) index) ≡ Some c) }
{
    let Some(mut index) = index else {
        return begun(alloc, stems, line);
    };
    if stems.is_empty() || index.add(stems).is_err() {
        return None;
    }
    index.line = line;
    Some(index)
}
