//! Runs of revisions, in little memory.

ghost use Rattle.std.specs.Prelude.{◌≡◌, ◌≤◌, ◌<◌, ◌++◌, ◌∷◌, ◌-◌, ◌^◌, [], ◌&&◌, nat_eq, List};
ghost use Rattle.std.specs.Prelude.{length, min, Some, false, drop, map, option_map, slice_get};
ghost use Rattle.std.specs.Prelude.{take, IfSome, IfNone, IfOk, IsSomeAnd, IsTrue, OnErr, OnOk};
ghost use Rattle.std.specs.Str.{bytes_eq};
ghost use Rattle.hex.specs.Hex.{encode_lower};
ghost use Rattle.hub_document.specs.Changes.{IsDigestText};
ghost use Rattle.hub_model.specs.Revision.{Revision};
ghost use Rattle.hub_model.specs.Path.{IsPath, is_first, names};
ghost use Rattle.hub_revtree.specs.Key.{HasKey};
ghost use Rattle.hub_revtree.specs.Common.{common as common_of};
ghost use Rattle.hub_revtree.specs.Run.{kept_in, revisions_from};

use crate::key::{key_of, key_of_rev};
use crate::line::Line;
use crate::sought::Sought;
use hub_document::{Changes, DigestRev, RevId};
use std::alloc::{AllocError, Global};
use std::marker::Model;

// The forms in which a run keeps its revisions, newest first. A digest stands for its hexadecimal text.
#[derive(Debug, Drop)]
enum RunRepr {
    // One revision: its generation, and its digest.
    One(u16, [u8; 16]),
    // The generation of the newest revision, and the digests of all. The generations fall by one.
    Digests(u16, Vec<[u8; 16]>),
    // The first revisions of a path: the newest generation, how many they are at most, the newest digest, and
    // the line of the digests behind it, which other edits share.
    Shared(u16, u16, [u8; 16], Line),
    // The revisions themselves.
    Texts(Vec<RevId>),
}

/// Revisions, newest first, of which each is the parent of the one before it. Where all hashes are 32
/// lower-case hexadecimal digits, a revision takes 16 bytes, and a lone one none outside the run. Else each
/// takes 68 bytes. A path may share the digests behind its newest revision with other paths. The value itself
/// takes 32 bytes.
#[derive(Debug, Drop)]
pub(crate) struct Run {
    kept: RunRepr,
}

impl Model for Run {
    ghost use Rattle.std.specs.Prelude.{List};
    ghost use Rattle.hub_model.specs.Revision.{Revision};
    ghost use Rattle.hub_revtree.specs.Run.{kept_in};

    ghost Value = { List Revision };

    ghost use Rattle.hub_model.specs.Path.{IsPath};

    ghost view = { λ a. kept_in a.kept };

    ghost invariant = { λ a. IsPath (kept_in a.kept) };
}

// The digests whose texts the hashes are; None where a hash is another text. The cost is their number.
fn digests_of(alloc: Global, revisions: &[RevId]) -> Result<Option<Vec<[u8; 16]>>, AllocError>
    ensures { IfOk result
        (λ found.
        IfSome found (λ digests. map encode_lower digests.items ≡ map (λ r. r.hash) revisions.now)) }
{
    let mut digests = Vec::with_capacity(alloc, revisions.len())?;
    for rev in revisions {
        let Some(digest) = rev.digest() else {
            return Ok(None);
        };
        digests.push(digest)?;
    }
    Ok(Some(digests))
}

// The first `count` items of a list, in the list's own memory. The rest of this memory is given back.
fn cut_list<T: Drop>(mut list: Vec<T>, count: usize) -> Vec<T>
    ensures { result.items ≡ take count list.items }
{
    list.truncate(count);
    list.shrink_to_fit();
    list
}

// The lesser of both numbers.
fn least(most: u16, count: usize) -> u16
    ensures { result ≡ min count most }
{
    usize::from(most).min(count) as u16
}

// The digest at this place of a path: the newest digest, or one of the line behind it. Constant time.
fn digest_at<'a>(newest: &'a [u8; 16], line: &'a Line, place: usize) -> &'a [u8; 16]
    requires { place ≤ length line.now }
    ensures { slice_get (newest.now ∷ line.now) place ≡ Some result.now }
{
    if place == 0 {
        newest
    } else {
        line.at(place - 1)
    }
}

// The newest digest and the line behind it as one line; None where they are more than `most`. It takes memory
// as `Line::with_newer` does, and is None where that is.
fn all_of(most: u16, newest: [u8; 16], line: Line) -> Option<Line>
    ensures { IfSome result (λ all. (all ≡ newest ∷ line) × (length all ≤ most)) }
{
    if line.len() >= usize::from(most) {
        return None;
    }
    line.with_newer(newest)
}

// The digests of all revisions of a form that shares them and has a whole path; else None.
fn line_in(kept: RunRepr) -> Option<Line>
    ensures { IfSome result (λ line. map encode_lower line ≡ map (λ r. r.hash) (kept_in kept)) }
{
    match kept {
        RunRepr::Shared(_, most, digest, line) => all_of(most, digest, line),
        _ => None,
    }
}

// The form that keeps the first `count` revisions. It takes no memory.
fn cut_kept(kept: RunRepr, count: usize) -> RunRepr
    requires { 1 ≤ count }
    ensures { kept_in result ≡ take count (kept_in kept) }
{
    match kept {
        RunRepr::One(newest, digest) => RunRepr::One(newest, digest),
        RunRepr::Digests(newest, digests) => RunRepr::Digests(newest, cut_list(digests, count)),
        RunRepr::Shared(newest, most, digest, line) => {
            RunRepr::Shared(newest, least(most, count), digest, line)
        }
        RunRepr::Texts(revisions) => RunRepr::Texts(cut_list(revisions, count)),
    }
}

// Whether the revision is of this generation, and its hash the text of the digest.
fn is_of(generation: u16, digest: &[u8; 16], sought: &Sought) -> bool
    ensures { result ≡ (nat_eq sought.now.generation generation
        && bytes_eq sought.now.hash (encode_lower digest.now)) }
{
    sought.rev().generation() == generation && sought.has_digest(digest)
}

impl Run {
    /// The first `count` revisions of a path, in memory of just their size. One revision whose hash is a
    /// digest's text takes none. The cost is their number.
    pub(crate) fn front(alloc: Global, revisions: &[RevId], count: usize) -> Result<Run, AllocError>
        requires path { IsPath revisions.now }
        requires within { (1 ≤ count) × (count ≤ length revisions.now) }
        ensures { IfOk result (λ run. run ≡ take count revisions.now) }
    {
        let newest = &revisions[0];
        if count == 1 {
            if let Some(digest) = newest.digest() {
                let kept = RunRepr::One(newest.generation(), digest);
                return Ok(Run { kept });
            }
        }
        let front = &revisions[..count];
        match digests_of(alloc, front)? {
            Some(digests) => Ok(Run::from_digests(newest.generation(), digests)),
            None => Ok(Run::whole(Vec::from_slice(alloc, front)?)),
        }
    }

    /// The run of one revision. It takes no memory.
    pub(crate) fn of_one(rev: &DigestRev) -> Run
        ensures { result ≡ rev.now ∷ [] }
    {
        Run {
            kept: RunRepr::One(rev.generation(), rev.digest()),
        }
    }

    /// The run of all these revisions, in their own vector. It takes no memory.
    pub(crate) fn whole(revisions: Vec<RevId>) -> Run
        requires { IsPath revisions.items }
        ensures { result ≡ revisions.items }
    {
        Run {
            kept: RunRepr::Texts(revisions),
        }
    }

    /// The revisions whose hashes are the texts of the digests, from this generation down. It takes no
    /// memory.
    pub(crate) fn from_digests(newest: u16, digests: Vec<[u8; 16]>) -> Run
        requires { IsPath (revisions_from newest digests.items) }
        ensures { result ≡ revisions_from newest digests.items }
    {
        Run {
            kept: RunRepr::Digests(newest, digests),
        }
    }

    /// The revision in front of the path of the line, which the run shares. It takes no memory.
    pub(crate) fn on(rev: &DigestRev, line: Line) -> Run
        requires { length line < rev.now.generation }
        ensures { result ≡ rev.now ∷ revisions_from (rev.now.generation - 1) line }
    {
        let newest = rev.generation();
        Run {
            kept: RunRepr::Shared(newest, newest, rev.digest(), line),
        }
    }

    /// The digests of all revisions of a run that has a whole path on a line, where no other value shares the
    /// line any more. It takes memory only as `Line::with_newer` does. None of any other run.
    pub(crate) fn into_line(self) -> Option<Line>
        ensures { IfSome result (λ line. map encode_lower line ≡ map (λ r. r.hash) self) }
    {
        line_in(self.kept)
    }

    /// The first `count` revisions, in the run's own memory. The rest of that memory is given back, where no
    /// other edit shares it. No memory is taken.
    pub(crate) fn cut(self, count: usize) -> Run
        requires { 1 ≤ count }
        ensures { result ≡ take count self }
    {
        Run {
            kept: cut_kept(self.kept, count),
        }
    }

    /// How many revisions the run has. Constant time.
    pub(crate) fn len(&self) -> usize
        ensures { result ≡ length self.now }
    {
        match &self.kept {
            RunRepr::One(_, _) => 1,
            RunRepr::Digests(_, digests) => digests.len(),
            RunRepr::Shared(_, most, _, line) => usize::from(*most).min(
                line.len().saturating_add(1),
            ),
            RunRepr::Texts(revisions) => revisions.len(),
        }
    }

    /// The generation of the newest revision.
    pub(crate) fn generation(&self) -> u16
        ensures { option_map (λ r. r.generation) (slice_get self.now 0) ≡ Some result }
    {
        match &self.kept {
            RunRepr::One(newest, _) => *newest,
            RunRepr::Digests(newest, _) => *newest,
            RunRepr::Shared(newest, _, _, _) => *newest,
            RunRepr::Texts(revisions) => revisions[0].generation(),
        }
    }

    /// The generation of the revision at this place, counted from 0 for the newest. Constant time.
    pub(crate) fn generation_at(&self, place: usize) -> u16
        requires { place < length self.now }
        ensures { option_map (λ r. r.generation) (slice_get self.now place) ≡ Some result }
    {
        match &self.kept {
            RunRepr::One(newest, _) => *newest,
            RunRepr::Digests(newest, _) => *newest - place as u16,
            RunRepr::Shared(newest, _, _, _) => *newest - place as u16,
            RunRepr::Texts(revisions) => revisions[place].generation(),
        }
    }

    /// The revision at this place, counted from 0 for the newest. Constant time.
    pub(crate) fn at(&self, place: usize) -> RevId
        requires { place < length self.now }
        ensures { slice_get self.now place ≡ Some result }
    {
        match &self.kept {
            RunRepr::One(newest, digest) => RevId::from_digest(*newest, digest),
            RunRepr::Digests(newest, digests) => {
                RevId::from_digest(*newest - place as u16, &digests[place])
            }
            RunRepr::Shared(newest, _, digest, line) => {
                RevId::from_digest(*newest - place as u16, digest_at(digest, line, place))
            }
            RunRepr::Texts(revisions) => revisions[place],
        }
    }

    /// The key of the digest of the revision at this place; None where the revision's hash is no digest's
    /// text. Constant time.
    pub(crate) fn key_at(&self, place: usize) -> Option<u64>
        requires { place < length self.now }
        ensures { (r : Revision) → slice_get self.now place ≡ Some r → HasKey r.hash result }
    {
        match &self.kept {
            RunRepr::One(_, digest) => Some(key_of(digest)),
            RunRepr::Digests(_, digests) => Some(key_of(&digests[place])),
            RunRepr::Shared(_, _, digest, line) => Some(key_of(digest_at(digest, line, place))),
            RunRepr::Texts(revisions) => key_of_rev(&revisions[place]),
        }
    }

    /// The newest revision alone, as a row lists it. It takes memory only where its hash is no digest's text.
    pub(crate) fn newest(&self, alloc: Global) -> Result<Changes, AllocError>
        ensures ok { IfOk result (λ changes. changes ≡ take 1 self.now) }
        ensures memory { OnErr result (IsSomeAnd (slice_get self.now 0) (λ r. ¬ IsDigestText r.hash)) }
    {
        match &self.kept {
            RunRepr::One(newest, digest) => {
                Ok(Changes::of_digest(DigestRev::new(*newest, *digest)))
            }
            RunRepr::Digests(newest, digests) => {
                Ok(Changes::of_digest(DigestRev::new(*newest, digests[0])))
            }
            RunRepr::Shared(newest, _, digest, _) => {
                Ok(Changes::of_digest(DigestRev::new(*newest, *digest)))
            }
            RunRepr::Texts(revisions) => Changes::one(alloc, revisions[0]),
        }
    }

    /// Whether this is the revision at the place. It compares no hashes where the generations differ.
    pub(crate) fn is_at(&self, place: usize, sought: &Sought) -> bool
        requires { place < length self.now }
        ensures { result ≡ is_first sought.now (drop place self.now) }
    {
        match &self.kept {
            RunRepr::One(newest, digest) => is_of(*newest, digest, sought),
            RunRepr::Digests(newest, digests) => {
                is_of(*newest - place as u16, &digests[place], sought)
            }
            RunRepr::Shared(newest, _, digest, line) => is_of(
                *newest - place as u16,
                digest_at(digest, line, place),
                sought,
            ),
            RunRepr::Texts(revisions) => sought.rev().is_same(&revisions[place]),
        }
    }

    /// The place of the revision in the run, counted from 0 for the newest, if it has one. Constant time.
    pub(crate) fn position(&self, sought: &Sought) -> Option<u16>
        ensures found { IfSome result (λ k. slice_get self.now k ≡ Some sought.now) }
        ensures absent { IfNone result (names self.now sought.now ≡ false) }
        ensures low { IfSome result (λ k. k < 2 ^ 16 - 1) }
    {
        if let RunRepr::One(newest, digest) = &self.kept {
            return is_of(*newest, digest, sought).then_some(0);
        }
        let newest = self.generation();
        let own = sought.rev().generation();
        if own > newest {
            return None;
        }
        let place = newest - own;
        if usize::from(place) >= self.len() {
            return None;
        }
        self.is_at(usize::from(place), sought).then_some(place)
    }

    /// Appends the revision at this place, and those behind it, to the vector. The cost is their number. Out
    /// of memory, the vector may have some of them.
    pub(crate) fn append_from(&self, at: usize, line: &mut Vec<RevId>) -> Result<(), AllocError>
        ensures { OnOk result (line.new.items ≡ line.old.items ++ drop at self.now) }
    {
        for place in at..self.len() {
            line.push(self.at(place))?;
        }
        Ok(())
    }

    /// Appends the digests of the revision at this place, and of those behind it, to the vector; false, and
    /// nothing, where the run keeps texts or shares digests. Each digest costs a copy of 16 bytes.
    pub(crate) fn append_digests(
        &self,
        at: usize,
        digests: &mut Vec<[u8; 16]>,
    ) -> Result<bool, AllocError>
        requires { at < length self.now }
        ensures { IfOk result (λ all. IsTrue all
            → map encode_lower digests.new.items
            ≡ map encode_lower digests.old.items ++ map (λ r. r.hash) (drop at self.now)) }
    {
        match &self.kept {
            RunRepr::One(_, digest) => digests.push(*digest)?,
            RunRepr::Digests(_, all) => digests.extend_from_slice(&all[at..])?,
            RunRepr::Shared(_, _, _, _) => return Ok(false),
            RunRepr::Texts(_) => return Ok(false),
        }
        Ok(true)
    }

    /// How many revisions from this place on are the same as these, to the end of the shorter list; None
    /// where one of them differs. The cost is their number.
    pub(crate) fn common(&self, at: usize, revisions: &[RevId]) -> Option<usize>
        requires { at ≤ length self.now }
        ensures { result ≡ common_of revisions.now (drop at self.now) }
    {
        let count = (self.len() - at).min(revisions.len());
        for place in 0..count {
            if !self.is_at(at + place, &Sought::among(&revisions[place], 1)) {
                return None;
            }
        }
        Some(count)
    }
}
