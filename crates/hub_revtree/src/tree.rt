//! The tree of a document's revisions.

ghost use Rattle.std.specs.Prelude.{Bool, true, ◌≡◌, ◌≤◌, ◌<◌, ◌-◌, ◌^◌, min, ◌++◌, ◌∷◌, ◌↔◌, []};
ghost use Rattle.std.specs.Prelude.{length, slice_get, take, IsTrue, IsSome, IsNone, IsSomeAnd};
ghost use Rattle.std.specs.Prelude.{IfSome, IfNone, IfOk, IfErr, OnOk, OnErr, option_map, None, Some};
ghost use Rattle.hub_document.specs.Changes.{IsDigestText};
ghost use Rattle.hub_model.specs.Journal.{IsKnown, IsAcceptable, head_of};
ghost use Rattle.hub_model.specs.Leaves.{IsMarked, IsWinner, leaves_of, revisions_of};
ghost use Rattle.hub_model.specs.Path.{IsHistory};
ghost use Rattle.hub_model.specs.Row.{doc_of, is_deleted};
ghost use Rattle.hub_revtree.specs.Branch.{edits_in};
ghost use Rattle.hub_revtree.specs.Count.{revision_count};
ghost use Rattle.hub_revtree.specs.Tree.{HasKnownHead, IsMergeFault, IsRevTree, MakesReady, nameless};
ghost use Rattle.hub_revtree.specs.Winner.{winner_of};

use crate::branches::Branches;
use crate::fault::{MergeFault, Merged};
use crate::leaf::{Winner, best_with_newest};
use crate::run::Run;
use hub_document::{Body, Changes, DigestRev, Path, RevId, Revisions};
use std::alloc::{AllocError, Global};
use std::marker::Model;

/// The stored edits of one document, in the order in which they came, and their winner. The document's id
/// stands elsewhere.
///
/// A find of a revision takes one step for each edit, from the newest on, up to the one that brought the
/// revision. From 256 edits on a tree has an index of its revisions, if it finds memory for it. Then a find
/// takes constant time where the hash is a digest's text, and no other revision with the digest's first eight
/// bytes came before. Else it costs at most log n comparisons of revisions. With an index, edits on one
/// another share their path too, so that an edit on the newest revision of a line takes constant time.
///
/// One bit for each edit says whether its revision stands behind that of another edit by now. So to ask
/// whether an edit's revision is a leaf takes constant time.
#[derive(Debug)]
pub struct RevTree {
    branches: Branches,
    /// The number of the winner's edit; 0 in a tree with no edit.
    best: usize,
}

impl Drop for RevTree {
    fn drop(self) {
        let Self { branches, best } = self;
    }
}

impl Model for RevTree {
    ghost use Rattle.std.specs.Prelude.{◌*◌, option_and_then, slice_get};
    ghost use Rattle.hub_revtree.specs.Tree.{Tree};

    ghost Value = { Tree };

    ghost use Rattle.hub_revtree.specs.Branch.{edits_in};
    ghost use Rattle.hub_revtree.specs.Winner.{HasWinner, head_in};

    ghost view = { λ a. record { edits = edits_in a.branches.list; room = 65535 * a.branches.spare } };

    ghost invariant = { λ a.
        HasWinner (edits_in a.branches.list) (option_and_then head_in (slice_get a.branches.list a.best)) };
}

/// An edit that a tree can take, and has memory for.
#[derive(Debug, Drop)]
pub struct Ready {
    path: Run,
    /// The front of the path that the tree is to keep, as the look made it.
    run: Run,
    deleted: bool,
    body: Body,
}

impl Model for Ready {
    ghost use Rattle.hub_model.specs.Journal.{Edit};

    ghost Value = { Edit };

    ghost use Rattle.hub_revtree.specs.Tree.{nameless};

    ghost view = { λ a. nameless a.path a.deleted a.body };

    ghost use Rattle.std.specs.Prelude.{◌≡◌, length, take};
    ghost use Rattle.hub_model.specs.Path.{IsHistory};

    ghost invariant = { λ a. (a.run ≡ take (length a.run) a.path) × IsHistory a.path };
}

impl Ready {
    /// The revision of the edit. Constant time.
    pub fn rev(&self) -> RevId
        ensures { head_of self.now ≡ Some result }
    {
        self.path.at(0)
    }
}

impl RevTree {
    // The stored edits.
    pub(crate) fn branches(&self) -> &Branches
        ensures edits { edits_in result.now.list ≡ self.now.edits }
        ensures tree { IsRevTree self.now.edits }
    {
        &self.branches
    }

    /// A tree with no edit.
    pub fn new(alloc: Global) -> RevTree
        ensures { result.edits ≡ [] }
    {
        RevTree {
            branches: Branches::new(alloc),
            best: 0,
        }
    }

    // The edit on a path, with a place in the tree for it. The run is the front of the path. A path has no
    // more revisions than its head's generation.
    pub(crate) fn ready_with(
        &mut self,
        path: Run,
        run: Run,
        deleted: bool,
        body: Body,
    ) -> Result<Ready, AllocError>
        requires history { IsHistory path }
        requires short { length path < 2 ^ 16 }
        requires front { run ≡ take (length run) path }
        ensures { MakesReady self.old self.new (nameless path deleted body) result }
    {
        self.branches.make_room()?;
        Ok(Ready {
            path,
            run,
            deleted,
            body,
        })
    }

    /// How many edits the tree has.
    pub fn len(&self) -> usize
        ensures { result ≡ length self.now.edits }
    {
        self.branches.len()
    }

    /// How many different revisions the paths name; a revision that paths have in common counts once. It
    /// costs one step for each edit, and more for an edit that joins others (`Branches::revision_count`).
    pub fn nodes(&self) -> usize
        ensures { result ≡ min (revision_count self.now.edits) (2 ^ 64 - 1) }
    {
        self.branches.revision_count()
    }

    /// Whether the tree has no edit.
    pub fn is_empty(&self) -> bool
        ensures { IsTrue result ↔ (self.now.edits ≡ []) }
    {
        self.branches.len() == 0
    }

    /// Whether a path names the revision. One find; constant time above the highest generation of the tree.
    pub fn knows(&self, rev: &RevId) -> bool
        ensures { IsTrue result ↔ IsKnown self.now.edits [] rev.now }
    {
        self.branches.is_named(rev)
    }

    /// Whether the revision is known, where its hash is a digest's text. The text is made only where a find
    /// needs it.
    pub(crate) fn knows_digest(&self, rev: &DigestRev) -> bool
        ensures { IsTrue result ↔ IsKnown self.now.edits [] rev.now }
    {
        self.branches.is_digest_named(rev)
    }

    /// Whether the edit that the revision heads deletes the document; None where it heads no edit. One find.
    pub fn deleted(&self, rev: &RevId) -> Option<bool>
        ensures mark { IfSome result (IsMarked self.now.edits [] rev.now) }
        ensures none { IfNone result ((mark : Bool) → ¬ IsMarked self.now.edits [] rev.now mark) }
    {
        match self.branches.headed(rev) {
            Some(stem) => Some(stem.mark().deleted()),
            None => None,
        }
    }

    /// The best leaf and its mark; None in a tree with no edit. Constant time.
    pub fn best(&self) -> Option<Winner>
        ensures best { result ≡ winner_of (leaves_of self.now.edits []) }
        ensures tree { IsRevTree self.now.edits }
    {
        self.branches.head_if_any(self.best)
    }

    /// The revision of the best leaf, as a row lists it; an empty list in a tree with no edit. It takes
    /// memory only where the revision's hash is no digest's text. Constant time. The call is inlined: each row of
    /// a feed makes it.
    #[inline(always)]
    pub fn winner_alone(&self, alloc: Global) -> Result<Changes, AllocError>
        ensures ok { IfOk result (λ changes. changes ≡ take 1 (revisions_of (leaves_of self.now.edits []))) }
        ensures memory { OnErr result
            (IsSomeAnd (slice_get (revisions_of (leaves_of self.now.edits [])) 0)
            (λ r. ¬ IsDigestText r.hash)) }
    {
        match self.branches.stems().as_slice().get(self.best) {
            Some(stem) => stem.run().newest(alloc),
            None => Ok(Changes::new(Revisions::new(Vec::new(alloc)))),
        }
    }

    /// The members of the best leaf's edit; None in a tree with no edit. Constant time.
    pub fn winner_body(&self) -> Option<&Body>
        ensures { option_map (λ b. b.now) result ≡ doc_of true (leaves_of self.now.edits []) }
    {
        let stem = self.branches.stems().as_slice().get(self.best)?;
        Some(stem.body())
    }

    /// Whether the best leaf's edit deletes the document; false in a tree with no edit. Constant time.
    pub fn is_deleted(&self) -> bool
        ensures mark { result ≡ is_deleted (leaves_of self.now.edits []) }
        ensures tree { IsRevTree self.now.edits }
    {
        match self.branches.stems().as_slice().get(self.best) {
            Some(stem) => stem.mark().deleted(),
            None => false,
        }
    }

    /// The revision of the best leaf; None in a tree with no edit. Constant time.
    pub fn winner(&self) -> Option<RevId>
        ensures winner { IfSome result (IsWinner self.now.edits []) }
        ensures none { IsNone result ↔ (self.now.edits ≡ []) }
        ensures first { result ≡ slice_get (revisions_of (leaves_of self.now.edits [])) 0 }
    {
        let winner = self.best()?;
        Some(winner.rev)
    }

    /// Looks whether the tree can take an edit. The reply is `None` where the edit's revision is known. Else
    /// it is the edit with memory: a place in the tree, and the front of the path that the tree is to keep.
    /// The cost is the path's length and some finds. Each new revision up to the highest generation of the
    /// tree costs one, and so do the first known revision and each chain at whose end the path goes on.
    pub fn look_merge(
        &mut self,
        path: Path,
        deleted: bool,
        body: Body,
    ) -> Result<Option<Ready>, MergeFault>
        ensures edits { self.new.edits ≡ self.old.edits }
        ensures tree { IsRevTree self.new.edits }
        ensures known { IfOk result (λ looked. IsNone looked ↔ HasKnownHead self.old.edits path) }
        ensures ready { IfOk result (λ looked. IfSome looked (λ ready. ready ≡ nameless path deleted body)) }
        ensures acceptable { IfOk result (λ looked. IfSome looked (IsAcceptable self.old.edits)) }
        ensures room { IfOk result (λ looked. IfSome looked (λ ready. length ready.path ≤ self.new.room)) }
        ensures err { IfErr result (IsMergeFault self.old.edits (nameless path deleted body)) }
    {
        let head = path.head();
        if self.branches.is_named(&head) {
            return Ok(None);
        }
        let Some(new) = self.branches.new_count(&path) else {
            return Err(MergeFault::Contradicts);
        };
        let run = Run::front(*self.branches.stems().allocator(), path.revisions(), new)?;
        let ready = self.ready_with(Run::whole(path.into_revisions()), run, deleted, body)?;
        Ok(Some(ready))
    }

    /// Takes an edit that `look_merge` or `look_extend` made ready. It asks for memory for the index, a
    /// shared path and the candidates for the winner. Out of memory, the tree goes on without them, and no
    /// answer changes. The tree keeps the front of the path as the look made it, and the path's memory is
    /// given back or shared. In another tree than that of the look this front may be longer or shorter. Then
    /// the path is cut to it instead, in its own memory. The cost is that of `look_merge`.
    ///
    /// The winner takes constant time where it is the new edit's revision, or the old winner, on which the
    /// edit does not stand. Else there is a search for the best leaf. An edit becomes a candidate once at
    /// most, and is given up once. So with an index these searches cost at most log n comparisons of
    /// revisions for each edit that ever comes. Without an index, or memory for the candidates, a search
    /// costs one step for each edit. So an edit that `look_extend` made on the newest revision of a line
    /// takes constant time, save for two things. The path's memory is given back, and the index and the
    /// shared path are made or grow.
    pub fn adopt(&mut self, ready: Ready)
        requires acceptable { IsAcceptable self.old.edits ready }
        requires room { length ready.path ≤ self.old.room }
        ensures { self.new.edits ≡ self.old.edits ++ ready ∷ [] }
    {
        let Ready {
            path,
            run,
            deleted,
            body,
        } = ready;
        self.branches.push(path, run, deleted, body);
        self.best = best_with_newest(&mut self.branches, self.best);
    }

    /// Takes an edit whose revision is new and whose path contradicts no stored path. Where the revision is
    /// known, and after an error, the tree has its old edits. The cost is that of `look_merge` and `adopt`.
    pub fn merge(&mut self, path: Path, deleted: bool, body: Body) -> Result<Merged, MergeFault>
        ensures added { result ≡ Ok Merged.Added → IsAcceptable self.old.edits (nameless path deleted body)
            × (self.new.edits ≡ self.old.edits ++ nameless path deleted body ∷ []) }
        ensures known { result ≡ Ok Merged.Known
            → HasKnownHead self.old.edits path × (self.new.edits ≡ self.old.edits) }
        ensures err { IfErr result (λ fault. IsMergeFault self.old.edits (nameless path deleted body) fault
            × (self.new.edits ≡ self.old.edits)) }
    {
        match self.look_merge(path, deleted, body)? {
            Some(ready) => {
                self.adopt(ready);
                Ok(Merged::Added)
            }
            None => Ok(Merged::Known),
        }
    }
}
