//! Edits whose revisions are made here.

ghost use Rattle.std.specs.Prelude.{◌≡◌, ◌⊎◌, ◌≤◌, ◌<◌, ◌++◌, ◌∷◌, [], length, map, option_map};
ghost use Rattle.std.specs.Prelude.{Some, None, Ok, Err, IfOk, IfErr, IfSome, IsTrue, OnOk};
ghost use Rattle.std.specs.Result.{result_ok};
ghost use Rattle.hex.specs.Hex.{encode_lower};
ghost use Rattle.hub_model.specs.Draft.{extended_path as extended_in, generation_of, new_revision, parent_of};
ghost use Rattle.hub_model.specs.Journal.{Edit, IsAcceptable, head_of};
ghost use Rattle.hub_model.specs.Leaves.{leaves_of};
ghost use Rattle.hub_model.specs.Path.{IsHistory};
ghost use Rattle.hub_revtree.specs.Extend.{IsEditFault, draft, edit_of_draft, line_to};
ghost use Rattle.hub_revtree.specs.Tree.{IsRevTree};

use crate::fault::EditFault;
use crate::line::Line;
use crate::run::Run;
use crate::tree::{Ready, RevTree};
use hub_document::{Body, DigestRev, DocId, RevId, rev_of_edit};
use std::alloc::{AllocError, Global};

// The new revision of an edit on the parent, or on nothing; `GenerationLimit` on generation 65,535.
fn next_rev(
    alloc: Global,
    id: &DocId,
    parent: Option<RevId>,
    deleted: bool,
    body: &Body,
) -> Result<DigestRev, EditFault>
    ensures ok { IfOk result (λ rev. rev ≡ new_revision (draft id.now parent deleted body.now) parent) }
    ensures below { OnOk result (generation_of parent < 65535) }
    ensures err { IfErr result
        (λ e. (e ≡ EditFault.NoMemory) ⊎ ((e ≡ EditFault.GenerationLimit) × (65535 ≤ generation_of parent))) }
    ensures memory { result ≡ Err EditFault.NoMemory → generation_of parent < 65535 }
{
    if generation(&parent) == u16::MAX {
        return Err(EditFault::GenerationLimit);
    }
    let rev = rev_of_edit(alloc, deleted, parent, id, body)?;
    Ok(rev)
}

// The generation of a revision; 0 where there is none.
fn generation(rev: &Option<RevId>) -> u16
    ensures { result ≡ generation_of rev.now }
{
    match rev {
        Some(rev) => rev.generation(),
        None => 0,
    }
}

impl RevTree {
    // The revision that an edit extends: the named leaf, or without a name the winner where it is deleted. It
    // is None without a name in a tree with no edit. All else is a conflict. One find for a named revision.
    fn extended(&self, parent: Option<RevId>) -> Result<Option<RevId>, EditFault>
        ensures line { option_map (line_to self.now.edits) (result_ok result)
            ≡ extended_in self.now.edits [] (leaves_of self.now.edits []) parent }
        ensures first { IfOk result (λ older. parent_of (line_to self.now.edits older) ≡ older) }
        ensures conflict { IfErr result (λ e. e ≡ EditFault.Conflict) }
    {
        if let Some(rev) = parent {
            if !self.branches().is_leaf(&rev) {
                return Err(EditFault::Conflict);
            }
            return Ok(Some(rev));
        }
        let Some(winner) = self.best() else {
            return Ok(None);
        };
        if !winner.deleted {
            return Err(EditFault::Conflict);
        }
        Ok(Some(winner.rev))
    }

    // The path of the revision on the known one, as digests; None where a stem of the line keeps texts or
    // shares its digests.
    fn digests_on(
        &self,
        alloc: Global,
        rev: &DigestRev,
        older: &RevId,
    ) -> Result<Option<Run>, AllocError>
        requires { IsHistory (rev.now ∷ line_to self.now.edits (Some older.now)) }
        ensures { IfOk result
            (λ found. IfSome found (λ path. path ≡ rev.now ∷ line_to self.now.edits (Some older.now))) }
    {
        let branches = self.branches();
        let count = usize::from(branches.line_length(older));
        let mut digests = Vec::with_capacity(alloc, 1 + count)?;
        digests.push(rev.digest())?;
        if !branches.append_digests(older, &mut digests)? {
            return Ok(None);
        }
        Ok(Some(Run::from_digests(rev.generation(), digests)))
    }

    // The digests of the revision and of all revisions behind it, as a line that edits share. None in a tree
    // with no index, and where a stem of the line keeps texts or shares its digests. Constant time where the
    // revision is the newest edit's, and the index keeps its line.
    fn shared_line(&self, alloc: Global, rev: &RevId) -> Result<Option<Line>, AllocError>
        ensures { IfOk result (λ found. IfSome found
            (λ line. map encode_lower line ≡ map (λ r. r.hash) (line_to self.now.edits (Some rev.now)))) }
    {
        let branches = self.branches();
        if !branches.shares_lines() {
            return Ok(None);
        }
        if let Some(line) = branches.newest_line(rev) {
            let line = line.share()?;
            return Ok(Some(line));
        }
        let mut digests = Vec::with_capacity(alloc, usize::from(branches.line_length(rev)))?;
        if !branches.append_digests(rev, &mut digests)? {
            return Ok(None);
        }
        let line = Line::new(alloc, digests)?;
        Ok(Some(line))
    }

    // The path of the revision on the one that it extends, if it extends one. The path shares the line that
    // `shared_line` gives; without one it is in memory of its own size. A revision that extends nothing takes
    // no memory.
    fn path_on(
        &self,
        alloc: Global,
        rev: &DigestRev,
        older: &Option<RevId>,
    ) -> Result<Run, AllocError>
        requires { IsHistory (rev.now ∷ line_to self.now.edits older.now) }
        ensures { IfOk result (λ path. path ≡ rev.now ∷ line_to self.now.edits older.now) }
    {
        let Some(older) = older else {
            return Ok(Run::of_one(rev));
        };
        if let Some(line) = self.shared_line(alloc, older)? {
            return Ok(Run::on(rev, line));
        }
        if let Some(path) = self.digests_on(alloc, rev, older)? {
            return Ok(path);
        }
        let branches = self.branches();
        let count = usize::from(branches.line_length(older));
        let mut revisions = Vec::with_capacity(alloc, 1 + count)?;
        revisions.push(rev.rev())?;
        branches.append_line(older, &mut revisions)?;
        Ok(Run::whole(revisions))
    }

    /// Makes an edit on the leaf `parent`, with its revision and its memory. Without a parent it is an edit
    /// on the winner where that is deleted, and on nothing in a tree with no edit. All else is a conflict,
    /// and so is a new revision that is known. `id` is the document's, and goes into the revision's hash. The
    /// cost is a find of a named leaf, a find of the new revision, and the lengths of the path and the body.
    /// The path is copied, with 16 bytes a revision where the hashes are digests, else with 68. Where the
    /// leaf is the newest of 256 edits and more, and was made on the one before it, the path is shared
    /// instead, and its length costs nothing.
    pub fn look_extend(
        &mut self,
        id: &DocId,
        parent: Option<RevId>,
        deleted: bool,
        body: Body,
    ) -> Result<Ready, EditFault>
        ensures edits { self.new.edits ≡ self.old.edits }
        ensures tree { IsRevTree self.new.edits }
        ensures ok { IfOk result
            (λ ready. edit_of_draft self.old.edits (draft id.now parent deleted body) ≡ Ok ready) }
        ensures acceptable { IfOk result (IsAcceptable self.old.edits) }
        ensures room { IfOk result (λ ready. length ready.path ≤ self.new.room) }
        ensures err { IfErr result (IsEditFault self.old.edits (draft id.now parent deleted body)) }
    {
        let alloc = *self.branches().stems().allocator();
        let older = self.extended(parent)?;
        let rev = match next_rev(alloc, id, older, deleted, &body) {
            Ok(rev) => rev,
            Err(e) => return Err(e),
        };
        if self.knows_digest(&rev) {
            return Err(EditFault::Conflict);
        }
        let path = self.path_on(alloc, &rev, &older)?;
        let ready = self.ready_with(path, Run::of_one(&rev), deleted, body)?;
        Ok(ready)
    }

    /// Makes an edit as `look_extend` does, and takes it. The reply is its revision. An error changes no
    /// edit. The cost is that of `look_extend` and `adopt`.
    pub fn extend(
        &mut self,
        id: &DocId,
        parent: Option<RevId>,
        deleted: bool,
        body: Body,
    ) -> Result<RevId, EditFault>
        ensures ok { IfOk result (λ rev.
            (made : Edit) × (edit_of_draft self.old.edits (draft id.now parent deleted body) ≡ Ok made)
            × (head_of made ≡ Some rev) × (self.new.edits ≡ self.old.edits ++ made ∷ [])) }
        ensures err { IfErr result (λ fault.
            IsEditFault self.old.edits (draft id.now parent deleted body) fault
            × (self.new.edits ≡ self.old.edits)) }
    {
        match self.look_extend(id, parent, deleted, body) {
            Ok(ready) => {
                let rev = ready.rev();
                self.adopt(ready);
                Ok(rev)
            }
            Err(e) => Err(e),
        }
    }
}
