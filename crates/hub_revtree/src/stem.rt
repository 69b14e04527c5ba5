//! The part of one edit that a tree keeps.

ghost use Rattle.std.specs.Prelude.{◌≡◌, ◌≤◌, ◌<◌, ◌++◌, Some, false, true, drop, length, map, option_map};
ghost use Rattle.std.specs.Prelude.{slice_get, take, IfSome, IfNone, IfOk, IsSomeAnd, IsTrue, OnErr, OnOk};
ghost use Rattle.hex.specs.Hex.{encode_lower};
ghost use Rattle.hub_document.specs.Changes.{IsDigestText};
ghost use Rattle.hub_model.specs.Path.{IsPath, names, is_first};
ghost use Rattle.hub_model.specs.Revision.{Revision};
ghost use Rattle.hub_revtree.specs.Common.{common as common_of};
ghost use Rattle.hub_revtree.specs.Key.{HasKey};
ghost use Rattle.hub_revtree.specs.Mark.{is_deletion, is_passed, with_note};

use crate::mark::Mark;
use crate::run::Run;
use crate::sought::Sought;
use hub_document::{Body, Changes, RevId};
use std::alloc::{AllocError, Global};
use std::marker::Model;
use std::mem::size_of;

/// The place of a revision: the number of a stem that has it, and its position among that stem's revisions,
/// from 0 for the newest.
#[derive(Clone, Copy)]
pub(crate) struct Place {
    pub(crate) stem: usize,
    pub(crate) at: u16,
}

/// The revisions that an edit brought, newest first, with its mark and its members. They are the first of the
/// edit's path, up to the last that was unknown, or with which a chain ended before the path did. The rest of
/// the path is the front of a chain, from the place on that the stem stands on. A stem takes 72 bytes, and
/// the memory of the revisions and the members.
#[derive(Debug, Drop)]
pub(crate) struct Stem {
    run: Run,
    body: Body,
    /// The number of the stem on which this one stands, and the place there; both 0 where it stands on none.
    below: usize,
    at: u16,
    /// How many revisions the edit's path has.
    count: u16,
    /// How many revisions the stem's chain has: more than the stem where it stands on another.
    reach: u16,
    /// Whether an earlier stem has one of this stem's revisions.
    joins: bool,
    mark: Mark,
}

/// How an edit's path goes on behind the revisions that its stem keeps.
#[derive(Clone, Copy)]
pub(crate) struct Standing {
    /// The place of the path's next revision; None where the stem keeps the whole path.
    pub(crate) parent: Option<Place>,
    /// How many revisions the path has.
    pub(crate) count: u16,
    /// How many revisions the stem's chain has.
    pub(crate) reach: u16,
    /// Whether an earlier stem has one of the stem's revisions.
    pub(crate) joins: bool,
}

const _: () = prove!(size_of::<Stem>() == 72);

impl Model for Stem {
    ghost use Rattle.hub_revtree.specs.Stem.{Stem, place_on_stem};

    ghost Value = { Stem };

    ghost use Rattle.std.specs.Prelude.{length, nat_lt};
    ghost use Rattle.hub_model.specs.Path.{IsPath};
    ghost use Rattle.hub_revtree.specs.Mark.{is_deletion, is_passed};

    ghost view = { λ a. record {
      revisions = a.run;
      parent = place_on_stem (nat_lt (length a.run) a.reach) a.below a.at;
      count = a.count;
      reach = a.reach;
      joins = a.joins;
      deleted = is_deletion a.mark;
      inner = is_passed a.mark;
      body = a.body;
    } };

    ghost invariant = { λ a. IsPath a.run };
}

impl Stem {
    /// The stem of these revisions, mark and members; it is noted as a leaf.
    pub(crate) fn new(run: Run, standing: Standing, deleted: bool, body: Body) -> Stem
        requires path { IsPath run }
        requires stands { IfSome standing.parent (λ _. length run < standing.reach) }
        requires free { IfNone standing.parent (standing.reach ≤ length run) }
        ensures { result ≡ record {
          revisions = run;
          parent = standing.parent;
          count = standing.count;
          reach = standing.reach;
          joins = standing.joins;
          deleted = deleted;
          inner = false;
          body = body;
        } }
    {
        let place = standing.parent.unwrap_or(Place { stem: 0, at: 0 });
        Stem {
            run,
            body,
            below: place.stem,
            at: place.at,
            count: standing.count,
            reach: standing.reach,
            joins: standing.joins,
            mark: Mark::of_leaf(deleted),
        }
    }

    /// The place of the revision behind the stem's last: the stem stands on it, if on any. Constant time.
    pub(crate) fn parent(&self) -> Option<Place>
        ensures { result ≡ self.now.parent }
    {
        let stands = self.run.len() < usize::from(self.reach);
        stands.then_some(Place {
            stem: self.below,
            at: self.at,
        })
    }

    /// How many revisions the edit's path has.
    pub(crate) fn count(&self) -> u16
        ensures { result ≡ self.now.count }
    {
        self.count
    }

    /// How many revisions the stem's chain has.
    pub(crate) fn reach(&self) -> u16
        ensures { result ≡ self.now.reach }
    {
        self.reach
    }

    /// Whether an earlier stem has one of this stem's revisions.
    pub(crate) fn joins(&self) -> bool
        ensures { result ≡ self.now.joins }
    {
        self.joins
    }

    /// Whether the edit deletes the document, and whether the stem's newest revision is inner: it stands
    /// behind that of another stem by now.
    pub(crate) fn mark(&self) -> Mark
        ensures deletes { is_deletion result ≡ self.now.deleted }
        ensures inner { is_passed result ≡ self.now.inner }
    {
        self.mark
    }

    /// Notes that the stem's newest revision is inner.
    pub(crate) fn pass(&mut self)
        ensures { self.new ≡ with_note true self.old }
    {
        self.mark = self.mark.passed();
    }

    /// The edit's members.
    pub(crate) fn body(&self) -> &Body
        ensures { result.now ≡ self.now.body }
    {
        &self.body
    }

    /// The stem's own revisions.
    pub(crate) fn run(&self) -> &Run
        ensures { result.now ≡ self.now.revisions }
    {
        &self.run
    }

    /// The newest of the stem's revisions. Constant time.
    pub(crate) fn head(&self) -> RevId
        ensures { slice_get self.now.revisions 0 ≡ Some result }
    {
        self.run.at(0)
    }

    /// Whether the revision is the stem's newest. Constant time.
    pub(crate) fn is_head(&self, sought: &Sought) -> bool
        ensures { result ≡ is_first sought.now self.now.revisions }
    {
        self.run.is_at(0, sought)
    }
}
