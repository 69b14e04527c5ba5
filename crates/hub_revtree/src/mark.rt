//! The marks of edits, in one byte each.

ghost use Rattle.std.specs.Prelude.{◌≡◌, false, true};
ghost use Rattle.hub_revtree.specs.Mark.{is_deletion, is_passed};

/// Whether an edit deletes the document, and whether its revision is inner: it stands behind that of another
/// edit by now.
#[derive(Clone, Copy, Debug)]
pub(crate) enum Mark {
    Leaf,
    DeletedLeaf,
    Inner,
    DeletedInner,
}

impl Mark {
    /// The mark of an edit whose revision is a leaf.
    pub(crate) fn of_leaf(deleted: bool) -> Mark
        ensures deletes { is_deletion result ≡ deleted }
        ensures inner { is_passed result ≡ false }
    {
        if deleted {
            Mark::DeletedLeaf
        } else {
            Mark::Leaf
        }
    }

    /// Whether the edit deletes the document.
    pub(crate) fn deleted(self) -> bool
        ensures { result ≡ is_deletion self }
    {
        match self {
            Mark::Leaf | Mark::Inner => false,
            Mark::DeletedLeaf | Mark::DeletedInner => true,
        }
    }

    /// Whether the revision is inner.
    pub(crate) fn is_inner(self) -> bool
        ensures { result ≡ is_passed self }
    {
        match self {
            Mark::Leaf | Mark::DeletedLeaf => false,
            Mark::Inner | Mark::DeletedInner => true,
        }
    }

    /// The mark of the same edit, once its revision is inner.
    pub(crate) fn passed(self) -> Mark
        ensures deletes { is_deletion result ≡ is_deletion self }
        ensures inner { is_passed result ≡ true }
    {
        match self {
            Mark::Leaf | Mark::Inner => Mark::Inner,
            Mark::DeletedLeaf | Mark::DeletedInner => Mark::DeletedInner,
        }
    }
}
