//! The outcomes of an edit that is merged into a tree, and the faults of one that is made.

use std::alloc::AllocError;

/// The outcome of an edit that was merged without a fault.
#[derive(Clone, Copy, Debug, PartialEq, Eq)]
pub enum Merged {
    /// The tree has it now.
    Added,
    /// The edit's revision was known, and nothing changed.
    Known,
}

/// The reason why an edit is not merged.
#[derive(Clone, Copy, Debug, PartialEq, Eq)]
pub enum MergeFault {
    /// Memory was not to be had.
    NoMemory,
    /// The edit's path gives a known revision another parent.
    Contradicts,
}

impl From<AllocError> for MergeFault {
    ghost use Rattle.std.specs.Prelude.{◌≡◌};
    ghost use Rattle.hub_revtree.specs.declared.fault.MergeFault.TheVariants.{NoMemory};

    ghost from_gives = { λ _ e. e ≡ NoMemory };

    fn from(_refused: AllocError) -> MergeFault {
        MergeFault::NoMemory
    }
}

/// The reason why an edit is not made.
#[derive(Clone, Copy, Debug, PartialEq, Eq)]
pub enum EditFault {
    /// Memory was not to be had.
    NoMemory,
    /// The named revision is no leaf, an unnamed winner is not deleted, or the new revision is known.
    Conflict,
    /// The revision that the edit extends has the last generation, 65,535.
    GenerationLimit,
}

impl From<AllocError> for EditFault {
    ghost use Rattle.std.specs.Prelude.{◌≡◌};
    ghost use Rattle.hub_revtree.specs.declared.fault.EditFault.TheVariants.{NoMemory};

    ghost from_gives = { λ _ e. e ≡ NoMemory };

    fn from(_refused: AllocError) -> EditFault {
        EditFault::NoMemory
    }
}
