//! Revisions as keys of an ordered map.

ghost use Rattle.std.specs.Prelude.{◌≡◌, Some, refl};
ghost use Rattle.std.specs.Ordering.{eq_by_cmp};
ghost use Rattle.std.specs.Cmp.{partial_equiv_from_equiv, partial_order_from_total};
ghost use Rattle.hub_model.specs.Revision.{revision_cmp};
ghost use Rattle.hub_revtree.specs.Order.{revisions_level, revisions_total};

use crate::leaf::revision_order;
use hub_document::RevId;
use std::cmp::Ordering;
use std::marker::Model;

/// A revision as a key: in the order of the generations, and then of the hashes.
#[derive(Debug, Drop)]
pub(crate) struct RevKey {
    pub(crate) rev: RevId,
}

impl Model for RevKey {
    ghost use Rattle.hub_model.specs.Revision.{Revision};

    ghost Value = { Revision };

    ghost view = { λ a. a.rev };
}

impl PartialEq for RevKey {
    ghost eq = { eq_by_cmp revision_cmp };

    ghost laws = { partial_equiv_from_equiv revisions_level };

    fn eq(&self, other: &RevKey) -> bool {
        self.cmp(other).is_eq()
    }
}

impl Eq for RevKey {
    ghost laws = { revisions_level };
}

impl PartialOrd for RevKey {
    ghost partial_cmp = { λ r s. Some (revision_cmp r s) };

    ghost laws = { partial_order_from_total revisions_total };

    fn partial_cmp(&self, other: &RevKey) -> Option<Ordering> {
        Some(self.cmp(other))
    }
}

impl Ord for RevKey {
    ghost cmp = { revision_cmp };

    ghost total = { revisions_total };

    ghost matches_partial_cmp = { λ r s. refl };

    ghost matches_eq = { λ r s. refl };

    fn cmp(&self, other: &RevKey) -> Ordering {
        revision_order(&self.rev, &other.rev)
    }
}
