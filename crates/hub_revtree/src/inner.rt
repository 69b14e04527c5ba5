//! Notes of the stems whose newest revisions stand behind others.

ghost use Rattle.std.specs.Prelude.{◌≡◌, ◌<◌, ◌≤◌, ◌||◌, Some, drop, false, length, option_map};
ghost use Rattle.std.specs.Prelude.{slice_get, slice_set, true, vec_capacity, vec_len};
ghost use Rattle.std.specs.List.{list_any};
ghost use Rattle.hub_model.specs.Path.{names};
ghost use Rattle.hub_revtree.specs.Lookup.{AreIndexed, IsPlaceIn, MayCome};
ghost use Rattle.hub_revtree.specs.Mark.{NotesOnly, with_note};
ghost use Rattle.hub_revtree.specs.Stem.{Stem as StemModel, has_revision, is_at};

use crate::index::Index;
use crate::run::Run;
use crate::stem::{Place, Standing, Stem};
use crate::stems::place_of;

// Notes the stem of this number as inner. Constant time.
fn note(stems: &mut [Stem], number: usize)
    requires { number < length stems.old }
    ensures { (s : StemModel) → slice_get stems.old number ≡ Some s
        → stems.new ≡ slice_set stems.old number (with_note true s) }
{
    stems[number].pass();
}

// Notes the stem of the place as inner, where the place is that of its newest revision. Constant time.
fn note_at(stems: &mut [Stem], place: Place)
    requires { IsPlaceIn stems.old place }
    ensures { NotesOnly stems.old (λ r. is_at stems.old r (Some place)) stems.new }
{
    if place.at == 0 {
        note(stems, place.stem);
    }
}

// Notes the stems as inner whose newest revisions are in the run behind its first. Where the run joins none,
// no stem has a revision of it, and nothing is done. Else a find for each of these revisions.
fn note_joined(stems: &mut [Stem], index: Option<&Index>, run: &Run, joins: bool)
    requires indexed { AreIndexed stems.old (option_map (λ i. i.now) index) }
    requires some { 1 ≤ length run.now }
    requires fresh { joins ≡ false → list_any (has_revision stems.old) run.now ≡ false }
    ensures { NotesOnly stems.old (λ r. names (drop 1 run.now) r) stems.new }
{
    if !joins {
        return;
    }
    for at in (1..run.len()).rev() {
        if let Some(place) = place_of(stems, index, &run.at(at)) {
            note_at(stems, place);
        }
    }
}

/// Notes the stems as inner whose newest revisions stand behind that of the next stem, which has this run and
/// this standing. Constant time where the next stem joins none; else a find for each revision of the run.
pub(crate) fn note_inner(
    stems: &mut Vec<Stem>,
    index: Option<&Index>,
    run: &Run,
    standing: &Standing,
)
    requires { MayCome stems.old.items (option_map (λ i. i.now) index) run.now standing.now }
    ensures notes { NotesOnly stems.old.items
        (λ r. is_at stems.old.items r standing.now.parent || names (drop 1 run.now) r) stems.new.items }
    ensures len { vec_len stems.new ≡ vec_len stems.old }
    ensures capacity { vec_capacity stems.new ≡ vec_capacity stems.old }
{
    let list = stems.as_mut_slice();
    note_joined(list, index, run, standing.joins);
    if let Some(place) = standing.parent {
        note_at(list, place);
    }
}
