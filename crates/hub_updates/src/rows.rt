//! The rows of the log as feeds read them.

use crate::log::{Log, number_of};
use crate::notice::read_id;
use hub_document::UpdateRow;
use hub_feed::{Source, is_ahead};
use hub_index::SeqIndex;
use hub_model::Style;
use std::alloc::AllocError;

impl Source for Log {
    ghost use Rattle.std.specs.Prelude.{length};
    ghost use Rattle.hub_model.specs.Current.{current};
    ghost use Rattle.hub_model.specs.Updates.{UpdateRow as Shown, edits_of_log, update_row_of};
    ghost use Rattle.hub_model.proofs.Laws.{rows_rise};
    ghost use Rattle.hub_updates.specs.Laid.{rows_below};
    ghost use Rattle.std.proofs.Common.{refl};

    type Row = UpdateRow;

    ghost length = { λ log. length log.notes };

    ghost life = { λ log. log.life };

    ghost current = { λ log. current (edits_of_log log.notes) };

    ghost shown = { λ log style include_docs c. update_row_of (edits_of_log log.notes) style include_docs c };

    ghost seq_of = { λ (r : Shown). r.seq };

    ghost rise = { λ log. rows_rise (edits_of_log log.notes) };

    ghost within = { λ log c. rows_below log.notes c };

    ghost keeps = { λ log style include_docs c. refl };

    /// Constant time.
    fn length(&self) -> u64 {
        self.notes.len() as u64
    }

    /// Constant time.
    fn life(&self) -> u64 {
        self.life
    }

    /// The cost is that of `SeqIndex::next_after`.
    fn next_after(&self, place: u64, bound: Option<u64>) -> Option<(u64, &str)> {
        let (seq, number) = self.index.next_after(place, bound)?;
        let pair = &self.pairs[number as usize];
        Some((seq, pair.id.as_str()))
    }

    /// The cost is a look in the map of ids.
    fn next_of(&self, id: &str, place: u64, bound: Option<u64>) -> Option<u64> {
        let number = number_of(&self.numbers, id)?;
        let pair = &self.pairs[number as usize];
        if is_ahead(place, bound, pair.latest) {
            return Some(pair.latest);
        }
        None
    }

    /// The cost is that of `SeqIndex::count_after`.
    fn count_after(&self, place: u64) -> u64 {
        self.index.count_after(place)
    }

    /// The pair is found in constant time, and the name is copied. The style and `include_docs` have no
    /// effect: a note has no revisions and no document.
    fn row(&self, seq: u64, _style: Style, _include_docs: bool) -> Result<UpdateRow, AllocError> {
        let number = self.notes[seq as usize - 1];
        let pair = &self.pairs[number as usize];
        let (kind, name) = read_id(pair.id.as_str());
        let db_name = name.to_string(self.alloc)?;
        Ok(UpdateRow {
            db_name,
            kind,
            seq,
            seen: self.notes.len() as u64,
        })
    }

    fn seq(row: &UpdateRow) -> u64 {
        row.seq
    }
}
