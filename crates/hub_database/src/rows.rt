//! The rows of a database as feeds read them.

ghost use Rattle.std.specs.Prelude.{◌≡◌, find, nat_lt, reverse, option_map, Contains, IfOk};
ghost use Rattle.hub_model.specs.Current.{Current, current};
ghost use Rattle.hub_model.specs.Row.{row_of};

use crate::contents::Contents;
use crate::ids::Ids;
use hub_document::{Body, ChangeRow};
use hub_feed::{Source, is_ahead};
use hub_index::SeqIndex;
use hub_model::Style;
use std::alloc::AllocError;

impl Contents {
    /// The last current row below a place, as its sequence and its document's id. It takes no memory.
    pub(crate) fn last_before(&self, place: u64) -> Option<(u64, &str)>
        ensures { option_map (λ p. record { seq = p.0; id = p.1.now }) result
            ≡ find (λ (c : Current). nat_lt c.seq place) (reverse (current self.now.journal)) }
    {
        let (seq, number) = self.index.last_before(place)?;
        let document = &self.documents[number as usize];
        Some((seq, document.id.as_str()))
    }

    // The current row of this sequence, as it is shown now. Its members may be written over those of a spare
    // body.
    #[inline(always)]
    fn row_at(
        &self,
        seq: u64,
        style: Style,
        include_docs: bool,
        spare: Option<Body>,
    ) -> Result<ChangeRow, AllocError>
        requires { (c : Current) × Contains (current self.now.journal) c × (c.seq ≡ seq) }
        ensures { IfOk result (λ r. (c : Current) → Contains (current self.now.journal) c → c.seq ≡ seq
            → r ≡ row_of self.now.journal style include_docs c) }
    {
        let entry = self.journal[seq as usize - 1];
        let document = &self.documents[entry.document as usize];
        document.row(self.alloc, seq, self.length(), style, include_docs, spare)
    }
}

impl Source for Contents {
    ghost use Rattle.std.specs.Prelude.{length, Contains, IfOk, true};
    ghost use Rattle.hub_model.specs.Current.{current};
    ghost use Rattle.hub_model.specs.Row.{ChangeRow, row_of};
    ghost use Rattle.hub_model.proofs.Laws.{rows_rise};
    ghost use Rattle.hub_database.specs.Laid.{rows_below};
    ghost use Rattle.std.proofs.Common.{refl};

    type Row = ChangeRow;

    ghost length = { λ f. length f.journal };

    ghost life = { λ f. f.life };

    ghost current = { λ f. current f.journal };

    ghost shown = { λ f style include_docs c. row_of f.journal style include_docs c };

    ghost seq_of = { λ (r : ChangeRow). r.seq };

    ghost rise = { λ f. rows_rise f.journal };

    ghost within = { λ f c. rows_below f.journal c };

    ghost keeps = { λ f style include_docs c. refl };

    /// Constant time.
    fn length(&self) -> u64 {
        self.journal.len() as u64
    }

    /// Constant time.
    fn life(&self) -> u64 {
        self.life
    }

    /// The cost is that of `SeqIndex::next_after`.
    fn next_after(&self, place: u64, bound: Option<u64>) -> Option<(u64, &str)> {
        let (seq, number) = self.index.next_after(place, bound)?;
        let document = &self.documents[number as usize];
        Some((seq, document.id.as_str()))
    }

    /// The cost is a search of the id.
    fn next_of(&self, id: &str, place: u64, bound: Option<u64>) -> Option<u64> {
        let ids = Ids {
            documents: self.documents.as_slice(),
        };
        let number = ids.number_of(&self.numbers, &self.hints, id)?;
        let document = &self.documents[number as usize];
        let seq = document.latest as u64;
        if is_ahead(place, bound, seq) {
            return Some(seq);
        }
        None
    }

    /// The cost is that of `SeqIndex::count_after`.
    fn count_after(&self, place: u64) -> u64 {
        self.index.count_after(place)
    }

    /// The document is found in constant time. The cost is that of `Document::row`.
    fn row(&self, seq: u64, style: Style, include_docs: bool) -> Result<ChangeRow, AllocError> {
        self.row_at(seq, style, include_docs, None)
    }

    /// The members are written over those of the spare row (`Body::copy_over`). The cost is that of `row`.
    fn row_over(
        &self,
        seq: u64,
        style: Style,
        mut spare: ChangeRow,
    ) -> Result<ChangeRow, AllocError>
        requires { (c : Current) × Contains (current self.now.journal) c × (c.seq ≡ seq) }
        ensures { IfOk result (λ r. (c : Current) → Contains (current self.now.journal) c → c.seq ≡ seq
            → r ≡ row_of self.now.journal style true c) }
    {
        let members = spare.doc.take();
        self.row_at(seq, style, true, members)
    }

    fn seq(row: &ChangeRow) -> u64
        ensures { result ≡ row.now.seq }
    {
        row.seq
    }
}
