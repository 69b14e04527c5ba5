//! A plain list of edits, for feeds to follow.

ghost use Rattle.std.specs.Prelude.{◌≡◌, length as list_length, refl};
ghost use Rattle.hub_feed_tests.specs.Edits.{rows_of};
ghost use Rattle.hub_feed_tests.specs.EditsLaws.{rows_rise, rows_within};

use hub_feed::{Source, is_ahead};
use hub_model::Style;
use std::alloc::AllocError;

/// The document of each edit; none where a later edit of the same document follows.
#[derive(Clone, Copy)]
pub struct Edits<'a> {
    pub ids: &'a [Option<&'a str>],
}

/// A row, with the parameters by which it was asked for.
#[derive(Clone, Copy, Debug, PartialEq, Eq)]
pub struct Shown {
    pub seq: u64,
    pub style: Style,
    pub include_docs: bool,
}

impl<'a> Source for Edits<'a> {
    type Row = Shown;

    ghost length = { λ s. list_length s.ids.now };

    ghost life = { λ s. 4 };

    ghost current = { λ s. rows_of 1 s.ids.now };

    ghost shown = { λ s style include_docs c.
        record { seq = c.seq; style = style; include_docs = include_docs } };

    ghost seq_of = { λ row. row.seq };

    ghost rise = { λ s. rows_rise 1 s.ids.now };

    ghost within = { λ s. rows_within s.ids.now };

    ghost keeps = { λ s style include_docs c. refl };

    fn length(&self) -> u64 {
        self.ids.len() as u64
    }

    fn life(&self) -> u64 {
        4
    }

    fn next_after(&self, place: u64, bound: Option<u64>) -> Option<(u64, &str)> {
        let mut seq = 0;
        for edit in self.ids {
            seq += 1;
            match edit {
                Some(id) if is_ahead(place, bound, seq) => return Some((seq, *id)),
                _ => {}
            }
        }
        None
    }

    fn next_of(&self, id: &str, place: u64, bound: Option<u64>) -> Option<u64> {
        let mut seq = 0;
        for edit in self.ids {
            seq += 1;
            match edit {
                Some(of) if *of == id && is_ahead(place, bound, seq) => return Some(seq),
                _ => {}
            }
        }
        None
    }

    fn count_after(&self, place: u64) -> u64 {
        let mut seq = 0;
        let mut count = 0;
        for edit in self.ids {
            seq += 1;
            if edit.is_some() && place < seq {
                count += 1;
            }
        }
        count
    }

    fn row(&self, seq: u64, style: Style, include_docs: bool) -> Result<Shown, AllocError> {
        Ok(Shown {
            seq,
            style,
            include_docs,
        })
    }

    fn seq(row: &Shown) -> u64
        ensures { result ≡ row.now.seq }
    {
        row.seq
    }
}
