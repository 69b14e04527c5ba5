//! Descending answers.

ghost use Rattle.std.specs.Prelude.{◌≡◌, ◌≤◌, ◌&&◌, [], map, count_by, nat_lt, IfOk, OnErr};
ghost use Rattle.hub_model.specs.Current.{Current, current};
ghost use Rattle.hub_model.specs.Descending.{descending, falling_rows};
ghost use Rattle.hub_model.specs.Row.{row_of};
ghost use Rattle.hub_database.specs.Falling.{lowest_row, most_of};
ghost use Rattle.hub_params.specs.FeedModel.{params_of};

use crate::contents::Contents;
use hub_document::ChangeRow;
use hub_feed::Source;
use hub_params::FeedParams;
use std::alloc::AllocError;
use std::marker::Model;

/// An answer to a feed that goes downwards (CouchDB API reference, `_changes` with
/// `descending=true`).
#[derive(Debug, Drop)]
pub struct Descending {
    /// The greatest sequence first.
    pub rows: Vec<ChangeRow>,
    /// The sequence of the last row; without rows the sequence at which the feed began.
    pub last_seq: u64,
    /// The number of current rows above the feed's beginning and below `last_seq`.
    pub pending: u64,
    /// The number of the life of these sequences.
    pub life: u64,
}

impl Model for Descending {
    ghost use Rattle.hub_model.specs.Current.{Current, current};
    ghost use Rattle.hub_model.specs.Descending.{Descending as Falling};

    ghost Value = { Falling };

    ghost view = { λ a. record {
      rows = a.rows.items;
      last_seq = a.last_seq;
      pending = a.pending;
      life = a.life;
    } };
}

// The most rows that are shown: the limit, where 0 acts as 1, or without a limit the length.
fn most_of(limit: Option<u64>, length: u64) -> u64
    ensures { result ≡ most_of limit length }
{
    match limit {
        Some(limit) => limit.max(1),
        None => length,
    }
}

// The sequence of the last row; without rows the sequence at which the feed began.
fn lowest_row(rows: &[ChangeRow], since: u64) -> u64
    ensures { result ≡ lowest_row since rows.now }
{
    match rows.last() {
        Some(row) => row.seq,
        None => since,
    }
}

impl Contents {
    // The number of current rows above `since` and below `last_seq`, which is no lower.
    fn count_between(&self, since: u64, last_seq: u64) -> u64
        requires { since ≤ last_seq }
        ensures { result
            ≡ count_by (λ (c : Current). nat_lt since c.seq && nat_lt c.seq last_seq)
            (current self.now.journal) }
    {
        let above = self.count_after(last_seq.saturating_sub(1));
        self.count_after(since).saturating_sub(above)
    }

    // The current rows above `since` that pass, the greatest sequence first, up to the limit.
    fn falling(&self, params: &FeedParams, since: u64) -> Result<Vec<ChangeRow>, AllocError>
        ensures ok { let asked = params_of params.now in
            IfOk result (λ rows. rows.items
            ≡ map (row_of self.now.journal asked.style asked.include_docs)
            (falling_rows self.now.journal asked since)) }
        ensures memory { OnErr result (¬ (falling_rows self.now.journal (params_of params.now) since ≡ [])) }
    {
        let most = most_of(params.limit, self.length());
        let mut rows = Vec::new(self.alloc);
        let mut place = self.length() + 1;
        while (rows.len() as u64) < most {
            let Some((seq, id)) = self.last_before(place) else {
                return Ok(rows);
            };
            if seq <= since {
                return Ok(rows);
            }
            place = seq;
            if !params.filter.passes(id) {
                continue;
            }
            rows.push(self.row(seq, params.style, params.include_docs)?)?;
        }
        Ok(rows)
    }

    /// The current rows that pass, the greatest sequence first, in one answer. Only `since`, `limit`,
    /// `style`, `include_docs` and `filter` are looked at. The index makes a step for each row from the end
    /// to the last one shown, or to `since` with rows below the limit. The cost is these steps, the rows
    /// shown, and two counts of rows: a step for each page of the index above a place.
    pub fn changes_descending(&self, params: &FeedParams) -> Result<Descending, AllocError>
        ensures ok { IfOk result (λ answer.
            answer ≡ descending self.now.journal self.now.life (params_of params.now)) }
        ensures memory { OnErr result
            (¬ ((descending self.now.journal self.now.life (params_of params.now)).rows ≡ [])) }
    {
        let since = params.since.within(self.length(), self.life);
        let rows = self.falling(params, since)?;
        let last_seq = lowest_row(rows.as_slice(), since);
        let pending = self.count_between(since, last_seq);
        Ok(Descending {
            rows,
            last_seq,
            pending,
            life: self.life,
        })
    }
}
