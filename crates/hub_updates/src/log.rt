//! The notes of the log, and the row of each pair of a kind and a name.

ghost use Rattle.std.specs.Prelude.{ℕ, List, ◌≡◌, ◌+◌, ◌-◌, ◌^◌, ◌<◌, ◌++◌, ◌∷◌, [], Some, None};
ghost use Rattle.std.specs.Prelude.{length, option_map, slice_get, string_bytes, IfOk, OnOk, OnErr};
ghost use Rattle.std.specs.Prelude.{MatchResult};
ghost use Rattle.std.specs.BTreeMap.{get_by_text};
ghost use Rattle.std.specs.Map.{update};
ghost use Rattle.std.specs.Str.{bytes_eq};
ghost use Rattle.hub_index.specs.Rows.{rows_after_move};
ghost use Rattle.hub_updates.specs.Kept.{IsMovable, ids_of, ids_with_sequence};

use crate::notice::Notice;
use hub_index::{PageIndex, SeqIndex};
use std::alloc::{AllocError, Global};
use std::collections::BTreeMap;
use std::marker::Model;

/// A pair of a kind and a name that was noted.
#[derive(Debug, Drop)]
pub(crate) struct Pair {
    /// The letter of the kind, and then the name.
    pub(crate) id: String,
    /// The sequence of the pair's latest note.
    pub(crate) latest: u64,
}

/// The notes, and the rows of the log.
#[derive(Debug, Drop)]
pub(crate) struct Log {
    /// The number of each note's pair, the first note first.
    pub(crate) notes: Vec<u32>,
    /// The pairs, in the order of their first notes.
    pub(crate) pairs: Vec<Pair>,
    /// The pairs' numbers by their ids.
    pub(crate) numbers: BTreeMap<String, u32>,
    /// The pairs' numbers by the sequences of their latest notes.
    pub(crate) index: PageIndex,
    /// The number of the log's life.
    pub(crate) life: u64,
    pub(crate) alloc: Global,
}

impl Model for Log {
    ghost use Rattle.std.specs.BTreeMap.{get_by_text};
    ghost use Rattle.hub_updates.specs.Kept.{IsKept, ids_of, notes_of};
    ghost use Rattle.hub_updates.specs.Log.{LogContents};

    ghost Value = { LogContents };

    ghost view = { λ a. record { notes = notes_of (ids_of a.pairs.items) a.notes.items; life = a.life } };

    ghost invariant = { λ a. IsKept (get_by_text a.numbers) (ids_of a.pairs.items) a.notes.items a.index };
}

/// The number of the pair with this id. The cost is one look in the map.
pub(crate) fn number_of(numbers: &BTreeMap<String, u32>, id: &str) -> Option<u32>
    ensures { result ≡ get_by_text numbers.now id.now }
{
    numbers.get(id).copied()
}

// Moves the row of a pair that is there to a new sequence. An error leaves all as it was.
fn raise(
    pairs: &mut Vec<Pair>,
    index: &mut PageIndex,
    number: u32,
    seq: u64,
) -> Result<(), AllocError>
    requires there { number < length pairs.old.items }
    requires row { let latest = option_map (λ p. p.1) (slice_get (ids_of pairs.old.items) number) in
        IsMovable number latest seq index.old }
    ensures pairs { OnOk result (ids_of pairs.new.items ≡ ids_with_sequence number seq (ids_of pairs.old.items)) }
    ensures index { OnOk result (index.new ≡ rows_after_move index.old number seq) }
    ensures err { OnErr result ((ids_of pairs.new.items ≡ ids_of pairs.old.items)
        × (index.new ≡ index.old)) }
{
    let pair = &mut pairs[number as usize];
    index.move_to(number, Some(pair.latest), seq)?;
    pair.latest = seq;
    Ok(())
}

// Takes in a new pair, and answers its number. Room is made in the list first, then the map grows, and the
// index last. An error leaves all as it was.
fn add(
    pairs: &mut Vec<Pair>,
    numbers: &mut BTreeMap<String, u32>,
    index: &mut PageIndex,
    alloc: Global,
    id: String,
    seq: u64,
) -> Result<u32, AllocError>
    requires room { length pairs.old.items < 2 ^ 32 }
    requires new { get_by_text numbers.old (string_bytes id) ≡ None }
    requires row { IsMovable (length pairs.old.items) None seq index.old }
    ensures number { IfOk result (λ number. number ≡ length pairs.old.items) }
    ensures pairs { OnOk result
        (ids_of pairs.new.items ≡ ids_of pairs.old.items ++ (string_bytes id, seq) ∷ []) }
    ensures numbers { IfOk result (λ number. (q : List ℕ) → get_by_text numbers.new q
        ≡ update bytes_eq (get_by_text numbers.old) (string_bytes id) (Some number) q) }
    ensures index { IfOk result (λ number. index.new ≡ rows_after_move index.old number seq) }
    ensures err { OnErr result ((ids_of pairs.new.items ≡ ids_of pairs.old.items)
        × ((q : List ℕ) → get_by_text numbers.new q ≡ get_by_text numbers.old q)
        × (index.new ≡ index.old)) }
{
    pairs.try_reserve(1)?;
    let key = String::from_str(alloc, id.as_str())?;
    let number = pairs.len() as u32;
    numbers.insert(key, number)?;
    if let Err(AllocError) = index.move_to(number, None, seq) {
        numbers.remove(id.as_str());
        return Err(AllocError);
    }
    pairs.push_reserved(Pair { id, latest: seq });
    Ok(number)
}

impl Log {
    /// An empty log, with this number as its life. It takes no memory yet. `note` takes memory from this
    /// allocator.
    pub(crate) fn new(alloc: Global, life: u64) -> Log
        ensures { result ≡ record { notes = []; life = life } }
    {
        Log {
            notes: Vec::new(alloc),
            pairs: Vec::new(alloc),
            numbers: BTreeMap::new(alloc),
            index: PageIndex::new(alloc),
            life,
            alloc,
        }
    }

    /// Adds a note at the end. The cost is a look in the map of ids and a move in the index of rows. A
    /// pair's first note costs two copies of its id. An error leaves all as it was.
    pub(crate) fn note(&mut self, notice: &Notice) -> Result<(), AllocError>
        requires room { length self.old.notes < 2 ^ 32 - 1 }
        ensures { MatchResult result
            (λ _. self.new ≡ record self.old { notes = self.old.notes ++ notice.now ∷ [] })
            (λ _. self.new ≡ self.old) }
    {
        self.notes.try_reserve(1)?;
        let seq = self.notes.len() as u64 + 1;
        match number_of(&self.numbers, notice.id()) {
            Some(number) => {
                raise(&mut self.pairs, &mut self.index, number, seq)?;
                self.notes.push_reserved(number);
                Ok(())
            }
            None => {
                let id = String::from_str(self.alloc, notice.id())?;
                let number = add(
                    &mut self.pairs,
                    &mut self.numbers,
                    &mut self.index,
                    self.alloc,
                    id,
                    seq,
                )?;
                self.notes.push_reserved(number);
                Ok(())
            }
        }
    }
}
