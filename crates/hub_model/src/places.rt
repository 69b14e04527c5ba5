//! The place of an entry among entries with numbers.

ghost use Rattle.std.specs.Prelude.{◌≡◌, position};
ghost use Rattle.hub_model.specs.Entries.{is_of, AreRising};

/// The place, from 0, of the entry with this number, among entries whose numbers rise. A binary search: the
/// cost is logarithmic in the number of entries.
pub fn place_of<T>(entries: &[(u64, T)], number: u64) -> Option<usize>
    requires rising { AreRising entries.now }
    ensures { result ≡ position (is_of number) entries.now }
{
    entries.binary_search_by_key(&number, |entry| entry.0).ok()
}

/// The same place, where `near` is a guess. A right guess costs constant time, and a wrong guess costs as
/// much as `place_of`.
pub fn place_near<T>(entries: &[(u64, T)], near: usize, number: u64) -> Option<usize>
    requires rising { AreRising entries.now }
    ensures { result ≡ position (is_of number) entries.now }
{
    if near < entries.len() && entries[near].0 == number {
        return Some(near);
    }
    place_of(entries, number)
}
