//! Memory for one more element of a list.

ghost use Rattle.std.specs.Prelude.{◌≡◌, ◌+◌, ◌≤◌, vec_len, vec_capacity, OnOk};

use std::alloc::AllocError;

/// From this number of elements on, a list grows by a part of it.
const LARGE: usize = 1024;

/// Makes room for one more element. A full list takes memory for as many more elements as it has. A large
/// one takes it for an eighth of them, so that no more is left unused. An element is moved some nine times
/// at most on average: one more costs constant time on average.
pub(crate) fn reserve_one<T>(list: &mut Vec<T>) -> Result<(), AllocError>
    ensures items { list.new.items ≡ list.old.items }
    ensures len { vec_len list.new ≡ vec_len list.old }
    ensures ok { OnOk result (vec_len list.new + 1 ≤ vec_capacity list.new) }
{
    let count = list.len();
    if count < LARGE || count < list.capacity() {
        return list.try_reserve(1);
    }
    list.try_reserve_exact(count / 8)
}
