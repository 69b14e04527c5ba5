//! Copies of lists.

ghost use Rattle.std.specs.Prelude.{◌≡◌, IfOk, Ok};

use std::alloc::{AllocError, Global};

/// Copies of these items, each made by `copy`, which takes the allocator. The cost is that of its calls.
pub(crate) fn copies_of<T: Drop, F: Fn(&T, Global) -> Result<T, AllocError>>(
    alloc: Global,
    items: &[T],
    copy: F,
) -> Result<Vec<T>, AllocError>
    requires callable { F.IsAlwaysCallable copy }
    requires same { (item : _) (made : T) → F.post copy item alloc (Ok made) → made ≡ item.now }
    ensures { IfOk result (λ copies. copies.items ≡ items.now) }
{
    let mut copies = Vec::new(alloc);
    for item in items {
        copies.push(copy(item, alloc)?)?;
    }
    Ok(copies)
}
