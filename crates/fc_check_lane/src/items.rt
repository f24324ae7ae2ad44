//! Lists that are copied, or get one more item, where memory may be wanted.

ghost use Rattle.std.specs.Prelude.{◌≡◌, [], ◌∷◌, ◌++◌, IfOk, OnOk};

use fc_base::outcome::NoMemory;
use std::alloc::Global;

/// The same items again. Refused for want of memory alone.
pub fn copy_items<T: Copy>(alloc: Global, items: &[T]) -> Result<Vec<T>, NoMemory>
    ensures { IfOk result (λ copy. copy.items ≡ items.now) }
{
    match Vec::from_slice(alloc, items) {
        Ok(copy) => Ok(copy),
        Err(_) => Err(NoMemory),
    }
}

/// Puts an item at the end. Refused for want of memory alone.
pub fn push_item<T: Drop>(items: &mut Vec<T>, item: T) -> Result<(), NoMemory>
    ensures { OnOk result (items.new.items ≡ items.old.items ++ item ∷ []) }
{
    match items.push(item) {
        Ok(()) => Ok(()),
        Err(_) => Err(NoMemory),
    }
}
