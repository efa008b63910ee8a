//! Lists that grow line by line.

ghost use Rattle.std.specs.Prelude.{◌≡◌, [], ◌∷◌, ◌++◌, IfErr, OnOk, OnErr};

use std::alloc::Global;
use std::mem;
use tc_queues::Items;
use tc_text::Reason;

/// Appends an item. If memory runs out, the items stay as they are.
pub fn append<T: Drop>(alloc: Global, items: &mut Items<T>, item: T) -> Result<(), Reason>
    ensures done { OnOk result (items.new ≡ items.old ++ item ∷ []) }
    ensures reason { IfErr result (λ reason. reason ≡ Reason.NoMemory) }
    ensures refused { OnErr result (items.new ≡ items.old) }
{
    let there = mem::replace(items, Items::from(Vec::new(alloc)));
    let mut more = there.into_vec();
    let pushed = more.push(item);
    *items = Items::from(more);
    match pushed {
        Ok(()) => Ok(()),
        Err(_) => Err(Reason::NoMemory),
    }
}
