//! What holds of the definitions alone. Each is the contract of a function that does nothing.

ghost use Rattle.std.specs.Prelude.{◌≡◌, Ok};
ghost use Rattle.issuer_items.specs.Item.{Item, item};
ghost use Rattle.issuer_items.specs.WrittenItem.{item_bytes, IsWritable};

/// What was written of an item is read as that item.
pub fn written_item_is_read()
    ensures { (it : Item) → IsWritable it → item (item_bytes it) ≡ Ok it }
{}
