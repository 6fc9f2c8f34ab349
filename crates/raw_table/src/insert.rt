// Writing a pair.
ghost use Rattle.std.specs.Prelude.{◌≡◌, ◌++◌, ◌+◌, ◌≤◌, ◌<◌, length, take, drop};
ghost use Rattle.std.proofs.lemmas.List.Edits.{sets};
ghost use Rattle.rules.specs.Hash.{tag_of};
ghost use Rattle.rules.specs.Layout.{entry_at, value_at, total};
ghost use Rattle.rules.specs.Calls.{set_control, insert_answer, insert_book, insert_old};
ghost use Rattle.raw_table.specs.Said.{said_inserted};

use crate::search::{Spot, search};
use memory_layout::kinds::{EntrySizes, Slot, SlotCount, control_of};
use memory_layout::refusal::Refusal;
use memory_layout::table::Table;

// The slot of the pair, which was new or replaced another value; with the number of groups examined.
#[derive(Clone, Copy, Debug, PartialEq, Eq)]
pub enum Inserted {
    New(Slot, usize),
    Replaced(Slot, usize),
}

// The bytes of `src` over those of `dst` from a place on. Byte by byte: by `copy_from_slice` the archive would ask its host for `memmove`.
pub fn overwrite(dst: &mut [u8], at: usize, src: &[u8])
    requires { at + length src.now ≤ length dst.old }
    ensures { dst.new ≡ sets dst.old at src.now }
{
    for i in 0..src.len() {
        dst[at + i] = src[i];
    }
}

// The writers take the lent bytes with their sizes, and no table: one that holds bytes to be written would owe its length again at each store.

// A slot's control byte, and below 16 its mirror.
pub fn set_control(book: &mut [u8], slot: Slot, sizes: EntrySizes, slots: SlotCount, h2: u8)
    requires { (length book.old ≡ total sizes.k sizes.v slots.n) × (slot.0 < slots.n) }
    ensures { book.new ≡ set_control book.old sizes.k sizes.v slots.n slot.0 h2 }
{
    let at = sizes.control_offset(control_of(slot), slots).0;
    book[at] = h2;
    let has_mirror = slot.0 < 16;
    if has_mirror {
        let mirror = sizes.control_offset(slots.mirror_of(slot), slots).0;
        book[mirror] = h2;
    }
}

// A new pair in an empty slot.
pub fn write_new(
    book: &mut [u8],
    slot: Slot,
    sizes: EntrySizes,
    slots: SlotCount,
    key: &[u8],
    value: &[u8],
)
    requires { (length book.old ≡ total sizes.k sizes.v slots.n) × (slot.0 < slots.n) × (length key.now ≡ sizes.k) × (length value.now ≡ sizes.v) }
    ensures { book.new ≡ set_control (sets book.old (entry_at sizes.k sizes.v slot.0) (key.now ++ value.now)) sizes.k sizes.v slots.n slot.0 (tag_of key.now) }
{
    overwrite(book, sizes.entry_offset(slot).0, key);
    overwrite(book, sizes.value_offset(slot).0, value);
    set_control(book, slot, sizes, slots, fxhash::h2(fxhash::hash(key)));
}

// The old value to `old`, and the new one over it.
pub fn replace(
    book: &mut [u8],
    slot: Slot,
    sizes: EntrySizes,
    slots: SlotCount,
    value: &[u8],
    old: &mut [u8],
)
    requires { (length book.old ≡ total sizes.k sizes.v slots.n) × (slot.0 < slots.n) × (length value.now ≡ sizes.v) × (length old.old ≡ sizes.v) }
    ensures book_after { book.new ≡ sets book.old (value_at sizes.k sizes.v slot.0) value.now }
    ensures old_after { old.new ≡ take sizes.v (drop (value_at sizes.k sizes.v slot.0) book.old) }
{
    let at = sizes.value_offset(slot).0;
    let end = at + sizes.v;
    overwrite(old, 0, &book[at..end]);
    overwrite(book, at, value);
}

pub fn insert(
    book: &mut [u8],
    k: usize,
    v: usize,
    key: &[u8],
    value: &[u8],
    old: &mut [u8],
) -> Result<Inserted, Refusal>
    ensures answered { said_inserted result ≡ insert_answer book.old k v key.now value.now old.old }
    ensures book_after { book.new ≡ insert_book book.old k v key.now value.now old.old }
    ensures old_after { old.new ≡ insert_old book.old k v key.now value.now old.old }
{
    let table = Table::open(book, k, v)?;
    if (key.len() != k) | (value.len() != v) | (old.len() != v) {
        return Err(Refusal::Buffers);
    }
    let sizes = table.sizes;
    let slots = table.slots;
    match search(&table, key) {
        Spot::Same(slot, n) => {
            replace(book, slot, sizes, slots, value, old);
            Ok(Inserted::Replaced(slot, n))
        }
        Spot::Free(slot, n) => {
            write_new(book, slot, sizes, slots, key, value);
            Ok(Inserted::New(slot, n))
        }
        Spot::Full(n) => Err(Refusal::NoEnd(n)),
    }
}
