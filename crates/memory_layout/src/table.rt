// A book that passed rows 1 to 10. The calls take any bytes and any sizes, and begin by making a table of them.
ghost use Rattle.std.specs.Prelude.{◌≡◌, ◌<◌, length, IfOk};
ghost use Rattle.rules.specs.Layout.{total};

use crate::header::check_header;
use crate::kinds::{EntrySizes, Slot, SlotCount, control_of};
use crate::refusal::Refusal;

// Its bytes, with the sizes that they were checked by and the slot count that they state.
#[derive(Clone, Copy)]
pub struct Table<'a> {
    pub bytes: &'a [u8],
    pub sizes: EntrySizes,
    pub slots: SlotCount,
    pub ghost long: { length bytes.now ≡ total sizes.k sizes.v slots.n },
}

impl<'a> Table<'a> {
    ghost use Rattle.memory_layout.specs.Checked.{checked};
    ghost use Rattle.memory_layout.specs.TableParts.{said_table, control_in, key_in, value_in, entry_in};

    pub fn open(book: &'a [u8], k: usize, v: usize) -> Result<Table<'a>, Refusal>
        ensures answered { said_table result ≡ checked book.now k v }
        ensures opened { IfOk result (λ table. (table.bytes ≡ book.entry) × (table.sizes.k ≡ k) × (table.sizes.v ≡ v)) }
    {
        let slots = check_header(book, k, v)?;
        let sizes = EntrySizes { k, v };
        Ok(Table {
            bytes: book,
            sizes,
            slots,
        })
    }

    pub fn control_byte(&self, slot: Slot) -> u8
        requires { slot.0 < self.now.slots.n }
        ensures { result ≡ control_in self.now slot.0 }
    {
        let at = self.sizes.control_offset(control_of(slot), self.slots).0;
        self.bytes[at]
    }

    // The key and the value that stand in a slot, and both in one.
    pub fn key(&self, slot: Slot) -> &'a [u8]
        requires { slot.0 < self.now.slots.n }
        ensures { result.now ≡ key_in self.now slot.0 }
    {
        let at = self.sizes.entry_offset(slot).0;
        let end = at + self.sizes.k;
        &self.bytes[at..end]
    }

    pub fn value(&self, slot: Slot) -> &'a [u8]
        requires { slot.0 < self.now.slots.n }
        ensures { result.now ≡ value_in self.now slot.0 }
    {
        let at = self.sizes.value_offset(slot).0;
        let end = at + self.sizes.v;
        &self.bytes[at..end]
    }

    pub fn entry(&self, slot: Slot) -> &'a [u8]
        requires { slot.0 < self.now.slots.n }
        ensures { result.now ≡ entry_in self.now slot.0 }
    {
        let at = self.sizes.entry_offset(slot).0;
        let end = at + self.sizes.k + self.sizes.v;
        &self.bytes[at..end]
    }
}
