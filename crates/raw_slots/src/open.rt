// Rows 11 and 12, slot by slot, and opening, which adds them for the ten lowest slots.
ghost use Rattle.std.specs.Prelude.{◌≡◌, ◌≤◌, ◌<◌};
ghost use Rattle.std.proofs.Math.Option.{some};
ghost use Rattle.rules.specs.Rows.{is_zero, slot_fine, slot_row, slot_rows};
ghost use Rattle.rules.specs.Calls.{open_answer};
ghost use Rattle.memory_layout.specs.Said.{said_refusal, said_row, said_done};
ghost use Rattle.memory_layout.specs.TableParts.{in_table};

use crate::slot::{is_empty, key_tag, lowest};
use memory_layout::kinds::Slot;
use memory_layout::refusal::Refusal;
use memory_layout::table::Table;

// How many slots opening looks at.
const SLOTS_TO_CHECK: usize = 10;

// Whether each byte of a slot's key and value is 0.
fn entry_zero(table: &Table, slot: Slot) -> bool
    requires { slot.0 < table.now.slots.n }
    ensures { result ≡ in_table table.now is_zero slot.0 }
{
    let entry = table.entry(slot);
    entry.iter().all(|byte| *byte == 0)
}

// Whether a slot is as it should be: zero if empty, else with its key's tag.
#[tactic(auto, unfolding(rules::specs::Rows::slot_fine))]
fn slot_fine(table: &Table, slot: Slot) -> bool
    requires { slot.0 < table.now.slots.n }
    ensures { result ≡ in_table table.now slot_fine slot.0 }
{
    let control = table.control_byte(slot);
    if is_empty(control) {
        entry_zero(table, slot)
    } else {
        control == key_tag(table, slot)
    }
}

// What rows 11 and 12 say of a slot at fault.
#[tactic(auto, unfolding(rules::specs::Rows::slot_row, memory_layout::specs::Said::said_refusal))]
fn slot_fault(table: &Table, slot: Slot) -> Refusal
    requires { slot.0 < table.now.slots.n }
    ensures { some (said_refusal result) ≡ in_table table.now slot_row (some slot.0) }
{
    let found = table.control_byte(slot);
    if is_empty(found) {
        Refusal::NotZero(slot)
    } else {
        let expected = key_tag(table, slot);
        Refusal::WrongTag {
            slot,
            expected,
            found,
        }
    }
}

// Rows 11 and 12 over the n lowest slots.
pub fn slot_rows(table: &Table, n: usize) -> Result<(), Refusal>
    requires { n ≤ table.now.slots.n }
    ensures { said_row result ≡ in_table table.now slot_rows n }
{
    match lowest(0..n, |slot| !slot_fine(table, slot)) {
        Some(slot) => Err(slot_fault(table, slot)),
        None => Ok(()),
    }
}

pub fn open(book: &[u8], k: usize, v: usize) -> Result<(), Refusal>
    ensures { said_done result ≡ open_answer book.now k v }
{
    let table = Table::open(book, k, v)?;
    slot_rows(&table, SLOTS_TO_CHECK)
}
