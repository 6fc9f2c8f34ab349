// Row 17: every key is reachable. A slot's key is met early in its own probe order, so on a sound book the walks are short.
ghost use Rattle.std.specs.Prelude.{◌≡◌, ◌≤◌, ◌<◌};
ghost use Rattle.rules.specs.First.{numbers, first_of};
ghost use Rattle.rules.specs.Probe.{slot_at};
ghost use Rattle.rules.specs.Rows.{row_at};
ghost use Rattle.rules.specs.Check.{filled, reachable, is_lost};
ghost use Rattle.memory_layout.specs.Said.{said_row};
ghost use Rattle.memory_layout.specs.TableParts.{in_table};

use crate::slot::key_start;
use memory_layout::kinds::{Slot, SlotCount};
use memory_layout::refusal::Refusal;
use memory_layout::table::Table;
use raw_slots::slot::{is_occupied, lowest};

// The slot at place n of the probe order from b.
fn slot_at(b: usize, n: usize, slots: SlotCount) -> Slot
    requires { (b < slots.n) × (n < slots.n) }
    ensures { (result.0 ≡ slot_at b slots.n n) × (result.0 < slots.n) }
{
    let pair = n / 16;
    Slot(slots.wrap(b + 8 * (pair * (pair + 1)) + n % 16))
}

// Whether the n first slots of the probe order from b are occupied.
fn is_filled(table: &Table, b: usize, n: usize) -> bool
    requires { (b < table.now.slots.n) × (n ≤ table.now.slots.n) }
    ensures { result ≡ in_table table.now filled b n }
{
    (0..n).all(|m| is_occupied(table, slot_at(b, m, table.slots)))
}

// Whether a slot's key is reachable: its place is looked up in the key's probe order.
fn is_reachable(table: &Table, slot: Slot) -> bool
    requires { slot.0 < table.now.slots.n }
    ensures { result ≡ in_table table.now reachable slot.0 }
{
    let b = key_start(table, slot);
    match (0..table.slots.n).find(|n| slot_at(b, *n, table.slots) == slot) {
        Some(n) => is_filled(table, b, n / 16 * 16),
        None => false,
    }
}

// Whether a slot has a key that is not reachable.
#[tactic(auto, unfolding(rules::specs::Check::is_lost))]
fn is_lost(table: &Table, slot: Slot) -> bool
    requires { slot.0 < table.now.slots.n }
    ensures { result ≡ in_table table.now is_lost slot.0 }
{
    is_occupied(table, slot) && !is_reachable(table, slot)
}

pub(crate) fn lost_row(table: &Table) -> Result<(), Refusal>
    ensures { said_row result ≡ row_at 17 (first_of (in_table table.now is_lost) (numbers 0 table.now.slots.n)) }
{
    match lowest(0..table.slots.n, |slot| is_lost(table, slot)) {
        Some(slot) => Err(Refusal::Lost(slot)),
        None => Ok(()),
    }
}
