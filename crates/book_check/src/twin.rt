// Row 16: no key stands twice. Where the search for each key leads to its own slot none does, and only else each pair of slots is compared.
ghost use Rattle.std.specs.Prelude.{◌≡◌, ◌<◌};
ghost use Rattle.rules.specs.First.{numbers, first_of, each_of, some_of};
ghost use Rattle.rules.specs.Rows.{row_at};
ghost use Rattle.rules.specs.Search.{spot_of};
ghost use Rattle.rules.specs.Check.{is_twin};
ghost use Rattle.memory_layout.specs.Said.{said_row};
ghost use Rattle.memory_layout.specs.TableParts.{in_table, key_in};
ghost use Rattle.book_check.specs.Quick.{leads_to, found_own, stands_in};

use crate::slot::has_key_of;
use memory_layout::kinds::Slot;
use memory_layout::refusal::Refusal;
use memory_layout::table::Table;
use raw_slots::slot::{is_occupied, lowest};
use raw_table::search::{Spot, search};

// Whether the search for a slot's key leads to that slot.
#[tactic(auto, unfolding(crate::specs::Quick::leads_to))]
fn leads_to(table: &Table, slot: Slot) -> bool
    requires { slot.0 < table.now.slots.n }
    ensures { result ≡ leads_to slot.0 (in_table table.now spot_of (key_in table.now slot.0)) }
{
    match search(table, table.key(slot)) {
        Spot::Same(found, _) => found == slot,
        Spot::Free(_, _) => false,
        Spot::Full(_) => false,
    }
}

// Whether a slot is empty, or its key is found in it.
#[tactic(auto, unfolding(crate::specs::Quick::found_own))]
fn found_own(table: &Table, slot: Slot) -> bool
    requires { slot.0 < table.now.slots.n }
    ensures { result ≡ in_table table.now found_own slot.0 }
{
    !is_occupied(table, slot) || leads_to(table, slot)
}

// Whether every key is found in its slot.
fn all_found(table: &Table) -> bool
    ensures { result ≡ each_of (in_table table.now found_own) (numbers 0 table.now.slots.n) }
{
    (0..table.slots.n).all(|i| found_own(table, Slot(i)))
}

// Whether a slot's key stands in a lower occupied slot too.
fn stands_below(table: &Table, slot: Slot) -> bool
    requires { slot.0 < table.now.slots.n }
    ensures { result ≡ some_of (in_table table.now stands_in slot.0) (numbers 0 slot.0) }
{
    (0..slot.0).any(|j| has_key_of(table, Slot(j), slot))
}

#[tactic(auto, unfolding(rules::specs::Check::is_twin))]
fn is_twin(table: &Table, slot: Slot) -> bool
    requires { slot.0 < table.now.slots.n }
    ensures { result ≡ in_table table.now is_twin slot.0 }
{
    is_occupied(table, slot) && stands_below(table, slot)
}

// Row 16 by the plain rule.
fn lowest_twin(table: &Table) -> Result<(), Refusal>
    ensures { said_row result ≡ row_at 16 (first_of (in_table table.now is_twin) (numbers 0 table.now.slots.n)) }
{
    match lowest(0..table.slots.n, |slot| is_twin(table, slot)) {
        Some(slot) => Err(Refusal::Twin(slot)),
        None => Ok(()),
    }
}

#[tactic(auto, using(crate::proofs::TwinLaws::no_twins), unfolding(memory_layout::specs::Said::said_row, rules::specs::Rows::row_at))]
pub(crate) fn twin_row(table: &Table) -> Result<(), Refusal>
    ensures { said_row result ≡ row_at 16 (first_of (in_table table.now is_twin) (numbers 0 table.now.slots.n)) }
{
    if all_found(table) {
        return Ok(());
    }
    lowest_twin(table)
}
