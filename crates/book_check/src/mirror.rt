// Row 15: each of the sixteen mirrors equals its control byte.
ghost use Rattle.std.specs.Prelude.{◌≡◌, ◌<◌};
ghost use Rattle.rules.specs.First.{numbers, first_of};
ghost use Rattle.rules.specs.Rows.{row_at};
ghost use Rattle.rules.specs.Check.{mirror_differs};
ghost use Rattle.memory_layout.specs.Said.{said_row};
ghost use Rattle.memory_layout.specs.TableParts.{in_table};

use memory_layout::kinds::Slot;
use memory_layout::refusal::Refusal;
use memory_layout::table::Table;
use raw_slots::slot::lowest;

#[tactic(auto, unfolding(rules::specs::Check::mirror_differs))]
fn mirror_differs(table: &Table, slot: Slot) -> bool
    requires { slot.0 < 16 }
    ensures { result ≡ in_table table.now mirror_differs slot.0 }
{
    let mirror = table.slots.mirror_of(slot);
    let at = table.sizes.control_offset(mirror, table.slots).0;
    table.bytes[at] != table.control_byte(slot)
}

pub(crate) fn mirror_row(table: &Table) -> Result<(), Refusal>
    ensures { said_row result ≡ row_at 15 (first_of (in_table table.now mirror_differs) (numbers 0 16)) }
{
    match lowest(0..16, |slot| mirror_differs(table, slot)) {
        Some(slot) => Err(Refusal::Mirror(slot)),
        None => Ok(()),
    }
}
