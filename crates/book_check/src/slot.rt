// What stands in one slot, as the rows of the check ask for it.
ghost use Rattle.std.specs.Prelude.{◌≡◌, ◌&&◌, ◌<◌};
ghost use Rattle.rules.specs.Bytes.{same_bytes};
ghost use Rattle.rules.specs.Hash.{start_of};
ghost use Rattle.memory_layout.specs.TableParts.{occupied_in, key_in};

use memory_layout::kinds::Slot;
use memory_layout::table::Table;
use raw_slots::slot::is_occupied;
use raw_table::search::holds;

// Where the search for a slot's key starts.
pub(crate) fn key_start(table: &Table, slot: Slot) -> usize
    requires { slot.0 < table.now.slots.n }
    ensures { (result ≡ start_of table.now.slots.n (key_in table.now slot.0)) × (result < table.now.slots.n) }
{
    let hash = fxhash::hash(table.key(slot));
    table.slots.wrap(fxhash::h1(hash))
}

// Whether a slot is occupied, by the key of another.
pub(crate) fn has_key_of(table: &Table, slot: Slot, other: Slot) -> bool
    requires { (slot.0 < table.now.slots.n) × (other.0 < table.now.slots.n) }
    ensures { result ≡ occupied_in table.now slot.0 && same_bytes (key_in table.now slot.0) (key_in table.now other.0) }
{
    is_occupied(table, slot) && holds(table, slot, table.key(other))
}
