// What stands in one slot of a table, and the lowest slot of which something is so.
ghost use Rattle.std.specs.Prelude.{◌≡◌, ℕ, ◌-◌, ◌≤◌, ◌<◌, Bool, IfSome};
ghost use Rattle.rules.specs.First.{numbers, first_of};
ghost use Rattle.rules.specs.Hash.{tag_of};
ghost use Rattle.rules.specs.Layout.{is_empty};
ghost use Rattle.memory_layout.specs.TableParts.{occupied_in, key_in};
ghost use Rattle.raw_slots.specs.SaidSlot.{slot, said_slot};

use memory_layout::kinds::Slot;
use memory_layout::table::Table;
use std::ops::Range;

// Whether a control byte means empty.
pub fn is_empty(control: u8) -> bool
    ensures { result ≡ is_empty control }
{
    128 <= control
}

pub fn is_occupied(table: &Table, slot: Slot) -> bool
    requires { slot.0 < table.now.slots.n }
    ensures { result ≡ occupied_in table.now slot.0 }
{
    !is_empty(table.control_byte(slot))
}

// The tag of the key that stands there.
pub fn key_tag(table: &Table, slot: Slot) -> u8
    requires { slot.0 < table.now.slots.n }
    ensures { result ≡ tag_of (key_in table.now slot.0) }
{
    fxhash::h2(fxhash::hash(table.key(slot)))
}

// The lowest of some slots that passes a test.
pub fn lowest<F: Fn(Slot) -> bool>(among: Range<usize>, test: F) -> Option<Slot>
    requires { (i : ℕ) → among.start ≤ i → i < among.end → F.pre test (slot i) }
    ensures within { IfSome result (λ slot. slot.0 < among.end) }
    ensures first { (passes : ℕ → Bool) → ((i : ℕ) (b : Bool) → i < among.end → F.post test (slot i) b → b ≡ passes i) → said_slot result ≡ first_of passes (numbers among.start (among.end - among.start)) }
{
    among.map(Slot).find(
        |slot|
            requires { F.pre test slot.now }
        { test(*slot) },
    )
}
