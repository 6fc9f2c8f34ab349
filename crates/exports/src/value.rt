// Where a value stands in the book.
ghost use Rattle.std.specs.Prelude.{◌≡◌, ◌^◌, ◌<◌};
ghost use Rattle.rules.specs.Calls.{find_answer};
ghost use Rattle.exports.specs.Numbers.{offset_of, value_numbers};

use crate::numbers::AnswerNumbers;
use memory_layout::kinds::{EntrySizes, Slot};
use raw_table::find::{Found, find};

// 0 where values have no bytes.
#[tactic(auto, unfolding(crate::specs::Numbers::offset_of))]
fn offset_of(slot: Slot, sizes: EntrySizes) -> usize
    requires { slot.0 < 2 ^ 20 }
    ensures { result ≡ offset_of sizes.k sizes.v slot.0 }
{
    if sizes.v == 0 {
        return 0;
    }
    sizes.value_offset(slot).0
}

#[tactic(auto, unfolding(crate::specs::Numbers::value_numbers, crate::specs::Numbers::numbers))]
pub fn value_numbers(book: &[u8], k: usize, v: usize, key: &[u8]) -> AnswerNumbers
    ensures { result.0 ≡ value_numbers k v (find_answer book.now k v key.now) }
{
    let found = find(book, k, v, key);
    let Ok(place) = found else {
        return found.into();
    };
    match place {
        Found::At(slot, n) => {
            let sizes = EntrySizes { k, v };
            let offset = offset_of(slot, sizes);
            AnswerNumbers([2, 0, slot.0 as u64, 0, 0, n as u64, offset as u64, v as u64])
        }
        Found::Absent(_) => found.into(),
    }
}
