// Where a key stands, and its value.
ghost use Rattle.std.specs.Prelude.{◌≡◌};
ghost use Rattle.rules.specs.Calls.{find_answer, value_part};
ghost use Rattle.raw_table.specs.Said.{said_found};

use crate::search::{Spot, search};
use memory_layout::kinds::{EntrySizes, Slot};
use memory_layout::refusal::Refusal;
use memory_layout::table::Table;

// A key's slot, or that it is absent; with the number of groups examined.
#[derive(Clone, Copy, Debug, PartialEq, Eq)]
pub enum Found {
    At(Slot, usize),
    Absent(usize),
}

pub fn find(book: &[u8], k: usize, v: usize, key: &[u8]) -> Result<Found, Refusal>
    ensures { said_found result ≡ find_answer book.now k v key.now }
{
    let table = Table::open(book, k, v)?;
    if key.len() != k {
        return Err(Refusal::Buffers);
    }
    match search(&table, key) {
        Spot::Same(slot, n) => Ok(Found::At(slot, n)),
        Spot::Free(_, n) => Ok(Found::Absent(n)),
        Spot::Full(n) => Ok(Found::Absent(n)),
    }
}

// A part of the table, never of the key; the empty part where there is no value.
pub fn value<'t, 'k>(book: &'t [u8], k: usize, v: usize, key: &'k [u8]) -> &'t [u8]
    ensures { result.now ≡ value_part book.now k v key.now }
{
    let Ok(found) = find(book, k, v, key) else {
        return &book[0..0];
    };
    match found {
        Found::At(slot, _) => {
            let sizes = EntrySizes { k, v };
            let at = sizes.value_offset(slot).0;
            let end = at + v;
            &book[at..end]
        }
        Found::Absent(_) => &book[0..0],
    }
}
