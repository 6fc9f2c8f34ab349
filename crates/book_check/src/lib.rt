// The whole-book check: after the header's rows those of each slot, of the mirrors, of keys that stand twice, and of keys out of reach.
#![tactic(auto)]

ghost use Rattle.std.specs.Prelude.{◌≡◌};
ghost use Rattle.rules.specs.First.{first_some};
ghost use Rattle.rules.specs.Check.{body_rows, check_answer};
ghost use Rattle.memory_layout.specs.Said.{said_row, said_done};
ghost use Rattle.memory_layout.specs.TableParts.{in_table};

use crate::mirror::mirror_row;
use crate::reach::lost_row;
use crate::twin::twin_row;
use memory_layout::refusal::Refusal;
use memory_layout::table::Table;
use raw_slots::open::slot_rows;

pub mod mirror;
pub mod reach;
pub mod slot;
pub mod twin;

// Rows 11 to 17 of a book that passed its header's rows.
fn body_row(table: &Table) -> Result<(), Refusal>
    ensures { said_row result ≡ first_some (in_table table.now body_rows) }
{
    slot_rows(table, table.slots.n)?;
    mirror_row(table)?;
    twin_row(table)?;
    lost_row(table)
}

pub fn check_book(book: &[u8], k: usize, v: usize) -> Result<(), Refusal>
    ensures { said_done result ≡ check_answer book.now k v }
{
    let table = Table::open(book, k, v)?;
    body_row(&table)
}
