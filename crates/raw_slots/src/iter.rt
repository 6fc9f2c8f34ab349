// Iterating: the next occupied slot, and above it a walk that holds the lent table and its next slot.
ghost use Rattle.std.specs.Prelude.{◌≡◌, ◌-◌, ◌<◌};
ghost use Rattle.rules.specs.First.{numbers, first_of};
ghost use Rattle.rules.specs.Calls.{next_says, next_answer, step_to};
ghost use Rattle.memory_layout.specs.TableParts.{in_table, occupied_in};
ghost use Rattle.raw_slots.specs.SaidIter.{said_occupied, said_next, stepped};

use crate::slot::{is_occupied, lowest};
use memory_layout::kinds::Slot;
use memory_layout::refusal::Refusal;
use memory_layout::table::Table;

// The lowest occupied slot that is not below `from`, with its control byte.
fn occupied_from(table: &Table, from: usize) -> Option<(Slot, u8)>
    ensures { said_occupied result ≡ in_table table.now next_says (first_of (occupied_in table.now) (numbers from (table.now.slots.n - from))) }
{
    let slot = lowest(from..table.slots.n, |slot| is_occupied(table, slot))?;
    let control = table.control_byte(slot);
    Some((slot, control))
}

pub fn next_occupied(
    book: &[u8],
    k: usize,
    v: usize,
    from: usize,
) -> Result<Option<(Slot, u8)>, Refusal>
    ensures { said_next result ≡ next_answer book.now k v from }
{
    let table = Table::open(book, k, v)?;
    Ok(occupied_from(&table, from))
}

// The sizes are kept as they were given, since a walk of a refused book can be made too.
#[derive(Clone, Copy)]
pub struct RawIter<'a> {
    pub table: &'a [u8],
    pub k: usize,
    pub v: usize,
    pub next: usize,
}

// A step's answer, and where the walk then stands.
#[derive(Clone, Copy, Debug, PartialEq, Eq)]
pub struct Moved {
    pub answer: Result<Option<(Slot, u8)>, Refusal>,
    pub next: usize,
}

impl<'a> RawIter<'a> {
    pub fn new(table: &'a [u8], k: usize, v: usize) -> RawIter<'a>
        ensures { (result.table ≡ table.entry) × (result.k ≡ k) × (result.v ≡ v) × (result.next ≡ 0) }
    {
        RawIter {
            table,
            k,
            v,
            next: 0,
        }
    }

    // One step, which leaves the walk where it was at the end and at a refusal. No `Iterator`: a refused book answers every step, without end.
    pub fn step(&mut self) -> Result<Option<(Slot, u8)>, Refusal>
        ensures answered { said_next result ≡ next_answer self.old.table.now self.old.k self.old.v self.old.next }
        ensures moved { self.new ≡ stepped self.old }
    {
        let answer = next_occupied(self.table, self.k, self.v, self.next)?;
        if let Some((slot, _)) = answer {
            self.next = slot.0 + 1;
        }
        Ok(answer)
    }
}

// One step of a walk that stands at `at`, for a caller that keeps the place itself.
pub fn step_at(book: &[u8], k: usize, v: usize, at: usize) -> Moved
    ensures { (said_next result.answer ≡ next_answer book.now k v at) × (result.next ≡ step_to book.now k v at) }
{
    let mut walk = RawIter {
        table: book,
        k,
        v,
        next: at,
    };
    let answer = walk.step();
    Moved {
        answer,
        next: walk.next,
    }
}
