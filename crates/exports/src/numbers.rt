// Each answer as its eight numbers.
ghost use Rattle.std.specs.Prelude.{◌≡◌};
ghost use Rattle.rules.specs.Calls.{refused};
ghost use Rattle.memory_layout.specs.Said.{said_refusal, said_done};
ghost use Rattle.raw_slots.specs.SaidIter.{said_next};
ghost use Rattle.raw_table.specs.Said.{said_found, said_inserted};
ghost use Rattle.exports.specs.Numbers.{told, numbers};

use memory_layout::kinds::Slot;
use memory_layout::numbers::RefusalNumbers;
use memory_layout::refusal::Refusal;
use raw_table::find::Found;
use raw_table::insert::Inserted;

// Outcome, row, slot, expected, found, count, offset, length.
#[derive(Clone, Copy, Debug, PartialEq, Eq)]
pub struct AnswerNumbers(pub [u64; 8]);

// An answer that tells no part of the book.
fn told(
    outcome: u64,
    row: usize,
    slot: usize,
    expected: u8,
    found: u8,
    count: usize,
) -> AnswerNumbers
    ensures { result.0 ≡ told outcome row slot expected found count }
{
    AnswerNumbers([
        outcome,
        row as u64,
        slot as u64,
        expected as u64,
        found as u64,
        count as u64,
        0,
        0,
    ])
}

#[tactic(auto, unfolding(crate::specs::Numbers::numbers))]
impl From<Refusal> for AnswerNumbers {
    ghost from_gives = { λ refusal answer. answer.0 ≡ numbers (refused (said_refusal refusal)) };

    fn from(refusal: Refusal) -> AnswerNumbers {
        let r = RefusalNumbers::from(refusal);
        told(0, r.row, r.slot, r.expected, r.found, r.count)
    }
}

#[tactic(auto, unfolding(crate::specs::Numbers::numbers, memory_layout::specs::Said::said_done))]
impl From<Result<(), Refusal>> for AnswerNumbers {
    ghost from_gives = { λ done answer. answer.0 ≡ numbers (said_done done) };

    fn from(done: Result<(), Refusal>) -> AnswerNumbers {
        match done {
            Ok(()) => told(1, 0, 0, 0, 0, 0),
            Err(refusal) => refusal.into(),
        }
    }
}

#[tactic(auto, unfolding(crate::specs::Numbers::numbers))]
impl From<Result<Found, Refusal>> for AnswerNumbers {
    ghost from_gives = { λ found answer. answer.0 ≡ numbers (said_found found) };

    fn from(found: Result<Found, Refusal>) -> AnswerNumbers {
        match found {
            Ok(Found::At(slot, n)) => told(2, 0, slot.0, 0, 0, n),
            Ok(Found::Absent(n)) => told(3, 0, 0, 0, 0, n),
            Err(refusal) => refusal.into(),
        }
    }
}

#[tactic(auto, unfolding(crate::specs::Numbers::numbers))]
impl From<Result<Inserted, Refusal>> for AnswerNumbers {
    ghost from_gives = { λ inserted answer. answer.0 ≡ numbers (said_inserted inserted) };

    fn from(inserted: Result<Inserted, Refusal>) -> AnswerNumbers {
        match inserted {
            Ok(Inserted::New(slot, n)) => told(4, 0, slot.0, 0, 0, n),
            Ok(Inserted::Replaced(slot, n)) => told(5, 0, slot.0, 0, 0, n),
            Err(refusal) => refusal.into(),
        }
    }
}

#[tactic(auto, unfolding(crate::specs::Numbers::numbers, raw_slots::specs::SaidIter::said_next, raw_slots::specs::SaidIter::said_occupied))]
impl From<Result<Option<(Slot, u8)>, Refusal>> for AnswerNumbers {
    ghost from_gives = { λ next answer. answer.0 ≡ numbers (said_next next) };

    fn from(next: Result<Option<(Slot, u8)>, Refusal>) -> AnswerNumbers {
        match next {
            Ok(Some((slot, control))) => told(2, 0, slot.0, 0, control, 0),
            Ok(None) => told(6, 0, 0, 0, 0, 0),
            Err(refusal) => refusal.into(),
        }
    }
}
