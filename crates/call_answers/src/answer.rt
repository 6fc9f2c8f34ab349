// The answers of the library's calls, in the list's words.
ghost use Rattle.std.specs.Prelude.{◌≡◌, Some};
ghost use Rattle.call_answers.specs.Answer.{answer_of_done, answer_of_found, answer_of_inserted, answer_of_next, answer_text};

use memory_layout::kinds::Slot;
use memory_layout::numbers::RefusalNumbers;
use memory_layout::refusal::Refusal;
use raw_table::find::Found;
use raw_table::insert::Inserted;
use std::fmt;

/// What a call of the library answered.
#[derive(Clone, Copy)]
pub enum Answer {
    Fine,
    At(Slot, usize),
    Absent(usize),
    New(Slot, usize),
    Replaced(Slot, usize),
    Occupied(Slot, u8),
    Done,
    Refused(Refusal),
}

impl From<Result<(), Refusal>> for Answer {
    ghost from_gives = { λ done answer. answer ≡ answer_of_done done };

    fn from(done: Result<(), Refusal>) -> Answer {
        match done {
            Ok(()) => Answer::Fine,
            Err(refusal) => Answer::Refused(refusal),
        }
    }
}

impl From<Result<Found, Refusal>> for Answer {
    ghost from_gives = { λ found answer. answer ≡ answer_of_found found };

    fn from(found: Result<Found, Refusal>) -> Answer {
        match found {
            Ok(Found::At(slot, count)) => Answer::At(slot, count),
            Ok(Found::Absent(count)) => Answer::Absent(count),
            Err(refusal) => Answer::Refused(refusal),
        }
    }
}

impl From<Result<Inserted, Refusal>> for Answer {
    ghost from_gives = { λ inserted answer. answer ≡ answer_of_inserted inserted };

    fn from(inserted: Result<Inserted, Refusal>) -> Answer {
        match inserted {
            Ok(Inserted::New(slot, count)) => Answer::New(slot, count),
            Ok(Inserted::Replaced(slot, count)) => Answer::Replaced(slot, count),
            Err(refusal) => Answer::Refused(refusal),
        }
    }
}

impl From<Result<Option<(Slot, u8)>, Refusal>> for Answer {
    ghost from_gives = { λ next answer. answer ≡ answer_of_next next };

    fn from(next: Result<Option<(Slot, u8)>, Refusal>) -> Answer {
        match next {
            Ok(Some((slot, control))) => Answer::Occupied(slot, control),
            Ok(None) => Answer::Done,
            Err(refusal) => Answer::Refused(refusal),
        }
    }
}

impl fmt::Display for Answer {
    ghost output = { λ answer. Some (answer_text answer) };

    fn fmt<W: fmt::Write>(&self, f: &mut fmt::Formatter<W>) -> fmt::Result {
        match *self {
            Answer::Fine => write!(f, "ok"),
            Answer::At(Slot(slot), count) => write!(f, "at {slot} {count}"),
            Answer::Absent(count) => write!(f, "absent {count}"),
            Answer::New(Slot(slot), count) => write!(f, "new {slot} {count}"),
            Answer::Replaced(Slot(slot), count) => write!(f, "replaced {slot} {count}"),
            Answer::Occupied(Slot(slot), control) => write!(f, "slot {slot} {control}"),
            Answer::Done => write!(f, "done"),
            Answer::Refused(refusal) => {
                let RefusalNumbers {
                    row,
                    slot,
                    expected,
                    found,
                    count,
                } = refusal.into();
                write!(f, "no {row} {slot} {expected} {found} {count}")
            }
        }
    }
}
