// A refusal as the numbers that a host and a list of calls are told: its row, and what the row tells; 0 where it tells nothing of a kind.
ghost use Rattle.std.specs.Prelude.{◌≡◌};
ghost use Rattle.rules.specs.Rows.{refusal, fault_at};
ghost use Rattle.memory_layout.specs.Said.{said_refusal, said_numbers};

use crate::kinds::Slot;
use crate::refusal::Refusal;

#[derive(Clone, Copy, Debug, PartialEq, Eq)]
pub struct RefusalNumbers {
    pub row: usize,
    pub slot: usize,
    pub expected: u8,
    pub found: u8,
    pub count: usize,
}

#[tactic(auto, unfolding(rules::specs::Rows::refusal, rules::specs::Rows::fault_at))]
fn row(row: usize) -> RefusalNumbers
    ensures { said_numbers result ≡ refusal row }
{
    fault(row, Slot(0))
}

#[tactic(auto, unfolding(rules::specs::Rows::fault_at))]
fn fault(row: usize, slot: Slot) -> RefusalNumbers
    ensures { said_numbers result ≡ fault_at row slot.0 }
{
    RefusalNumbers {
        row,
        slot: slot.0,
        expected: 0,
        found: 0,
        count: 0,
    }
}

#[tactic(auto, unfolding(crate::specs::Said::said_refusal, rules::specs::Rows::refusal, rules::specs::Rows::fault_at, rules::specs::Rows::wrong_tag, rules::specs::Rows::no_end))]
impl From<Refusal> for RefusalNumbers {
    ghost from_gives = { λ refusal n. said_numbers n ≡ said_refusal refusal };

    fn from(refusal: Refusal) -> RefusalNumbers {
        match refusal {
            Refusal::Sizes => row(1),
            Refusal::ShortHeader => row(2),
            Refusal::Tag => row(3),
            Refusal::Version => row(4),
            Refusal::MetadataSize => row(5),
            Refusal::KeySize => row(6),
            Refusal::ValueSize => row(7),
            Refusal::HeaderSize => row(8),
            Refusal::SlotCount => row(9),
            Refusal::Length => row(10),
            Refusal::NotZero(slot) => fault(11, slot),
            Refusal::WrongTag {
                slot,
                expected,
                found,
            } => RefusalNumbers {
                row: 12,
                slot: slot.0,
                expected,
                found,
                count: 0,
            },
            Refusal::Buffers => row(13),
            Refusal::NoEnd(count) => RefusalNumbers {
                row: 14,
                slot: 0,
                expected: 0,
                found: 0,
                count,
            },
            Refusal::Mirror(slot) => fault(15, slot),
            Refusal::Twin(slot) => fault(16, slot),
            Refusal::Lost(slot) => fault(17, slot),
        }
    }
}
