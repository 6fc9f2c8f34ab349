// Why a call is refused: the first row of the rules' table that applies.
use crate::kinds::Slot;

#[derive(Clone, Copy, Debug, PartialEq, Eq)]
pub enum Refusal {
    // Rows 1 to 10: what is wrong with the sizes asked for, or with the header.
    Sizes,
    ShortHeader,
    Tag,
    Version,
    MetadataSize,
    KeySize,
    ValueSize,
    HeaderSize,
    SlotCount,
    Length,
    // Row 11: an empty slot with a byte that is not 0.
    NotZero(Slot),
    // Row 12: a slot whose control byte is not its key's tag.
    WrongTag { slot: Slot, expected: u8, found: u8 },
    // Row 13: a key, a value or a third buffer of another length.
    Buffers,
    // Row 14: neither the key nor an empty slot, in so many groups.
    NoEnd(usize),
    // Row 15: a mirror that differs from its control byte.
    Mirror(Slot),
    // Row 16: a key that stands in a lower slot too.
    Twin(Slot),
    // Row 17: a key that a search does not reach.
    Lost(Slot),
}
