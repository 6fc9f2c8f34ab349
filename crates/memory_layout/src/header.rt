// Rows 1 to 10, which every call on a book tests first.
ghost use Rattle.std.specs.Prelude.{◌≡◌, not, ◌+◌, ◌≤◌, ◌<◌, eqb, length, drop, IfOk, MatchOption};
ghost use Rattle.std.proofs.Math.Option.{none};
ghost use Rattle.rules.specs.Bytes.{byte_at, part, le_bytes, same_bytes};
ghost use Rattle.rules.specs.First.{first_some};
ghost use Rattle.rules.specs.Layout.{slot_count};
ghost use Rattle.rules.specs.Rows.{header_rows};
ghost use Rattle.memory_layout.specs.Checked.{size_rows, checked};
ghost use Rattle.memory_layout.specs.Said.{said_header, said_row};

use crate::kinds::{EntrySizes, SlotCount};
use crate::refusal::Refusal;

// `ODHT`, as the number that its bytes stand for.
pub(crate) const HEADER_TAG: u32 = 0x5448_444F;

// 00 00 00 02, in the same way.
pub(crate) const CURRENT_FILE_FORMAT_VERSION: u32 = 0x0200_0000;

// Whether the byte at a place is not n.
fn byte_not(book: &[u8], at: usize, n: usize) -> bool
    requires { at < length book.now }
    ensures { result ≡ not (eqb (byte_at book.now at) n) }
{
    usize::from(book[at]) != n
}

// Whether the four bytes at a place are not those of n.
fn word_not(book: &[u8], at: usize, n: u32) -> bool
    requires { at + 4 ≤ length book.now }
    ensures { result ≡ not (same_bytes (part 4 at book.now) (le_bytes 4 n)) }
{
    fxhash::read_u32(book, at) != n
}

// Rows 9 and 10 of a buffer. No product is made before the slot count is known to be one.
pub(crate) fn sized(len: usize, sizes: EntrySizes, n: u64) -> Result<SlotCount, Refusal>
    ensures row { said_row result ≡ first_some (size_rows len sizes.k sizes.v n) }
    ensures count { IfOk result (λ slots. slots.n ≡ n) }
{
    let slots = SlotCount::new(n).ok_or(Refusal::SlotCount)?;
    if len != sizes.total(slots) {
        return Err(Refusal::Length);
    }
    Ok(slots)
}

// The first row that applies, of 3 to 10, to a book that has a whole header.
fn stated(book: &[u8], sizes: EntrySizes) -> Result<SlotCount, Refusal>
    requires { 32 ≤ length book.now }
    ensures { said_row result ≡ first_some (drop 2 (header_rows book.now sizes.k sizes.v)) }
{
    let other_tag = word_not(book, 0, HEADER_TAG);
    if other_tag {
        return Err(Refusal::Tag);
    }
    let other_version = word_not(book, 24, CURRENT_FILE_FORMAT_VERSION);
    if other_version {
        return Err(Refusal::Version);
    }
    let other_metadata = byte_not(book, 4, 1);
    if other_metadata {
        return Err(Refusal::MetadataSize);
    }
    let other_key = byte_not(book, 5, sizes.k);
    if other_key {
        return Err(Refusal::KeySize);
    }
    let other_value = byte_not(book, 6, sizes.v);
    if other_value {
        return Err(Refusal::ValueSize);
    }
    let other_header = byte_not(book, 7, 32);
    if other_header {
        return Err(Refusal::HeaderSize);
    }
    sized(book.len(), sizes, fxhash::read_u64(book, 16))
}

// The first of rows 1 to 10 that applies.
fn first_row(book: &[u8], k: usize, v: usize) -> Result<SlotCount, Refusal>
    ensures { said_row result ≡ first_some (header_rows book.now k v) }
{
    let sizes = EntrySizes::new(k, v).ok_or(Refusal::Sizes)?;
    let is_short = book.len() < 32;
    if is_short {
        return Err(Refusal::ShortHeader);
    }
    stated(book, sizes)
}

// The slot count of a book that has a whole header, if no row applies to it, without asking which. A size that the header states is a byte, so it is
// none above 255.
fn passes(book: &[u8], k: usize, v: usize) -> Option<SlotCount>
    requires { 32 ≤ length book.now }
    ensures { MatchOption result (first_some (header_rows book.now k v) ≡ none → ⊥) (λ slots. (first_some (header_rows book.now k v) ≡ none) × (slots.n ≡ slot_count book.now)) }
{
    if (k == 0) | byte_not(book, 5, k) | byte_not(book, 6, v) {
        return None;
    }
    let slots = SlotCount::new(fxhash::read_u64(book, 16))?;
    if word_not(book, 0, HEADER_TAG) | byte_not(book, 4, 1) {
        return None;
    }
    if word_not(book, 24, CURRENT_FILE_FORMAT_VERSION) | byte_not(book, 7, 32) {
        return None;
    }
    let sizes = EntrySizes { k, v };
    let is_whole = book.len() == sizes.total(slots);
    if is_whole { Some(slots) } else { None }
}

// Every call begins with this, so a sound header is told first, and cheaply. Of any other the rows say what is wrong.
pub fn check_header(book: &[u8], k: usize, v: usize) -> Result<SlotCount, Refusal>
    ensures { said_header result ≡ checked book.now k v }
{
    if book.len() > 31 {
        if let Some(slots) = passes(book, k, v) {
            return Ok(slots);
        }
    }
    // A second way to the slot count would hide from the compiler what the first one tested.
    let Err(refusal) = first_row(book, k, v) else {
        unreachable!()
    };
    Err(refusal)
}
