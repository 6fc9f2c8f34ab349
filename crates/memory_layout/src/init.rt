// A new book.
ghost use Rattle.std.specs.Prelude.{◌≡◌, [], ◌∷◌, ◌++◌, ◌≤◌, length, drop};
ghost use Rattle.std.proofs.lemmas.List.Edits.{sets};
ghost use Rattle.rules.specs.Layout.{book_tag, header, fresh_book, total};
ghost use Rattle.rules.specs.Calls.{init_answer, init_book};
ghost use Rattle.memory_layout.specs.Said.{said_done};

use crate::header::{CURRENT_FILE_FORMAT_VERSION, HEADER_TAG, sized};
use crate::kinds::{EntrySizes, Position, SlotCount};
use crate::parts::{fill, put};
use crate::refusal::Refusal;

// The header's first 8 bytes, by the document's table: offset, bytes, content.
fn put_sizes(book: &mut [u8], sizes: EntrySizes)
    requires { 32 ≤ length book.old }
    ensures { book.new ≡ sets book.old 0 (book_tag ++ (1 ∷ sizes.k ∷ sizes.v ∷ 32 ∷ [])) }
{
    put(book, 0, 4, HEADER_TAG as u64);
    put(book, 4, 1, 1);
    put(book, 5, 1, sizes.k as u64);
    put(book, 6, 1, sizes.v as u64);
    put(book, 7, 1, 32);
}

// All 32.
fn put_header(book: &mut [u8], sizes: EntrySizes, slots: SlotCount, items: u64, load: u16)
    requires { 32 ≤ length book.old }
    ensures { book.new ≡ header sizes.k sizes.v slots.n items load ++ drop 32 book.old }
{
    put_sizes(book, sizes);
    put(book, 8, 8, items);
    put(book, 16, 8, slots.n as u64);
    put(book, 24, 4, CURRENT_FILE_FORMAT_VERSION as u64);
    put(book, 28, 2, load as u64);
    put(book, 30, 2, 0);
}

// The header, and then each section as a part of the lent book, lent on to be filled.
fn write_book(book: &mut [u8], sizes: EntrySizes, slots: SlotCount, items: u64, load: u16)
    requires { length book.old ≡ total sizes.k sizes.v slots.n }
    ensures { book.new ≡ fresh_book sizes.k sizes.v slots.n items load }
{
    let control = sizes.control_offset(Position(0), slots).0;
    let end = control + slots.n + 16;
    put_header(book, sizes, slots, items, load);
    fill(&mut book[32..control], 0);
    fill(&mut book[control..end], 255);
}

// Rows 1, 9 and 10 on the arguments, before anything is written.
pub fn init_in_place(
    book: &mut [u8],
    k: usize,
    v: usize,
    slots: usize,
    items: u64,
    load: u16,
) -> Result<(), Refusal>
    ensures answered { said_done result ≡ init_answer book.old k v slots }
    ensures book_after { book.new ≡ init_book book.old k v slots items load }
{
    let sizes = EntrySizes::new(k, v).ok_or(Refusal::Sizes)?;
    let slots = sized(book.len(), sizes, slots as u64)?;
    write_book(book, sizes, slots, items, load);
    Ok(())
}
