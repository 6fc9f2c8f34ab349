// The book that is kept between the lines, and one line: the call that it is, made on that book.
ghost use Rattle.std.specs.Prelude.{◌≡◌, ℕ, ◌+◌, ◌≤◌, ◌↔◌, List, [], ◌++◌, length, take, replicate, IsSome, IfSome, OnSome, IfNone};
ghost use Rattle.std.proofs.lemmas.List.Edits.{sets};
ghost use Rattle.call_lines.specs.Call.{HasOldWithin};
ghost use Rattle.kept_book.specs.declared.book.TheConstants.{BOOK_LIMIT};

use book_check::check_book;
use call_answers::answer::Answer;
use call_answers::hex::Hex;
use call_answers::walk::Walk;
use call_lines::call::{Call, read_call};
use memory_layout::init::init_in_place;
use raw_slots::iter::next_occupied;
use raw_slots::open::open;
use raw_table::find::{find, value};
use raw_table::insert::insert;
use std::fmt;
use std::fmt::Write;
use std::marker::Model;

/// How many bytes a book may have.
pub const BOOK_LIMIT: usize = 524_288;

/// How many bytes a line may have, and so the third buffer of an insert.
pub const LINE_LIMIT: usize = 131_072;

/// The book that a list keeps.
// No `ArrayVec`, which blanks what a shorter book leaves behind: `book 00` after a book of 524,288 bytes then took 525,000 instructions, and takes 470.
#[derive(Drop)]
pub struct Book {
    room: [u8; BOOK_LIMIT],
    len: usize,
}

impl Model for Book {
    ghost Value = { List ℕ };

    ghost view = { λ book. take book.len book.room };

    ghost invariant = { λ book. book.len ≤ BOOK_LIMIT };
}

impl Book {
    /// No byte.
    pub fn new() -> Book
        ensures { result ≡ [] }
    {
        Book {
            room: [0; BOOK_LIMIT],
            len: 0,
        }
    }

    // The book is these bytes. This and the next three return its length then, or leave it as it is.
    fn set(&mut self, bytes: &[u8]) -> Option<usize>
        ensures fits { IsSome result ↔ (length bytes.now ≤ BOOK_LIMIT) }
        ensures set { OnSome result (self.new ≡ bytes.now) }
        ensures len { IfSome result (λ len. len ≡ length self.new) }
        ensures refused { IfNone result (self.new ≡ self.old) }
    {
        if BOOK_LIMIT < bytes.len() {
            return None;
        }
        self.room[..bytes.len()].copy_from_slice(bytes);
        self.len = bytes.len();
        Some(self.len)
    }

    // These bytes behind those that it has.
    fn extend(&mut self, bytes: &[u8]) -> Option<usize>
        ensures fits { IsSome result ↔ (length self.old + length bytes.now ≤ BOOK_LIMIT) }
        ensures extended { OnSome result (self.new ≡ self.old ++ bytes.now) }
        ensures len { IfSome result (λ len. len ≡ length self.new) }
        ensures refused { IfNone result (self.new ≡ self.old) }
    {
        if BOOK_LIMIT - self.len < bytes.len() {
            return None;
        }
        self.room[self.len..self.len + bytes.len()].copy_from_slice(bytes);
        self.len += bytes.len();
        Some(self.len)
    }

    fn fill(&mut self, len: usize, byte: u8) -> Option<usize>
        ensures fits { IsSome result ↔ (len ≤ BOOK_LIMIT) }
        ensures filled { OnSome result (self.new ≡ replicate len byte) }
        ensures len { IfSome result (λ len. len ≡ length self.new) }
        ensures refused { IfNone result (self.new ≡ self.old) }
    {
        if BOOK_LIMIT < len {
            return None;
        }
        self.room[..len].fill(byte);
        self.len = len;
        Some(len)
    }

    // Overwrites within the book.
    fn poke(&mut self, at: usize, bytes: &[u8]) -> Option<usize>
        ensures fits { IsSome result ↔ (at + length bytes.now ≤ length self.old) }
        ensures poked { OnSome result (self.new ≡ sets self.old at bytes.now) }
        ensures len { IfSome result (λ len. len ≡ length self.new) }
        ensures refused { IfNone result (self.new ≡ self.old) }
    {
        let len = self.len;
        if len < at || len - at < bytes.len() {
            return None;
        }
        self.room[at..at + bytes.len()].copy_from_slice(bytes);
        Some(len)
    }

    // FNV-1a, 64 bits.
    fn sum(&self) -> u64 {
        let step = |sum: u64, &byte| (sum ^ u64::from(byte)).wrapping_mul(0x100_0000_01b3);
        self.room[..self.len]
            .iter()
            .fold(0xcbf2_9ce4_8422_2325, step)
    }

    /// The answer to a line, which is read in its own place. The line's end is not written.
    pub fn answer(&mut self, line: &mut [u8], out: &mut impl Write) -> fmt::Result
        requires { length line.old ≤ LINE_LIMIT }
    {
        match read_call(line) {
            Some(call) => self.run(call, out),
            None => out.write_str("bad"),
        }
    }

    fn run(&mut self, call: Call<'_>, out: &mut impl Write) -> fmt::Result
        requires { HasOldWithin LINE_LIMIT call }
    {
        let book = &self.room[..self.len];
        match call {
            Call::Book(bytes) => write_changed(self.set(bytes), out),
            Call::More(bytes) => write_changed(self.extend(bytes), out),
            Call::Fill { len, byte } => write_changed(self.fill(len, byte), out),
            Call::Poke { at, bytes } => write_changed(self.poke(at, bytes), out),
            Call::Init {
                k,
                v,
                slots,
                items,
                load,
            } => {
                let book = &mut self.room[..self.len];
                let made = init_in_place(book, k, v, slots, items, load);
                write_answer(made.into(), out)
            }
            Call::Open { k, v } => write_answer(open(book, k, v).into(), out),
            Call::Check { k, v } => write_answer(check_book(book, k, v).into(), out),
            Call::Find { k, v, key } => write_answer(find(book, k, v, key).into(), out),
            Call::Value { k, v, key } => write!(out, "part {}", Hex(value(book, k, v, key))),
            Call::Insert {
                k,
                v,
                key,
                value,
                old,
            } => self.insert(k, v, key, value, old, out),
            Call::Next { k, v, from } => write_answer(next_occupied(book, k, v, from).into(), out),
            Call::Walk { k, v, steps } => write!(out, "{}", Walk { book, k, v, steps }),
            Call::Hash(key) => {
                let hash = fxhash::hash(key);
                write!(out, "hash {hash} {}", fxhash::h2(hash))
            }
            Call::Bytes => write!(out, "{}", Hex(book)),
            Call::Sum => write!(out, "{:016x}", self.sum()),
        }
    }

    // The third buffer is lent to be written, and a call only reads its line: so it is a copy, in fixed memory. It is shown as it is afterwards.
    // It is called: put in the place of its call, it has every line pay for that memory at entry, page by page.
    #[inline(never)]
    fn insert(
        &mut self,
        k: usize,
        v: usize,
        key: &[u8],
        value: &[u8],
        old: &[u8],
        out: &mut impl Write,
    ) -> fmt::Result
        requires { length old.now ≤ LINE_LIMIT }
    {
        let mut copy = [0u8; LINE_LIMIT];
        let copy = &mut copy[..old.len()];
        copy.copy_from_slice(old);
        let book = &mut self.room[..self.len];
        let inserted = insert(book, k, v, key, value, copy);
        write_answer(inserted.into(), out)?;
        write!(out, " {}", Hex(copy))
    }
}

fn write_answer(answer: Answer, out: &mut impl Write) -> fmt::Result {
    write!(out, "{answer}")
}

// The book's length after a change, if it was one that can be made.
fn write_changed(len: Option<usize>, out: &mut impl Write) -> fmt::Result {
    match len {
        Some(len) => write!(out, "ok {len}"),
        None => write!(out, "bad"),
    }
}
