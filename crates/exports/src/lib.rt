// The calls for Rust or C. A slice is a pointer and a length, and an answer is eight numbers: outcome, row, slot, expected, found, count, offset, length.
// Each returns 0, or 1 where the length of `answer` is not 8, and then nothing was done. `exports_c` exports them; find and insert, the hot ones, are crates of their own.
#![tactic(auto)]

ghost use Rattle.std.specs.Prelude.{◌≡◌};
ghost use Rattle.rules.specs.Calls.{init_answer, init_book, open_answer, find_answer, next_answer};
ghost use Rattle.rules.specs.Check.{check_answer};
ghost use Rattle.exports.specs.Numbers.{numbers, value_numbers, returned, holds};

use crate::numbers::AnswerNumbers;
use crate::value::value_numbers;
use book_check::check_book;
use memory_layout::init::init_in_place;
use raw_slots::iter::next_occupied;
use raw_slots::open::open;

pub mod numbers;
pub mod value;

pub fn tally_init(
    book: &mut [u8],
    k: usize,
    v: usize,
    slots: usize,
    count: u64,
    load: u16,
    answer: &mut [u64],
) -> u64
    ensures status { result ≡ returned answer.old }
    ensures answer_after { answer.new ≡ holds answer.old (numbers (init_answer book.old k v slots)) answer.old }
    ensures book_after { book.new ≡ holds answer.old (init_book book.old k v slots count load) book.old }
{
    let Some(answer) = answer.as_mut_array::<8>() else {
        return 1;
    };
    let AnswerNumbers(numbers) = init_in_place(book, k, v, slots, count, load).into();
    *answer = numbers;
    0
}

pub fn tally_open(book: &[u8], k: usize, v: usize, answer: &mut [u64]) -> u64
    ensures status { result ≡ returned answer.old }
    ensures answer_after { answer.new ≡ holds answer.old (numbers (open_answer book.now k v)) answer.old }
{
    let Some(answer) = answer.as_mut_array::<8>() else {
        return 1;
    };
    let AnswerNumbers(numbers) = open(book, k, v).into();
    *answer = numbers;
    0
}

// The whole book.
pub fn tally_check(book: &[u8], k: usize, v: usize, answer: &mut [u64]) -> u64
    ensures status { result ≡ returned answer.old }
    ensures answer_after { answer.new ≡ holds answer.old (numbers (check_answer book.now k v)) answer.old }
{
    let Some(answer) = answer.as_mut_array::<8>() else {
        return 1;
    };
    let AnswerNumbers(numbers) = check_book(book, k, v).into();
    *answer = numbers;
    0
}

// Find's numbers, with the offset of the value in the book and its length; both 0 where there is none.
pub fn tally_value(book: &[u8], k: usize, v: usize, key: &[u8], answer: &mut [u64]) -> u64
    ensures status { result ≡ returned answer.old }
    ensures answer_after { answer.new ≡ holds answer.old (value_numbers k v (find_answer book.now k v key.now)) answer.old }
{
    let Some(answer) = answer.as_mut_array::<8>() else {
        return 1;
    };
    let AnswerNumbers(numbers) = value_numbers(book, k, v, key);
    *answer = numbers;
    0
}

// The next occupied slot at or after `from`, with its control byte in `found`.
pub fn tally_next(book: &[u8], k: usize, v: usize, from: usize, answer: &mut [u64]) -> u64
    ensures status { result ≡ returned answer.old }
    ensures answer_after { answer.new ≡ holds answer.old (numbers (next_answer book.now k v from)) answer.old }
{
    let Some(answer) = answer.as_mut_array::<8>() else {
        return 1;
    };
    let AnswerNumbers(numbers) = next_occupied(book, k, v, from).into();
    *answer = numbers;
    0
}
