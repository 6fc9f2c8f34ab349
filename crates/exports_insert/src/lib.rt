// Insert for Rust or C, a crate of its own. `exports_insert_c` exports it.
#![tactic(auto)]

ghost use Rattle.std.specs.Prelude.{◌≡◌};
ghost use Rattle.rules.specs.Calls.{insert_answer, insert_book, insert_old};
ghost use Rattle.exports.specs.Numbers.{numbers, returned, holds};

use exports::numbers::AnswerNumbers;
use raw_table::insert::insert;

// `old` has as many bytes as a value: what is replaced is left there.
pub fn tally_insert(
    book: &mut [u8],
    k: usize,
    v: usize,
    key: &[u8],
    value: &[u8],
    old: &mut [u8],
    answer: &mut [u64],
) -> u64
    ensures status { result ≡ returned answer.old }
    ensures answer_after { answer.new ≡ holds answer.old (numbers (insert_answer book.old k v key.now value.now old.old)) answer.old }
    ensures book_after { book.new ≡ holds answer.old (insert_book book.old k v key.now value.now old.old) book.old }
    ensures old_after { old.new ≡ holds answer.old (insert_old book.old k v key.now value.now old.old) old.old }
{
    let Some(answer) = answer.as_mut_array::<8>() else {
        return 1;
    };
    let AnswerNumbers(numbers) = insert(book, k, v, key, value, old).into();
    *answer = numbers;
    0
}
