// Find for Rust or C, a crate of its own. `exports_find_c` exports it.
#![tactic(auto)]

ghost use Rattle.std.specs.Prelude.{◌≡◌};
ghost use Rattle.rules.specs.Calls.{find_answer};
ghost use Rattle.exports.specs.Numbers.{numbers, returned, holds};

use exports::numbers::AnswerNumbers;
use raw_table::find::find;

pub fn tally_find(book: &[u8], k: usize, v: usize, key: &[u8], answer: &mut [u64]) -> u64
    ensures status { result ≡ returned answer.old }
    ensures answer_after { answer.new ≡ holds answer.old (numbers (find_answer book.now k v key.now)) answer.old }
{
    let Some(answer) = answer.as_mut_array::<8>() else {
        return 1;
    };
    let AnswerNumbers(numbers) = find(book, k, v, key).into();
    *answer = numbers;
    0
}
