// Find, exported for Rust or C. A crate of its own:
// compiled by itself, it is the only caller of the search, which the compiler may then put in its place.
#![tactic(auto)]

ghost use Rattle.std.specs.Prelude.{◌≡◌};
ghost use Rattle.rules.specs.Calls.{find_answer};
ghost use Rattle.exports.specs.Numbers.{numbers, returned, holds};

#[unsafe(no_mangle)]
pub extern "C" fn tally_find(book: &[u8], k: usize, v: usize, key: &[u8], answer: &mut [u64]) -> u64
    ensures status { result ≡ returned answer.old }
    ensures answer_after { answer.new ≡ holds answer.old (numbers (find_answer book.now k v key.now)) answer.old }
{
    exports_find::tally_find(book, k, v, key, answer)
}
