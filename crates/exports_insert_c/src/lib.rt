// Insert, exported for Rust or C. A crate of its own:
// compiled by itself, it is the only caller of the search, which the compiler may then put in its place.
#![tactic(auto)]

ghost use Rattle.std.specs.Prelude.{◌≡◌};
ghost use Rattle.rules.specs.Calls.{insert_answer, insert_book, insert_old};
ghost use Rattle.exports.specs.Numbers.{numbers, returned, holds};

#[unsafe(no_mangle)]
pub extern "C" fn tally_insert(
    book: &mut [u8],
    k: usize,
    v: usize,
    key: &[u8],
    value: &[u8],
    old: &mut [u8],
    answer: &mut [u64],
) -> u64
    ensures status { result ≡ returned answer.old }
    ensures answer_after { answer.new ≡ holds answer.old (numbers (insert_answer book.old k v key.now value.now old.old)) answer.old }
    ensures book_after { book.new ≡ holds answer.old (insert_book book.old k v key.now value.now old.old) book.old }
    ensures old_after { old.new ≡ holds answer.old (insert_old book.old k v key.now value.now old.old) old.old }
{
    exports_insert::tally_insert(book, k, v, key, value, old, answer)
}
