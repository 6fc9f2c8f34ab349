// The calls of `exports`, exported for Rust or C.
#![tactic(auto)]

ghost use Rattle.std.specs.Prelude.{◌≡◌};
ghost use Rattle.rules.specs.Calls.{init_answer, init_book, open_answer, find_answer, next_answer};
ghost use Rattle.rules.specs.Check.{check_answer};
ghost use Rattle.exports.specs.Numbers.{numbers, value_numbers, returned, holds};

#[unsafe(no_mangle)]
pub extern "C" fn tally_init(
    book: &mut [u8],
    k: usize,
    v: usize,
    slots: usize,
    count: u64,
    load: u16,
    answer: &mut [u64],
) -> u64
    ensures status { result ≡ returned answer.old }
    ensures answer_after { answer.new ≡ holds answer.old (numbers (init_answer book.old k v slots)) answer.old }
    ensures book_after { book.new ≡ holds answer.old (init_book book.old k v slots count load) book.old }
{
    exports::tally_init(book, k, v, slots, count, load, answer)
}

#[unsafe(no_mangle)]
pub extern "C" fn tally_open(book: &[u8], k: usize, v: usize, answer: &mut [u64]) -> u64
    ensures status { result ≡ returned answer.old }
    ensures answer_after { answer.new ≡ holds answer.old (numbers (open_answer book.now k v)) answer.old }
{
    exports::tally_open(book, k, v, answer)
}

#[unsafe(no_mangle)]
pub extern "C" fn tally_check(book: &[u8], k: usize, v: usize, answer: &mut [u64]) -> u64
    ensures status { result ≡ returned answer.old }
    ensures answer_after { answer.new ≡ holds answer.old (numbers (check_answer book.now k v)) answer.old }
{
    exports::tally_check(book, k, v, answer)
}

#[unsafe(no_mangle)]
pub extern "C" fn tally_value(
    book: &[u8],
    k: usize,
    v: usize,
    key: &[u8],
    answer: &mut [u64],
) -> u64
    ensures status { result ≡ returned answer.old }
    ensures answer_after { answer.new ≡ holds answer.old (value_numbers k v (find_answer book.now k v key.now)) answer.old }
{
    exports::tally_value(book, k, v, key, answer)
}

#[unsafe(no_mangle)]
pub extern "C" fn tally_next(
    book: &[u8],
    k: usize,
    v: usize,
    from: usize,
    answer: &mut [u64],
) -> u64
    ensures status { result ≡ returned answer.old }
    ensures answer_after { answer.new ≡ holds answer.old (numbers (next_answer book.now k v from)) answer.old }
{
    exports::tally_next(book, k, v, from, answer)
}
