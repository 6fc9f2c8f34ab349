// Lines, put together from what each read brings.
ghost use Rattle.std.specs.Prelude.{◌≡◌, ◌<◌, ◌≤◌, ◌==◌, ◌↔◌, [], ◌∷◌, ◌++◌, length, Some, None, IsTrue, IsNone, IfSome, MatchOption, position, slice_index};
ghost use Rattle.call_lines.specs.Line.{first_line, extended};

use arrayvec::ArrayVec;
use std::marker::Model;

/// A line of at most `LIMIT` bytes, as far as it was read. Of a longer one only that is known.
#[derive(Drop)]
pub struct Line<const LIMIT: usize> {
    bytes: ArrayVec<u8, LIMIT>,
    is_too_long: bool,
}

impl<const LIMIT: usize> Model for Line<LIMIT> {
    ghost use Rattle.std.specs.Prelude.{ℕ, List, Option, Some, None, if◌then◌else◌};

    ghost Value = { Option (List ℕ) };

    ghost view = { λ line. if line.is_too_long then None else Some line.bytes.items };
}

impl<const LIMIT: usize> Line<LIMIT> {
    pub fn new() -> Self
        ensures { result ≡ Some [] }
    {
        Line {
            bytes: ArrayVec::new(),
            is_too_long: false,
        }
    }

    pub fn is_empty(&self) -> bool
        ensures { IsTrue result ↔ (self.now ≡ Some []) }
    {
        self.bytes.is_empty() && !self.is_too_long
    }

    /// The bytes of the line, which is then read in its own place, if it is not too long.
    pub fn bytes_mut(&mut self) -> Option<&mut [u8]>
        ensures variant { IsNone result ↔ (self.old ≡ None) }
        ensures value { IfSome result (λ bytes. self.old ≡ Some bytes.now) }
        ensures fits { IfSome result (λ bytes. length bytes.now ≤ LIMIT) }
    {
        if self.is_too_long {
            return None;
        }
        Some(self.bytes.as_mut_slice())
    }

    /// The next line begins.
    pub fn clear(&mut self)
        ensures { self.new ≡ Some [] }
    {
        self.bytes.clear();
        self.is_too_long = false;
    }

    fn add(&mut self, bytes: &[u8])
        ensures { self.new ≡ extended LIMIT self.old bytes.now }
    {
        if self.bytes.try_extend_from_slice(bytes).is_err() {
            self.is_too_long = true;
        }
    }

    /// Goes on with the line, to its end or to that of the input. Returns the input behind the line's end, where it was met.
    pub fn take<'i>(&mut self, input: &'i [u8]) -> Option<&'i [u8]>
        ensures line { self.new ≡ extended LIMIT self.old (first_line input.now) }
        ensures rest { MatchOption result (first_line input.now ≡ input.now) (λ rest. input.now ≡ first_line input.now ++ 10 ∷ rest.now) }
        ensures moves_on { IfSome result (λ rest. length rest.now < length input.now) }
    {
        match newline_in(input) {
            Some(end) => {
                self.add(&input[..end]);
                Some(&input[end + 1..])
            }
            None => {
                self.add(input);
                None
            }
        }
    }
}

// Where the first newline stands.
fn newline_in(input: &[u8]) -> Option<usize>
    ensures value { result ≡ position (λ b. b == 10) input.now }
    ensures found { IfSome result (λ end. (end < length input.now) × (slice_index input.now end ≡ 10)) }
{
    input.iter().position(|&byte| byte == b'\n')
}
