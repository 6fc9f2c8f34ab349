// The fields of a line. Each value has one spelling: a number no leading zero, bytes lower-case hex, or a dash for none.
ghost use Rattle.std.specs.Prelude.{◌≡◌, ◌≢◌, ℕ, [], ◌∷◌, ◌++◌, ◌+◌, ◌-◌, ◌*◌, ◌≤◌, ◌<◌, ◌↔◌, ◌⊎◌, length, slice_index, IsTrue, IfSome, false};
ghost use Rattle.std.specs.Fmt.{decimal, digit_glyph};
ghost use Rattle.std.specs.Str.Parse.{AllDigits, digits_value};
ghost use Rattle.call_lines.specs.Hex.{hex_of_byte, hex_text};

use std::mem;

/// What is left of a line, field by field. Byte strings are read in their own place.
#[derive(Drop)]
pub(crate) struct Fields<'l> {
    rest: &'l mut [u8],
}

impl<'l> Fields<'l> {
    pub(crate) fn new(line: &'l mut [u8]) -> Fields<'l>
        ensures { result.rest.now ≡ line.old }
    {
        Fields { rest: line }
    }

    /// Whether the line ends here.
    pub(crate) fn is_empty(&self) -> bool
        ensures { IsTrue result ↔ (self.now.rest.now ≡ []) }
    {
        self.rest.is_empty()
    }

    // What stands before the next space, or before the line's end.
    fn part(&mut self) -> &'l mut [u8]
        ensures { self.old.rest.now ≡ result.now ++ self.new.rest.now }
    {
        let line = mem::take(&mut self.rest);
        let end = field_end(line);
        let (part, rest) = line.split_at_mut(end);
        self.rest = rest;
        part
    }

    // The field behind the next space.
    fn field(&mut self) -> Option<&'l mut [u8]>
        ensures field { IfSome result (λ field. self.old.rest.now ≡ 32 ∷ (field.now ++ self.new.rest.now)) }
        ensures rest { length self.new.rest.now ≤ length self.old.rest.now }
    {
        if *self.rest.split_off_first_mut()? != b' ' {
            return None;
        }
        Some(self.part())
    }

    /// The word that a line starts with.
    pub(crate) fn word(&mut self) -> &'l [u8]
        ensures { self.old.rest.now ≡ result.now ++ self.new.rest.now }
    {
        self.part()
    }

    pub(crate) fn number(&mut self) -> Option<u64>
        ensures number { IfSome result (λ n. self.old.rest.now ≡ 32 ∷ (decimal n ++ self.new.rest.now)) }
        ensures rest { length self.new.rest.now ≤ length self.old.rest.now }
    {
        number_of(self.field()?)
    }

    /// The bytes of the next field.
    pub(crate) fn bytes(&mut self) -> Option<&'l [u8]>
        ensures bytes { IfSome result (λ bytes. self.old.rest.now ≡ 32 ∷ (hex_text bytes.now ++ self.new.rest.now)) }
        ensures fits { IfSome result (λ bytes. length bytes.now ≤ length self.old.rest.now) }
        ensures rest { length self.new.rest.now ≤ length self.old.rest.now }
    {
        unhex(self.field()?)
    }
}

// Where the first space stands; the line's end if there is none.
fn field_end(line: &[u8]) -> usize
    ensures in_line { result ≤ length line.now }
    ensures before { (k : ℕ) → k < result → slice_index line.now k ≢ 32 }
    ensures found { result < length line.now → slice_index line.now result ≡ 32 }
{
    line.iter()
        .position(|&byte| byte == b' ')
        .unwrap_or(line.len())
}

// A number with one digit more.
fn with_digit(n: u64, byte: u8) -> Option<u64>
    ensures { IfSome result (λ more. (48 ≤ byte) × (byte ≤ 57) × (more ≡ n * 10 + (byte - 48))) }
{
    if !byte.is_ascii_digit() {
        return None;
    }
    n.checked_mul(10)?.checked_add(u64::from(byte - b'0'))
}

fn value_of(digits: &[u8]) -> Option<u64>
    ensures { IfSome result (λ n. AllDigits 10 digits.now × (n ≡ digits_value 10 digits.now)) }
{
    let mut n = 0;
    for &digit in digits {
        n = with_digit(n, digit)?;
    }
    Some(n)
}

// Whether a field is empty, or starts with a zero that is not all of it.
fn starts_badly(field: &[u8]) -> bool
    ensures { IsTrue result ↔ ((length field.now ≡ 0) ⊎ ((slice_index field.now 0 ≡ 48) × (1 < length field.now))) }
{
    matches!(field, [] | [b'0', _, ..])
}

// The number that a field writes in its one spelling.
fn number_of(field: &[u8]) -> Option<u64>
    ensures { IfSome result (λ n. field.now ≡ decimal n) }
{
    if starts_badly(field) {
        return None;
    }
    value_of(field)
}

// What a hex digit is worth.
fn nibble(byte: u8) -> Option<u8>
    ensures { IfSome result (λ n. (n < 16) × (digit_glyph false n ≡ byte)) }
{
    match byte {
        b'0'..=b'9' => Some(byte - b'0'),
        b'a'..=b'f' => Some(byte - b'a' + 10),
        _ => None,
    }
}

// What two hex digits are worth.
fn pair(high: u8, low: u8) -> Option<u8>
    ensures { IfSome result (λ byte. hex_of_byte byte ≡ high ∷ low ∷ []) }
{
    Some(nibble(high)? * 16 + nibble(low)?)
}

// The bytes that a field stands for, put over its start.
fn unhex(field: &mut [u8]) -> Option<&[u8]>
    ensures bytes { IfSome result (λ bytes. field.old ≡ hex_text bytes.now) }
    ensures fits { IfSome result (λ bytes. length bytes.now ≤ length field.old) }
{
    if let [b'-'] = field {
        return Some(&[]);
    }
    let n = field.len() / 2;
    if n == 0 || field.len() % 2 != 0 {
        return None;
    }
    for i in 0..n {
        field[i] = pair(field[2 * i], field[2 * i + 1])?;
    }
    Some(&field[..n])
}
