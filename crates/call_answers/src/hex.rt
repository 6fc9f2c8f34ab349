// Bytes as a list of calls writes them.
ghost use Rattle.std.specs.Prelude.{◌≡◌, ◌<◌, [], ◌∷◌, Some, false};
ghost use Rattle.std.specs.Fmt.{digit_glyph};
ghost use Rattle.call_lines.specs.Hex.{hex_text};

use std::fmt;

/// Bytes in hex, a dash for none.
#[derive(Clone, Copy)]
pub struct Hex<'b>(pub &'b [u8]);

impl fmt::Display for Hex<'_> {
    ghost output = { λ hex. Some (hex_text hex.0.now) };

    // Digit by digit: `{byte:02x}` takes seven times as long.
    fn fmt<W: fmt::Write>(&self, f: &mut fmt::Formatter<W>) -> fmt::Result {
        if self.0.is_empty() {
            return write!(f, "-");
        }
        for &byte in self.0 {
            f.write_str(digit(byte / 16))?;
            f.write_str(digit(byte % 16))?;
        }
        Ok(())
    }
}

// A digit's text.
fn digit(n: u8) -> &'static str
    requires { n < 16 }
    ensures { result.now ≡ digit_glyph false n ∷ [] }
{
    match n {
        0 => "0",
        1 => "1",
        2 => "2",
        3 => "3",
        4 => "4",
        5 => "5",
        6 => "6",
        7 => "7",
        8 => "8",
        9 => "9",
        10 => "a",
        11 => "b",
        12 => "c",
        13 => "d",
        14 => "e",
        _ => "f",
    }
}
