// What is written. It is held in a buffer, which goes to the writer when it is full and by `flush`.
ghost use Rattle.std.specs.Prelude.{◌≡◌, [], ◌∷◌, OnOk};
ghost use Rattle.std.specs.Io.KnownBytes.{Appends, Keeps};
ghost use Rattle.call_answers.specs.Buffered.{held_bytes, bytes_of};

use arrayvec::ArrayVec;
use std::{fmt, io};

/// A writer behind a buffer. After an error nothing more is to be written.
#[derive(Drop)]
pub struct Buffered<W> {
    writer: W,
    held: ArrayVec<u8, 65536>,
}

impl<W: io::Write> Buffered<W> {
    pub fn new(writer: W) -> Buffered<W>
        ensures { Keeps (W.contents writer) (bytes_of W.contents result) }
    {
        Buffered {
            writer,
            held: ArrayVec::new(),
        }
    }

    /// Writes what is held.
    pub fn flush(&mut self) -> fmt::Result
        ensures bytes { OnOk result (Keeps (bytes_of W.contents self.old) (bytes_of W.contents self.new)) }
        ensures written { OnOk result (held_bytes self.new ≡ []) }
    {
        if self.writer.write_all(self.held.as_slice()).is_err() {
            return Err(fmt::Error);
        }
        self.held.clear();
        Ok(())
    }

    fn put(&mut self, byte: u8) -> fmt::Result
        ensures { OnOk result (Appends (bytes_of W.contents self.old) (bytes_of W.contents self.new) (byte ∷ [])) }
    {
        if self.held.is_full() {
            self.flush()?;
        }
        self.held.push(byte);
        Ok(())
    }
}

impl<W: io::Write> fmt::Write for Buffered<W> {
    ghost write_str_gives = { λ old text new. Appends (bytes_of W.contents old) (bytes_of W.contents new) text };

    fn write_str(&mut self, text: &str) -> fmt::Result {
        for &byte in text.as_bytes() {
            self.put(byte)?;
        }
        Ok(())
    }
}
