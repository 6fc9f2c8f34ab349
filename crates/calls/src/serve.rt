// The whole list: reads, puts lines together and answers each.
use call_answers::buffered::Buffered;
use call_lines::line::Line;
use kept_book::book::{Book, LINE_LIMIT};
use std::fmt::Write;
use std::io::Read;
use std::{fmt, io};

// The line that is being read, the book, and what is to be written.
#[derive(Drop)]
struct Calls<W> {
    line: Line<LINE_LIMIT>,
    book: Book,
    out: Buffered<W>,
}

impl<W: io::Write> Calls<W> {
    fn new(writer: W) -> Calls<W> {
        Calls {
            line: Line::new(),
            book: Book::new(),
            out: Buffered::new(writer),
        }
    }

    fn answer_line(&mut self) -> fmt::Result {
        match self.line.bytes_mut() {
            Some(line) => self.book.answer(line, &mut self.out)?,
            None => self.out.write_str("bad")?,
        }
        self.line.clear();
        self.out.write_str("\n")
    }

    // Answers every line that ends in this input.
    fn answer_lines(&mut self, input: &[u8]) -> fmt::Result {
        let mut rest = input;
        while let Some(behind) = self.line.take(rest) {
            self.answer_line()?;
            rest = behind;
        }
        self.out.flush()
    }

    // At the end of the input a line may be left.
    fn finish(&mut self) -> fmt::Result {
        if !self.line.is_empty() {
            self.answer_line()?;
        }
        self.out.flush()
    }
}

// Nothing says that the input ends, and a proved loop has to: so the reads are counted, up to a number that no run uses up.
pub(crate) fn serve(rt: &(impl Input + Print)) -> fmt::Result {
    let mut calls = Calls::new(io::writer(rt));
    let mut reader = rt.reader();
    let mut input = [0u8; 65536];
    for _ in 0..u64::MAX {
        // A read that fails is the end of the input.
        let n = reader.read(&mut input).unwrap_or(0);
        if n == 0 {
            break;
        }
        calls.answer_lines(&input[..n])?;
    }
    calls.finish()
}
