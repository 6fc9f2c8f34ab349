// A walk over a book's occupied slots.
use crate::answer::Answer;
use raw_slots::iter::{RawIter, next_occupied};
use std::fmt;

/// The first `steps` steps of a walk: each occupied slot with its control byte, and where the walk then stands.
#[derive(Clone, Copy)]
pub struct Walk<'b> {
    pub book: &'b [u8],
    pub k: usize,
    pub v: usize,
    pub steps: usize,
}

impl fmt::Display for Walk<'_> {
    // A book that refuses any step refuses the first.
    fn fmt<W: fmt::Write>(&self, f: &mut fmt::Formatter<W>) -> fmt::Result {
        let mut walk = RawIter::new(self.book, self.k, self.v);
        if self.steps > 0 {
            if let Err(refusal) = next_occupied(self.book, self.k, self.v, 0) {
                return write!(f, "{}", Answer::Refused(refusal));
            }
        }
        write!(f, "walk")?;
        for _ in 0..self.steps {
            let Ok(Some((slot, control))) = walk.step() else {
                break;
            };
            write!(f, " {}:{control}", slot.0)?;
        }
        write!(f, " next {}", walk.next)
    }
}
