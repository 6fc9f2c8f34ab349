// The order in which a search examines groups.
ghost use Rattle.std.specs.Prelude.{◌≡◌, ℕ, suc, ◌%◌, ◌^◌, ◌≤◌};
ghost use Rattle.raw_table.specs.Seq.{seq_at};

use memory_layout::kinds::SlotCount;

// Where a search stands: the next group starts at `index`. Probing goes by pairs of groups, as with groups of sixteen.
#[derive(Clone, Copy)]
pub struct ProbeSeq {
    pub index: usize,
    pub base: usize,
    pub chunk: usize,
    pub stride: usize,
}

impl ProbeSeq {
    pub fn new(h1: usize, slots: SlotCount) -> Self
        ensures { result ≡ seq_at (h1 % slots.n) slots.n 0 }
    {
        let start = slots.wrap(h1);
        ProbeSeq {
            index: start,
            base: start,
            chunk: 0,
            stride: 0,
        }
    }

    // One step: takes the state and hands back the next.
    pub fn advance(self, slots: SlotCount) -> Self
        requires { (self.base ≤ 2 ^ 40) × (self.chunk ≤ 8) × (self.stride ≤ 2 ^ 40) }
        ensures { (b j : ℕ) → self ≡ seq_at b slots.n j → result ≡ seq_at b slots.n (suc j) }
    {
        let chunk = self.chunk + 8;
        if chunk == 16 {
            let stride = self.stride + 16;
            let base = self.base + stride;
            ProbeSeq {
                index: slots.wrap(base),
                base,
                chunk: 0,
                stride,
            }
        } else {
            ProbeSeq {
                index: slots.wrap(self.base + chunk),
                chunk,
                ..self
            }
        }
    }
}
