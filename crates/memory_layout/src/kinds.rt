// The kinds of number that count in a book, with the only ways from one to another.
ghost use Rattle.std.specs.Prelude.{◌≡◌, ◌+◌, ◌*◌, ◌%◌, ◌^◌, ◌≤◌, ◌<◌, is_some, IfSome};
ghost use Rattle.rules.specs.Bounds.{Sizes, Slots};
ghost use Rattle.rules.specs.Layout.{are_sizes, is_slot_count, entry_at, value_at, control_at, total};
ghost use Rattle.rules.specs.Probe.{slot_of};
ghost use Rattle.rules.proofs.BoundsLaws.{sizes_prop, slots_prop};

// A slot number.
#[derive(Clone, Copy, Debug, PartialEq, Eq)]
pub struct Slot(pub usize);

// A control position: one for each slot, then sixteen mirrors.
#[derive(Clone, Copy, Debug, PartialEq, Eq)]
pub struct Position(pub usize);

// A byte offset into the book.
#[derive(Clone, Copy, Debug, PartialEq, Eq)]
pub struct Offset(pub usize);

// The size of a key and that of a value.
#[derive(Clone, Copy)]
pub struct EntrySizes {
    pub k: usize,
    pub v: usize,
    pub ghost in_range: { Sizes k v } by { sizes_prop k v },
}

// How many slots a book has.
#[derive(Clone, Copy)]
pub struct SlotCount {
    pub n: usize,
    pub ghost is_count: { Slots n } by { slots_prop n },
}

// The largest slot count.
const SLOT_LIMIT: u64 = 65_536;

impl SlotCount {
    // A number that is a slot count. The test asks for what is usual, since the compiler lets that go straight on.
    pub fn new(n: u64) -> Option<SlotCount>
        ensures known { is_some result ≡ is_slot_count n }
        ensures count { IfSome result (λ slots. slots.n ≡ n) }
    {
        let is_enough = n > 15;
        if is_enough {
            let is_power = n & (n - 1) == 0;
            if is_power & (n <= SLOT_LIMIT) {
                return Some(SlotCount { n: n as usize });
            }
        }
        None
    }

    // The remainder by the count, without dividing.
    pub fn wrap(self, x: usize) -> usize
        ensures { result ≡ x % self.n }
    {
        x & (self.n - 1)
    }

    // The slot that position m of the group at p stands for.
    pub fn slot_of(self, p: Position, m: usize) -> Slot
        requires { (p.0 < self.n) × (m ≤ 16) }
        ensures { (result.0 ≡ slot_of self.n p.0 m) × (result.0 < self.n) }
    {
        Slot(self.wrap(p.0 + m))
    }

    // Where the mirror of one of the sixteen lowest slots stands.
    pub fn mirror_of(self, s: Slot) -> Position
        requires { s.0 < 16 }
        ensures { result.0 ≡ self.n + s.0 }
    {
        Position(self.n + s.0)
    }
}

// Where a slot's control byte stands among the control positions.
pub fn control_of(s: Slot) -> Position
    ensures { result.0 ≡ s.0 }
{
    Position(s.0)
}

impl EntrySizes {
    pub fn new(k: usize, v: usize) -> Option<EntrySizes>
        ensures known { is_some result ≡ are_sizes k v }
        ensures sizes { IfSome result (λ sizes. (sizes.k ≡ k) × (sizes.v ≡ v)) }
    {
        if (1 <= k) & (k <= 255) & (v <= 255) {
            Some(EntrySizes { k, v })
        } else {
            None
        }
    }

    // n entries. The only product of the layout: its bound makes every sum above it linear.
    pub fn span(self, n: usize) -> usize
        requires { n ≤ 2 ^ 20 }
        ensures { (result ≡ n * (self.k + self.v)) × (result ≤ 2 ^ 20 * 510) }
    {
        n * (self.k + self.v)
    }

    // Where a slot's entry stands: its key, and after that its value.
    pub fn entry_offset(self, s: Slot) -> Offset
        requires { s.0 < 2 ^ 20 }
        ensures { result.0 ≡ entry_at self.k self.v s.0 }
    {
        Offset(32 + self.span(s.0))
    }

    // Where a slot's value stands.
    pub fn value_offset(self, s: Slot) -> Offset
        requires { s.0 < 2 ^ 20 }
        ensures { result.0 ≡ value_at self.k self.v s.0 }
    {
        Offset(32 + self.span(s.0) + self.k)
    }

    // Where the byte of a control position stands.
    pub fn control_offset(self, p: Position, slots: SlotCount) -> Offset
        requires { p.0 < slots.n + 16 }
        ensures { result.0 ≡ control_at self.k self.v slots.n p.0 }
    {
        Offset(32 + self.span(slots.n) + p.0)
    }

    // The length of a whole book.
    pub fn total(self, slots: SlotCount) -> usize
        ensures { result ≡ total self.k self.v slots.n }
    {
        32 + self.span(slots.n) + slots.n + 16
    }
}
