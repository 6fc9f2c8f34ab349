// The query over a group of eight control bytes, by the bit trick of hashbrown's portable group.
#![tactic(auto)]

ghost use Rattle.std.specs.Prelude.{◌≡◌, ℕ, ◌+◌, ◌/◌, ◌^◌, ◌<◌, ◌≤◌, Bool, List, ◌∷◌, length, replicate};
ghost use Rattle.std.specs.Int.Count.{count_trailing_zeros};
ghost use Rattle.rules.specs.Bytes.{le, part};
ghost use Rattle.rules.specs.First.{some_of};
ghost use Rattle.rules.specs.Layout.{is_empty};
ghost use Rattle.rules.specs.Group.{reports, positions, first_empty};
ghost use Rattle.group_query.specs.Marks.{word, empties, others, said_first};

// The reported positions and the empty ones, each as a mask: bit 0x80 of byte m for position m.
#[derive(Clone, Copy, Debug, PartialEq, Eq)]
pub struct GroupQuery {
    pub eq: u64,
    pub empty: u64,
}

// A byte in each place of a word.
#[tactic(auto, unfolding(rules::specs::Bytes::le))]
fn repeat(byte: u8) -> u64
    ensures { result ≡ le (replicate 8 byte) }
{
    u64::from(byte) * 0x0101_0101_0101_0101
}

fn lowest_byte(mask: u64) -> usize
    ensures { result ≡ count_trailing_zeros 64 mask / 8 }
{
    (mask.trailing_zeros() / 8) as usize
}

// The lowest marked position of a mask that has one. This and the next take the mask as a number: docs/PROMISES.md names them.
pub fn lowest_of(mask: u64) -> usize
    requires { 0 < mask }
    ensures { (ms : List Bool) → length ms ≡ 8 → mask ≡ word ms → (result < 8) × (positions 0 ms ≡ result ∷ positions 0 (others ms)) }
{
    lowest_byte(mask)
}

// The mask without its lowest mark.
pub fn without_lowest(mask: u64) -> u64
    requires { 0 < mask }
    ensures { (ms : List Bool) → mask ≡ word ms → (result < mask) × (result ≡ word (others ms)) }
{
    mask & (mask - 1)
}

impl GroupQuery {
    // Of the eight control bytes from a place on, for a tag.
    pub fn from(metadata: &[u8], at: usize, h2: u8) -> GroupQuery
        requires { at + 8 ≤ length metadata.now }
        ensures { (result.eq ≡ word (reports h2 (part 8 at metadata.now))) × (result.empty ≡ word (empties (part 8 at metadata.now))) }
    {
        let group = fxhash::read_u64(metadata, at);
        let cmp = group ^ repeat(h2);
        let low = cmp.wrapping_sub(0x0101_0101_0101_0101);
        GroupQuery {
            eq: (!cmp & 0x8080_8080_8080_8080) & low,
            empty: group & 0x8080_8080_8080_8080,
        }
    }

    #[tactic(auto, using(crate::proofs::MarkLaws::any_empty))]
    pub fn any_empty(self) -> bool
        ensures { (group : List ℕ) → self.empty ≡ word (empties group) → result ≡ some_of (λ b. is_empty b) group }
    {
        self.empty != 0
    }

    pub fn first_empty(self) -> Option<usize>
        ensures { (group : List ℕ) → length group ≡ 8 → self.empty ≡ word (empties group) → said_first result ≡ first_empty group }
    {
        let mask = self.empty;
        if mask == 0 {
            return None;
        }
        Some(lowest_byte(mask))
    }
}
