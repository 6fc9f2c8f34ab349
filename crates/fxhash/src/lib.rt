// The hash of rustc-hash over the bytes of a key, and the little-endian reads that it is made of.
#![tactic(auto)]

ghost use Rattle.std.specs.Prelude.{◌≡◌, ◌+◌, ◌*◌, ◌%◌, ◌^◌, ◌<◌, ◌≤◌, length};
ghost use Rattle.rules.specs.Bytes.{le, part};
ghost use Rattle.rules.specs.Hash.{rotate5, mixed, hash_of, tag};

// This and the next stay functions, since docs/DECISIONS.md names them.
pub fn rotate_left_5(x: u64) -> u64
    ensures { result ≡ rotate5 x }
{
    x.rotate_left(5)
}

pub fn wrapping_mul(a: u64, b: u64) -> u64
    ensures { result ≡ a * b % 2 ^ 64 }
{
    a.wrapping_mul(b)
}

// One chunk taken into the hash.
#[tactic(auto, unfolding(rules::specs::Hash::mixed))]
pub fn add_to_hash(current: u64, value: u64) -> u64
    ensures { result ≡ mixed current value }
{
    wrapping_mul(rotate_left_5(current) ^ value, 0x517c_c1b7_2722_0a95)
}

// The N bytes from a place on. `first_chunk` with an `unwrap` was tried: it leaves a test of the length in each read.
fn chunk<const N: usize>(bytes: &[u8], at: usize) -> &[u8; N]
    requires some { 0 < N }
    requires within { at + N ≤ length bytes.now }
    ensures { result.now ≡ part N at bytes.now }
{
    &bytes[at..at + N].as_chunks().0[0]
}

// The numbers that 2, 4 and 8 bytes from a place on stand for, each by one load. A function for each width, since
// `from_le_bytes` is a method of each type and of no trait.
#[tactic(auto, using(crate::proofs::ReadLaws::le_part_2))]
pub fn read_u16(bytes: &[u8], at: usize) -> u16
    requires { at + 2 ≤ length bytes.now }
    ensures { result ≡ le (part 2 at bytes.now) }
{
    u16::from_le_bytes(*chunk(bytes, at))
}

#[tactic(auto, using(crate::proofs::ReadLaws::le_part_4))]
pub fn read_u32(bytes: &[u8], at: usize) -> u32
    requires { at + 4 ≤ length bytes.now }
    ensures { result ≡ le (part 4 at bytes.now) }
{
    u32::from_le_bytes(*chunk(bytes, at))
}

#[tactic(auto, using(crate::proofs::ReadLaws::le_part_8))]
pub fn read_u64(bytes: &[u8], at: usize) -> u64
    requires { at + 8 ≤ length bytes.now }
    ensures { result ≡ le (part 8 at bytes.now) }
{
    u64::from_le_bytes(*chunk(bytes, at))
}

// The hash that a key's last chunk leaves.
fn low(h: u64) -> u32
    ensures { result ≡ h % 2 ^ 32 }
{
    (h % 0x1_0000_0000) as u32
}

// 8 bytes while 8 remain, then 4, 2 and 1 where that many remain.
fn hash_any(bytes: &[u8]) -> u32
    ensures { result ≡ hash_of bytes.now }
{
    let mut hash = 0;
    let mut rest = bytes;
    while let Some((chunk, after)) = rest.split_first_chunk::<8>() {
        hash = add_to_hash(hash, u64::from_le_bytes(*chunk));
        rest = after;
    }
    if let Some((chunk, after)) = rest.split_first_chunk::<4>() {
        hash = add_to_hash(hash, u64::from(u32::from_le_bytes(*chunk)));
        rest = after;
    }
    if let Some((chunk, after)) = rest.split_first_chunk::<2>() {
        hash = add_to_hash(hash, u64::from(u16::from_le_bytes(*chunk)));
        rest = after;
    }
    if let Some(byte) = rest.first() {
        hash = add_to_hash(hash, u64::from(*byte));
    }
    low(hash)
}

// The lengths that most keys have are asked for, since a length that is known takes no loop and no test of what remains.
// Eight bytes come first and apart: three `==` in a row the compiler would ask in an order of its own. Their one chunk is
// written out, since only so does it take a multiply of 32 bits.
pub fn hash(bytes: &[u8]) -> u32
    ensures { result ≡ hash_of bytes.now }
{
    if let Some(key) = bytes.as_array() {
        return low(add_to_hash(0, u64::from_le_bytes(*key)));
    }
    if bytes.len() > 8 {
        if let Some(barcode) = bytes.as_array::<13>() {
            return hash_any(barcode);
        }
        if let Some(digest) = bytes.as_array::<32>() {
            return hash_any(digest);
        }
    }
    hash_any(bytes)
}

// What is taken mod the slot count for the start of a search.
pub fn h1(h: u32) -> usize
    ensures { (result ≡ h) × (result < 2 ^ 32) }
{
    h as usize
}

// The tag.
pub fn h2(h: u32) -> u8
    ensures { (result ≡ tag h) × (result < 128) }
{
    (h >> 25) as u8
}
