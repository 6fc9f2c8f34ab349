// What is written over a run of the lent bytes.
ghost use Rattle.std.specs.Prelude.{◌≡◌, ◌+◌, ◌≤◌, length, replicate};
ghost use Rattle.std.proofs.lemmas.List.Edits.{sets};
ghost use Rattle.rules.specs.Bytes.{le_bytes};

// Every byte of the part becomes `byte`.
pub fn fill(part: &mut [u8], byte: u8)
    ensures { part.new ≡ replicate (length part.old) byte }
{
    part.fill(byte);
}

// The `width` lowest bytes of n are written from a place on, least byte first. One loop serves every width: `to_le_bytes` is a method of each type, and
// would want a law for each.
pub fn put(bytes: &mut [u8], at: usize, width: usize, n: u64)
    requires { at + width ≤ length bytes.old }
    ensures { bytes.new ≡ sets bytes.old at (le_bytes width n) }
{
    let mut rest = n;
    for i in 0..width {
        bytes[at + i] = (rest % 256) as u8;
        rest /= 256;
    }
}
