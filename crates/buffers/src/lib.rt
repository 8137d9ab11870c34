// Lent buffers: bytes copied and cleared, and numbers of 32 and 64 bits put and read,
// little-endian. What a function writes is a piece put at a place; all else stays. The buffers are the
// callers', of fixed memory, so each function takes one and a place in it; `copy_to` and `clear` are a
// library call each, and say by `put` what the proofs above go by.
#![tactic(auto)]

ghost use Rattle.std.specs.Prelude.{◌≡◌, ◌+◌, ◌*◌, ◌≤◌, length, replicate};
ghost use Rattle.buffers.specs.Pieces.{put};
ghost use Rattle.buffers.specs.Little.{little, field};

// The bytes of a record, in which every history, block and run is counted.
pub const RECORD: usize = 16;

// All of src, from place `at` on.
pub fn copy_to(src: &[u8], out: &mut [u8], at: usize)
    requires { at + length src.now ≤ length out.old }
    ensures { out.new ≡ put out.old at src.now }
{
    out[at..at + src.len()].copy_from_slice(src);
}

// n zeros, from place `at` on.
pub fn clear(out: &mut [u8], at: usize, n: usize)
    requires { at + n ≤ length out.old }
    ensures { out.new ≡ put out.old at (replicate n 0) }
{
    out[at..at + n].fill(0);
}

// Numbers of 32 and 64 bits have a function each: one for both would need a trait for these single calls.

// The four bytes of v, from place `at` on.
pub fn put_word(out: &mut [u8], at: usize, v: u32)
    requires { at + 4 ≤ length out.old }
    ensures { out.new ≡ put out.old at (little 4 v) }
{
    copy_to(&v.to_le_bytes(), out, at);
}

// The eight bytes of v, from place `at` on.
pub fn put_long(out: &mut [u8], at: usize, v: u64)
    requires { at + 8 ≤ length out.old }
    ensures { out.new ≡ put out.old at (little 8 v) }
{
    copy_to(&v.to_le_bytes(), out, at);
}

// The number in the four bytes from place `at` on.
pub fn word_at(b: &[u8], at: usize) -> u32
    requires { at + 4 ≤ length b.now }
    ensures { result ≡ field 4 b.now at }
{
    let mut bytes = [0u8; 4];
    bytes.copy_from_slice(&b[at..at + 4]);
    u32::from_le_bytes(bytes)
}

// The number in the eight bytes from place `at` on.
pub fn long_at(b: &[u8], at: usize) -> u64
    requires { at + 8 ≤ length b.now }
    ensures { result ≡ field 8 b.now at }
{
    let mut bytes = [0u8; 8];
    bytes.copy_from_slice(&b[at..at + 8]);
    u64::from_le_bytes(bytes)
}
