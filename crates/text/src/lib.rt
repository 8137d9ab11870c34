// Text appended to a line of fixed room: bytes, and numbers in decimal and hexadecimal.
#![tactic(auto)]

ghost use Rattle.std.specs.Prelude.{◌≡◌, [], ◌∷◌, ◌++◌, ◌+◌, ◌≤◌, ◌<◌, length};
ghost use Rattle.arrayvec.specs.ArrayVec.{array_vec_len};
ghost use Rattle.text.specs.Decimal.{decimal, entry, digit, hexadecimal};

use arrayvec::ArrayVec;
use itoa::Buffer;

// Bytes as they are.
pub fn put_bytes<const N: usize>(line: &mut ArrayVec<u8, N>, bytes: &[u8])
    requires room { array_vec_len line.old + length bytes.now ≤ N }
    ensures wrote { line.new.items ≡ line.old.items ++ bytes.now }
{
    let Ok(()) = line.try_extend_from_slice(bytes) else {
        unreachable!();
    };
}

// A number in decimal. Most of those in a log have one digit, which needs no buffer.
#[tactic(auto, using(crate::proofs::Decimal::length_decimal, crate::proofs::Decimal::decimal_printed, crate::proofs::Decimal::one_digit))]
pub fn put_decimal<const N: usize>(line: &mut ArrayVec<u8, N>, v: u64)
    requires room { array_vec_len line.old + length (decimal v) ≤ N }
    ensures within { array_vec_len line.new ≤ array_vec_len line.old + 20 }
    ensures wrote { line.new.items ≡ line.old.items ++ decimal v }
{
    if v < 10 {
        line.push(digit(v));
    } else {
        let mut buffer = Buffer::new();
        put_bytes(line, buffer.format(v).as_bytes());
    }
}

// A number in decimal and the byte b behind it.
#[tactic(auto, using(crate::proofs::Decimal::length_decimal))]
pub fn put_entry<const N: usize>(line: &mut ArrayVec<u8, N>, v: u64, b: u8)
    requires room { array_vec_len line.old + 21 ≤ N }
    ensures within { array_vec_len line.new ≤ array_vec_len line.old + 21 }
    ensures wrote { line.new.items ≡ line.old.items ++ entry v b }
{
    put_decimal(line, v);
    line.push(b);
}

// The lowest k hexadecimal digits of v.
pub fn put_hexadecimal<const N: usize>(line: &mut ArrayVec<u8, N>, v: u64, k: usize)
    requires room { array_vec_len line.old + k ≤ N }
    ensures len { array_vec_len line.new ≡ array_vec_len line.old + k }
    ensures wrote { line.new.items ≡ line.old.items ++ hexadecimal k v }
{
    if k == 0 {
        return;
    }
    put_hexadecimal(line, v / 16, k - 1);
    line.push(digit(v % 16));
}

// A hexadecimal digit.
fn digit(d: u64) -> u8
    requires { d < 16 }
    ensures { result ≡ digit d }
{
    if d < 10 { 48 + d as u8 } else { 87 + d as u8 }
}
