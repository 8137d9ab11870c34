// Bits of a number, and words of 48 bits, a bit for each pin of the board. Each function says which
// bits its result has, and the crates above go by that. A word function ends in a remainder by
// 2^48, so it takes every u64.
#![tactic(auto)]

ghost use Rattle.std.specs.Prelude.{◌≡◌, ◌<◌, not, cond, ◌||◌, ◌&&◌, eqb};
ghost use Rattle.std.specs.Bool.{beq};
ghost use Rattle.std.specs.List.{list_all};
ghost use Rattle.std.specs.Ordering.{partial_lt};
ghost use Rattle.words.specs.Bits.{bit_at, bit, flags, word, put_bit};
ghost use Rattle.words.specs.Range.{or_reset};

// Words are below this, 48 bits.
pub const WORDS: u64 = 1 << 48;

// Every bit of a word.
const ALL: u64 = WORDS - 1;

// Four flags as the bits 0 to 3 of a number.
pub fn flags(a: bool, b: bool, c: bool, d: bool) -> u32
    ensures is { result ≡ flags a b c d }
    ensures small { result < 16 }
{
    u32::from(a) + 2 * u32::from(b) + 4 * u32::from(c) + 8 * u32::from(d)
}

// `n` where it is below the limit, else the value at reset.
pub fn below<T: PartialOrd + Copy>(limit: T, reset: T, n: T) -> T
    ensures { result ≡ or_reset (λ m. partial_lt T.partial_cmp m limit) reset n }
{
    if n < limit { n } else { reset }
}

// Each of the values is below the limit. All are looked at: to end at the first that is not takes
// more (docs/SPEED.md).
pub fn are_below<T: PartialOrd + Copy>(limit: T, values: &[T]) -> bool
    ensures { result ≡ list_all (λ m. partial_lt T.partial_cmp m limit) values.now }
{
    values.iter().fold(true, |sound, &n| sound & (n < limit))
}

// Bit `i` of `w`.
pub fn bit(w: u64, i: u64) -> bool
    requires { i < 64 }
    ensures { result ≡ bit w i }
{
    (w >> i) % 2 == 1
}

// The same of a number of 32 bits, as the formula that computes.
pub fn bit_at(v: u32, i: u32) -> bool
    requires { i < 32 }
    ensures { result ≡ bit_at v i }
{
    bit(u64::from(v), u64::from(i))
}

// The bits that `a` or `b` has.
pub fn either(a: u64, b: u64) -> u64
    ensures { result ≡ word 48 (λ p. bit a p || bit b p) }
{
    (a | b) % WORDS
}

// The bits that both have.
pub fn both(a: u64, b: u64) -> u64
    ensures { result ≡ word 48 (λ p. bit a p && bit b p) }
{
    (a & b) % WORDS
}

// The bits of `a` that `b` has not.
pub fn without(a: u64, b: u64) -> u64
    ensures { result ≡ word 48 (λ p. bit a p && not (bit b p)) }
{
    (a ^ (a & b)) % WORDS
}

// The bits in which `a` and `b` differ.
pub fn differ(a: u64, b: u64) -> u64
    ensures { result ≡ word 48 (λ p. not (beq (bit a p) (bit b p))) }
{
    (a ^ b) % WORDS
}

// The bits of `w` that a word has.
pub fn cut(w: u64) -> u64
    ensures { result ≡ word 48 (bit w) }
{
    w % WORDS
}

// `a` where `m` is 1, else `b`.
pub fn select(m: u64, a: u64, b: u64) -> u64
    ensures { result ≡ word 48 (λ p. cond (bit m p) (bit a p) (bit b p)) }
{
    (b ^ (m & (a ^ b))) % WORDS
}

// `v` at every bit.
pub fn all(v: bool) -> u64
    ensures { result ≡ word 48 (λ p. v) }
{
    if v { ALL } else { 0 }
}

// Bit `p` alone. That there is a pin p stands as a bound here and above, in filters and ports: a type
// for it would be made and taken apart at each loop over pins and at each call.
pub fn only(p: u64) -> u64
    requires { p < 48 }
    ensures { result ≡ word 48 (λ i. eqb i p) }
{
    (1 << p) % WORDS
}

// `w` with bit `p` at `v`.
pub fn put(w: u64, p: u64, v: bool) -> u64
    requires { p < 48 }
    ensures { result ≡ put_bit 48 p v w }
{
    select(only(p), all(v), w)
}
