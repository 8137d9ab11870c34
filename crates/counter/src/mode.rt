// The fields of the mode word, by their bits. The kinds XS, K, TD, TE, OM and IM stay numbers: each
// definition compares the number that the mode word is described by, and a record with a number that
// no mode write takes is answered too, so enums would need a second list and an arm for the rest. Each
// bit has a function of its definition's name: by one function of the bit its callers would say numbers.
ghost use Rattle.std.specs.Prelude.{◌≡◌, ◌+◌, ◌<◌};
ghost use Rattle.words.specs.Bits.{word};
ghost use Rattle.words.specs.Range.{or_reset};
ghost use Rattle.counter.specs.Mode.{XS, K, TD, TE, TP, OP, OM, BP, UD, NR, IM, IP, good_mode};

// Mode words are below this: bits 28 to 31 are 0.
pub const WORDS: u32 = 1 << 28;

// Where the index comes from.
pub fn xs(m: u32) -> u32
    ensures { result ≡ XS m }
{
    m % 16
}

// The clock.
pub fn k(m: u32) -> u32
    ensures { result ≡ K m }
{
    (m >> 4) % 8
}

// What disarms.
pub fn td(m: u32) -> u32
    ensures { result ≡ TD m }
{
    (m >> 7) % 4
}

// What arms.
pub fn te(m: u32) -> u32
    ensures { result ≡ TE m }
{
    (m >> 9) % 4
}

// What preloads: one bit of TP, by its number in the word.
pub fn tp(m: u32, i: u32) -> bool
    requires { i < 32 }
    ensures { result ≡ TP m i }
{
    words::bit_at(m, i)
}

// The bits 11 to 15 of TP, those of the reasons 0 to 4, as one number.
pub fn tp_reasons(m: u32) -> u32
    ensures { result ≡ word 5 (λ j. TP m (11 + j)) }
{
    (m >> 11) % 32
}

// ExtOut inverted.
pub fn op(m: u32) -> bool
    ensures { result ≡ OP m }
{
    words::bit_at(m, 17)
}

// What ExtOut shows.
pub fn om(m: u32) -> u32
    ensures { result ≡ OM m }
{
    (m >> 18) % 8
}

// Each preload selects the other register.
pub fn bp(m: u32) -> bool
    ensures { result ≡ BP m }
{
    words::bit_at(m, 21)
}

// The difference's sign is reversed.
pub fn ud(m: u32) -> bool
    ensures { result ≡ UD m }
{
    words::bit_at(m, 22)
}

// A preload only at count 0.
pub fn nr(m: u32) -> bool
    ensures { result ≡ NR m }
{
    words::bit_at(m, 23)
}

// What ExtIn gates.
pub fn im(m: u32) -> u32
    ensures { result ≡ IM m }
{
    (m >> 25) % 4
}

// ExtIn inverted.
pub fn ip(m: u32) -> bool
    ensures { result ≡ IP m }
{
    words::bit_at(m, 27)
}

// A mode write takes the word.
pub fn is_good(m: u32) -> bool
    ensures { result ≡ good_mode m }
{
    (m < WORDS) & (te(m) < 3) & (td(m) < 3) & (im(m) < 3) & (om(m) < 5)
}

// A mode word handed in: one that a mode write refuses counts as 0. A test of its own, as for a carry
// or an interval: one function for the three would take the test as a closure, in place of one `if`.
pub fn in_range(m: u32) -> u32
    ensures { result ≡ or_reset good_mode 0 m }
{
    if is_good(m) { m } else { 0 }
}
