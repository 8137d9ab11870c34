// The samples of a step, A + 2 B + 4 index + 8 ExtIn: each line, and the index's edges against the
// samples that the step before kept. A function for each line and edge, as the definitions have them:
// by one function of the bit its callers would say numbers.
ghost use Rattle.std.specs.Prelude.{◌≡◌};
ghost use Rattle.counter.specs.Samples.{line_a, line_b, index, extin, index_rises, index_falls};

pub fn line_a(s: u32) -> bool
    ensures { result ≡ line_a s }
{
    words::bit_at(s, 0)
}

pub fn line_b(s: u32) -> bool
    ensures { result ≡ line_b s }
{
    words::bit_at(s, 1)
}

pub fn index(s: u32) -> bool
    ensures { result ≡ index s }
{
    words::bit_at(s, 2)
}

pub fn extin(s: u32) -> bool
    ensures { result ≡ extin s }
{
    words::bit_at(s, 3)
}

pub fn index_rises(kept: u32, now: u32) -> bool
    ensures { result ≡ index_rises kept now }
{
    index(now) & !index(kept)
}

pub fn index_falls(kept: u32, now: u32) -> bool
    ensures { result ≡ index_falls kept now }
{
    index(kept) & !index(now)
}
