// The noise filters of the 48 pins: a filter and a wait for each pin, numbers of 16 bits in bit
// planes, of which bit p of plane j is bit j of pin p's number. So a step compares and counts by
// words, for all pins at once. Planes of any words are taken.
#![tactic(auto)]

ghost use Rattle.std.specs.Prelude.{◌≡◌, cond, ◌+◌, ◌<◌, eqb, ltb, get_or};
ghost use Rattle.words.specs.Bits.{bit, word, every};
ghost use Rattle.filters.specs.Planes.{number_at, planes, put_number};
ghost use Rattle.filters.specs.Filters.{filtered, put_filter, reset_filters};

// The planes of a number, its bits.
pub const PLANES: usize = 16;

// Two arrays of planes, as C lays them out: the filter of each pin, and for how many steps in a row its raw level has differed from the
// filtered one.
#[repr(C)]
#[derive(Clone, Copy)]
pub struct Filters {
    pub filter: [u64; PLANES],
    pub wait: [u64; PLANES],
}

// What a step leaves: the filters, and the filtered level of each pin.
#[derive(Clone, Copy)]
pub struct Filtered {
    pub filters: Filters,
    pub level: u64,
}

// The numbers with `n` in the place of pin p's.
fn put_number(x: [u64; PLANES], p: u64, n: u64) -> [u64; PLANES]
    requires { p < 48 }
    ensures { result ≡ put_number p n x }
{
    std::array::from_fn(|j| words::put(x[j], p, words::bit(n, j as u64)))
}

// Every plane is 0. All are looked at: to end at the first that is not costs more (docs/SPEED.md).
fn are_zero(x: [u64; PLANES]) -> bool
    ensures { result ≡ every 16 (λ j. eqb (get_or x j 0) 0) }
{
    x.iter().fold(true, |zero, &plane| zero & (plane == 0))
}

// The pins whose number is above 0.
fn above_zero(x: [u64; PLANES]) -> u64
    ensures { result ≡ word 48 (λ p. ltb 0 (number_at x p)) }
{
    x.iter()
        .fold(0, |above, &plane| words::either(above, plane))
}

// The pins whose number in `x` is below that in `y`: the highest plane in which they differ tells.
fn below(x: [u64; PLANES], y: [u64; PLANES]) -> u64
    ensures { result ≡ word 48 (λ p. ltb (number_at x p) (number_at y p)) }
{
    x.iter().zip(y.iter()).fold(
        0,
        |below, (&a, &b)| words::select(words::differ(a, b), b, below),
    )
}

// The numbers one higher for the pins of `on`, 0 for the others. A loop, since each plane hands its
// carry on to the next: no law goes through a closure that changes what it holds.
fn counted(x: [u64; PLANES], on: u64) -> [u64; PLANES]
    ensures { result ≡ planes (λ p. cond (bit on p) (number_at x p + 1) 0) }
{
    let mut r = x;
    let mut carry = words::cut(on);
    for j in 0..PLANES {
        r[j] = words::both(on, words::differ(x[j], carry));
        carry = words::both(x[j], carry);
    }
    r
}

impl Filters {
    // A step of every pin, from the raw levels and the filtered levels before it. Where no pin with
    // a filter differs no pin waits any more, and waits that are 0 already are left (docs/SPEED.md).
    pub fn step(mut self, raw: u64, level: u64) -> Filtered
        ensures { result ≡ filtered raw level self }
    {
        let differing = words::both(words::differ(raw, level), above_zero(self.filter));
        if differing != 0 {
            let on = words::both(differing, below(self.wait, self.filter));
            self.wait = counted(self.wait, on);
            return Filtered {
                filters: self,
                level: words::select(on, level, raw),
            };
        }
        if are_zero(self.wait) {
            return Filtered {
                filters: self,
                level: words::cut(raw),
            };
        }
        self.wait = [0; PLANES];
        Filtered {
            filters: self,
            level: words::cut(raw),
        }
    }

    // A write of the filter of pin p, which begins its wait afresh.
    pub fn write(mut self, p: u64, f: u64) -> Filters
        requires { p < 48 }
        ensures { result ≡ put_filter p f 0 self }
    {
        self.filter = put_number(self.filter, p, f);
        self.wait = put_number(self.wait, p, 0);
        self
    }
}

// All filters and waits at reset.
pub fn reset() -> Filters
    ensures { result ≡ reset_filters }
{
    Filters {
        filter: [0; PLANES],
        wait: [0; PLANES],
    }
}
