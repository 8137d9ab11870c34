// The pins and the virtual outputs: their records, bit by bit in words, and what a step makes of
// them. A function that takes a pin's or an output's number asks that there is one.
#![tactic(auto)]

ghost use Rattle.std.specs.Prelude.{◌≡◌, ◌<◌, cond, ◌&&◌};
ghost use Rattle.words.specs.Bits.{bit, word, put_bit};
ghost use Rattle.words.specs.Range.{or_reset, all_good, all_or_reset};
ghost use Rattle.filters.specs.Filters.{put_filter};
ghost use Rattle.ports.specs.Setters.{with_filters};
ghost use Rattle.ports.specs.Pins.{number, pin_at, put_pin, sensed, is_source, sourced, driven, is_pin_word, pins_in_range, repaired_pins, reset_pins};
ghost use Rattle.ports.specs.Virtuals.{virtual_at, put_virtual, virtual_levels, is_output_word, virtuals_in_range, repaired_virtuals, reset_virtuals, routed};

use filters::{Filters, PLANES};

// The number of pins, and of virtual outputs.
pub const PINS: u64 = 48;

pub const VIRTUALS: u64 = 6;

// Source numbers are below this: the own register and six ExtOuts.
pub const SOURCES: u32 = 7;

// Filters are below this, 16 bits.
pub const FILTERS: u32 = 1 << 16;

// Words of the virtual outputs are below this, 6 bits, and every bit of such a word.
const OUTPUTS: u64 = 64;

const ALL_OUTPUTS: u64 = OUTPUTS - 1;

// Routes below this read a pin or a virtual output.
const ROUTED: u64 = PINS + VIRTUALS;

// One pin, but for its filter. Its level is the filtered one.
#[repr(C)]
#[derive(Clone, Copy)]
pub struct Pin {
    pub source: u32,
    pub own: bool,
    pub safedata: bool,
    pub safeenable: bool,
    pub level: bool,
    pub driven: bool,
}

// All pins: bit p of each word is pin p's. The three source words hold the three bits of each
// pin's source number. `level` is the filtered level of the last step.
#[repr(C)]
#[derive(Clone, Copy)]
pub struct Pins {
    pub level: u64,
    pub driven: u64,
    pub own: u64,
    pub safedata: u64,
    pub safeenable: u64,
    pub source0: u64,
    pub source1: u64,
    pub source2: u64,
    pub filters: Filters,
}

// One virtual output.
#[repr(C)]
#[derive(Clone, Copy)]
pub struct Virtual {
    pub own: bool,
    pub safedata: bool,
    pub safeenable: bool,
}

// All virtual outputs: bit o of each word is output o's.
#[repr(C)]
#[derive(Clone, Copy)]
pub struct Virtuals {
    pub own: u64,
    pub safedata: u64,
    pub safeenable: u64,
}

// A source number from its three bits.
fn number(a: bool, b: bool, c: bool) -> u32
    ensures { result ≡ number a b c }
{
    words::flags(a, b, c, false)
}

// What the sources give, pin by pin.
fn sources(own: u64, s0: u64, s1: u64, s2: u64, outs: u64) -> u64
    ensures { result ≡ word 48 (λ p. sourced (number (bit s0 p) (bit s1 p) (bit s2 p)) (bit own p) outs) }
{
    let low = words::select(
        s1,
        words::select(
            s0,
            words::all(words::bit(outs, 2)),
            words::all(words::bit(outs, 1)),
        ),
        words::select(s0, words::all(words::bit(outs, 0)), own),
    );
    let high = words::select(
        s1,
        words::select(s0, own, words::all(words::bit(outs, 5))),
        words::select(
            s0,
            words::all(words::bit(outs, 4)),
            words::all(words::bit(outs, 3)),
        ),
    );
    words::select(s2, high, low)
}

// `safedata` where safemode and the safe enable are 1, else `base`.
fn guarded(base: u64, safemode: bool, safedata: u64, safeenable: u64) -> u64
    ensures { result ≡ word 48 (λ p. cond (safemode && bit safeenable p) (bit safedata p) (bit base p)) }
{
    words::select(
        words::both(words::all(safemode), safeenable),
        safedata,
        base,
    )
}

// A plane of the source numbers without the pins whose number is 7.
fn mended(s: u64, s0: u64, s1: u64, s2: u64) -> u64
    ensures { result ≡ word 48 (λ p. bit s p && is_source (number (bit s0 p) (bit s1 p) (bit s2 p))) }
{
    words::without(s, words::both(words::both(s0, s1), s2))
}

// A word of the pins handed in.
fn pin_word(reset: u64, w: u64) -> u64
    ensures { result ≡ or_reset is_pin_word reset w }
{
    words::below(words::WORDS, reset, w)
}

// Planes handed in.
fn pin_words(x: [u64; PLANES]) -> [u64; PLANES]
    ensures { result ≡ all_or_reset is_pin_word 0 16 x }
{
    x.map(|w| pin_word(0, w))
}

// The bounds of a pin's and an output's number are clauses: what calls checks first is a number of an event.
impl Pins {
    // Pin p's own record.
    pub fn at(self, p: u64) -> Pin
        requires { p < 48 }
        ensures { result ≡ pin_at self p }
    {
        Pin {
            source: number(
                words::bit(self.source0, p),
                words::bit(self.source1, p),
                words::bit(self.source2, p),
            ),
            own: words::bit(self.own, p),
            safedata: words::bit(self.safedata, p),
            safeenable: words::bit(self.safeenable, p),
            level: words::bit(self.level, p),
            driven: words::bit(self.driven, p),
        }
    }

    // The pins with the record q in the place of pin p's.
    pub fn put(self, p: u64, q: Pin) -> Pins
        requires { p < 48 }
        ensures { result ≡ put_pin p q self }
    {
        let s = u64::from(q.source);
        Pins {
            level: words::put(self.level, p, q.level),
            driven: words::put(self.driven, p, q.driven),
            own: words::put(self.own, p, q.own),
            safedata: words::put(self.safedata, p, q.safedata),
            safeenable: words::put(self.safeenable, p, q.safeenable),
            source0: words::put(self.source0, p, words::bit(s, 0)),
            source1: words::put(self.source1, p, words::bit(s, 1)),
            source2: words::put(self.source2, p, words::bit(s, 2)),
            filters: self.filters,
        }
    }

    // A write of the filter of pin p, which begins its wait afresh.
    pub fn write_filter(mut self, p: u64, f: u32) -> Pins
        requires { p < 48 }
        ensures { result ≡ with_filters (put_filter p f 0 self.filters) self }
    {
        self.filters = self.filters.write(p, u64::from(f));
        self
    }

    // Part 2 of a step: the filtered levels follow the raw ones, which the external levels and what
    // the pins were driven with make.
    pub fn sense(mut self, w: u64) -> Pins
        ensures { result ≡ sensed w self }
    {
        let raw = words::either(w, self.driven);
        let next = self.filters.step(raw, self.level);
        self.filters = next.filters;
        self.level = next.level;
        self
    }

    // Part 6 of a step: what the pins are driven with; bit c of `outs` is ExtOut of channel c.
    pub fn drive(mut self, outs: u64, safemode: bool) -> Pins
        ensures { result ≡ driven outs safemode self }
    {
        let base = sources(self.own, self.source0, self.source1, self.source2, outs);
        self.driven = guarded(base, safemode, self.safedata, self.safeenable);
        self
    }

    // Every word, every source number and every plane is in its range.
    pub fn is_sound(self) -> bool
        ensures { result ≡ pins_in_range self }
    {
        (self.level < words::WORDS)
            & (self.driven < words::WORDS)
            & (self.own < words::WORDS)
            & (self.safedata < words::WORDS)
            & (self.safeenable < words::WORDS)
            & (self.source0 < words::WORDS)
            & (self.source1 < words::WORDS)
            & (self.source2 < words::WORDS)
            & (words::both(words::both(self.source0, self.source1), self.source2) == 0)
            & words::are_below(words::WORDS, &self.filters.filter)
            & words::are_below(words::WORDS, &self.filters.wait)
    }

    // Pins handed in: a word or a plane outside its range counts as at reset, then a source number 7
    // as 0.
    pub fn repair(self) -> Pins
        ensures { result ≡ repaired_pins self }
    {
        let s0 = pin_word(0, self.source0);
        let s1 = pin_word(0, self.source1);
        let s2 = pin_word(0, self.source2);
        Pins {
            level: pin_word(0, self.level),
            driven: pin_word(0, self.driven),
            own: pin_word(0, self.own),
            safedata: pin_word(0, self.safedata),
            safeenable: pin_word(words::all(true), self.safeenable),
            source0: mended(s0, s0, s1, s2),
            source1: mended(s1, s0, s1, s2),
            source2: mended(s2, s0, s1, s2),
            filters: Filters {
                filter: pin_words(self.filters.filter),
                wait: pin_words(self.filters.wait),
            },
        }
    }
}

// All pins at reset.
pub fn reset_pins() -> Pins
    ensures { result ≡ reset_pins }
{
    Pins {
        level: 0,
        driven: 0,
        own: 0,
        safedata: 0,
        safeenable: words::all(true),
        source0: 0,
        source1: 0,
        source2: 0,
        filters: filters::reset(),
    }
}

// A word of the outputs with bit o at t.
fn put_virtual_bit(w: u64, o: u64, t: bool) -> u64
    requires { o < 6 }
    ensures { result ≡ put_bit 6 o t w }
{
    words::put(w, o, t) % OUTPUTS
}

impl Virtuals {
    // Output o's own record.
    pub fn at(self, o: u64) -> Virtual
        requires { o < 6 }
        ensures { result ≡ virtual_at self o }
    {
        Virtual {
            own: words::bit(self.own, o),
            safedata: words::bit(self.safedata, o),
            safeenable: words::bit(self.safeenable, o),
        }
    }

    // The outputs with the record q in the place of output o's.
    pub fn put(self, o: u64, q: Virtual) -> Virtuals
        requires { o < 6 }
        ensures { result ≡ put_virtual o q self }
    {
        Virtuals {
            own: put_virtual_bit(self.own, o, q.own),
            safedata: put_virtual_bit(self.safedata, o, q.safedata),
            safeenable: put_virtual_bit(self.safeenable, o, q.safeenable),
        }
    }

    // The levels by a safemode: bit o is output o's.
    pub fn levels(self, safemode: bool) -> u64
        ensures { result ≡ virtual_levels safemode self }
    {
        guarded(self.own, safemode, self.safedata, self.safeenable) % OUTPUTS
    }

    // Every word is in its range.
    pub fn is_sound(self) -> bool
        ensures { result ≡ virtuals_in_range self }
    {
        (self.own < OUTPUTS) & (self.safedata < OUTPUTS) & (self.safeenable < OUTPUTS)
    }

    // Outputs handed in: a word outside its range counts as at reset.
    pub fn repair(self) -> Virtuals
        ensures { result ≡ repaired_virtuals self }
    {
        Virtuals {
            own: words::below(OUTPUTS, 0, self.own),
            safedata: words::below(OUTPUTS, 0, self.safedata),
            safeenable: words::below(OUTPUTS, ALL_OUTPUTS, self.safeenable),
        }
    }
}

// All virtual outputs at reset.
pub fn reset_virtuals() -> Virtuals
    ensures { result ≡ reset_virtuals }
{
    Virtuals {
        own: 0,
        safedata: 0,
        safeenable: ALL_OUTPUTS,
    }
}

// The level that an ExtIn route names.
pub fn route_level(levels: u64, virtuals: u64, r: u64) -> bool
    ensures { result ≡ routed levels virtuals r }
{
    if r < PINS {
        words::bit(levels, r)
    } else if r < ROUTED {
        words::bit(virtuals, r - PINS)
    } else {
        false
    }
}
