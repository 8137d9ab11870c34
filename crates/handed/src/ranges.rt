// Each field that has a range: values at the end of their ranges, which stay, and then one field at
// a time outside its range, which an accepted event that changes nothing else stores as at reset.
use crate::show::{Lines, show_answer};
use crate::{event, with};
use board::Board;
use control::{Core, Watchdog};
use counter::Channel;
use filters::Filters;
use ports::{Pins, Virtuals};

// The first number that has no room in a word of the pins, and in a word of the outputs.
const PIN_WORDS: u64 = 1 << 48;

const OUTPUT_WORDS: u64 = 64;

// XS 15, K 7, TD 2, TE 2, all of TP, OP, OM 4, BP, UD, NR, IM 2 and IP.
const GREATEST_MODE: u32 = 0x0DF3FD7F;

// A part of a board that is handed in by itself.
trait Part {
    // Takes its place on a board.
    fn put(self, b: &mut Board);
    // Writes this part of a board, a field of its own for each.
    fn show(rt: &impl Print, b: &Board);
}

// Channel 0 stands for all.
impl Part for Channel {
    fn put(self, b: &mut Board) {
        b.channels[0] = self;
    }

    fn show(rt: &impl Print, b: &Board) {
        let _ = print!(rt; "{}", Lines(&b.channels[0]));
    }
}

impl Part for Pins {
    fn put(self, b: &mut Board) {
        b.pins = self;
    }

    fn show(rt: &impl Print, b: &Board) {
        let _ = print!(rt; "{}", Lines(&b.pins));
    }
}

impl Part for Virtuals {
    fn put(self, b: &mut Board) {
        b.virtuals = self;
    }

    fn show(rt: &impl Print, b: &Board) {
        let _ = print!(rt; "{}", Lines(&b.virtuals));
    }
}

impl Part for Core {
    fn put(self, b: &mut Board) {
        b.core = self;
    }

    fn show(rt: &impl Print, b: &Board) {
        let _ = print!(rt; "{}", Lines(&b.core));
    }
}

// What a read of the timestamp answers and stores of a part.
fn stored<P: Part>(rt: &impl Print, name: &str, part: P) {
    let mut b = board::reset();
    part.put(&mut b);
    let o = board::apply(b, event(28, 0, 0));
    show_answer(rt, name, o.answer);
    P::show(rt, &o.board);
}

// A channel with the greatest values of its ranges, and a queue that has lost captures. The route is
// 53, since 54 is its value at reset.
fn greatest_channel() -> Channel {
    Channel {
        mode: GREATEST_MODE,
        route: 53,
        mask: 511,
        kept: 15,
        carry: 1,
        reasons: [511; 16],
        held: 16,
        lost: 4,
        ..counter::reset()
    }
}

// The same with another mode word.
fn with_mode(m: u32) -> Channel {
    with(greatest_channel(), |c| c.mode = m)
}

fn show_modes(rt: &impl Print) {
    for (name, bit) in [
        ("bit 28 of the mode", 28),
        ("TE 3", 9),
        ("TD 3", 7),
        ("IM 3", 25),
        ("OM 5", 18),
    ] {
        stored(rt, name, with_mode(GREATEST_MODE + (1 << bit)));
    }
}

fn show_channels(rt: &impl Print) {
    let c = greatest_channel();
    stored(rt, "greatest channel", c);
    stored(rt, "route 55", with(c, |c| c.route = 55));
    stored(rt, "mask 512", with(c, |c| c.mask = 512));
    stored(rt, "kept 16", with(c, |c| c.kept = 16));
    stored(rt, "carry 2", with(c, |c| c.carry = 2));
    stored(rt, "carry -1", with(c, |c| c.carry = -1));
    stored(rt, "carry -2", with(c, |c| c.carry = -2));
    stored(rt, "held 17", with(c, |c| c.held = 17));
    stored(rt, "first reasons 512", with(c, |c| c.reasons[0] = 512));
    stored(rt, "last reasons 512", with(c, |c| c.reasons[15] = 512));
}

// Pins with the greatest words, and source number 6 for each. The safe enables are not all 1, as
// they are at reset.
fn greatest_pins() -> Pins {
    Pins {
        level: PIN_WORDS - 1,
        driven: PIN_WORDS - 1,
        own: PIN_WORDS - 1,
        safedata: PIN_WORDS - 1,
        safeenable: 1,
        source0: 0,
        source1: PIN_WORDS - 1,
        source2: PIN_WORDS - 1,
        filters: filters::reset(),
    }
}

fn show_all_pins(rt: &impl Print) {
    let x = greatest_pins();
    let outside = PIN_WORDS + 1;
    stored(rt, "greatest pins", x);
    stored(rt, "levels 2^48 + 1", with(x, |x| x.level = outside));
    stored(rt, "driven 2^48 + 1", with(x, |x| x.driven = outside));
    stored(rt, "own 2^48 + 1", with(x, |x| x.own = outside));
    stored(rt, "safe data 2^48 + 1", with(x, |x| x.safedata = outside));
    stored(
        rt,
        "safe enables 2^48 + 1",
        with(x, |x| x.safeenable = outside),
    );
}

// Pin 0 has source number 7, pins 1 to 3 have the numbers 1, 2 and 4.
fn show_sources(rt: &impl Print) {
    let x = Pins {
        source0: 3,
        source1: 5,
        source2: 9,
        ..greatest_pins()
    };
    stored(rt, "source 7 of pin 0", x);
    let y = with(x, |x| x.source0 = PIN_WORDS + 3);
    stored(rt, "first plane 2^48 + 3", y);
    let y = with(x, |x| x.source1 = PIN_WORDS + 5);
    stored(rt, "second plane 2^48 + 5", y);
    let y = with(x, |x| x.source2 = PIN_WORDS + 9);
    stored(rt, "third plane 2^48 + 9", y);
}

// Pins at reset with these filters.
fn filtered(filters: Filters) -> Pins {
    Pins {
        filters,
        ..ports::reset_pins()
    }
}

// Numbers in the outer planes alone.
fn outer(word: u64) -> [u64; filters::PLANES] {
    let mut planes = [0; filters::PLANES];
    planes[0] = word;
    planes[15] = word;
    planes
}

// Each plane by itself, beside filters and waits in the outer planes, for pins 0 and 2, and for pins
// 1 and 2.
fn show_planes(rt: &impl Print) {
    let all = [PIN_WORDS - 1; filters::PLANES];
    let x = filtered(Filters {
        filter: all,
        wait: all,
    });
    stored(rt, "greatest filters and waits", x);
    let x = filtered(Filters {
        filter: outer(5),
        wait: outer(6),
    });
    // Each turn changes plane j of a copy of x, so the planes themselves are not walked over.
    for j in 0..filters::PLANES {
        let outside = PIN_WORDS + 1;
        let y = with(x, |x| x.filters.filter[j] = outside);
        stored(rt, "a filter plane 2^48 + 1", y);
        let y = with(x, |x| x.filters.wait[j] = outside);
        stored(rt, "a wait plane 2^48 + 1", y);
    }
}

// Outputs with the greatest words.
fn show_outputs(rt: &impl Print) {
    let x = Virtuals {
        own: OUTPUT_WORDS - 1,
        safedata: OUTPUT_WORDS - 1,
        safeenable: 1,
    };
    let outside = OUTPUT_WORDS + 1;
    stored(rt, "greatest outputs", x);
    stored(rt, "data 65", with(x, |x| x.own = outside));
    stored(rt, "safe data 65", with(x, |x| x.safedata = outside));
    stored(rt, "safe enables 65", with(x, |x| x.safeenable = outside));
}

// The board's own part at the ends of its ranges; the watchdog is disabled, and all its stages have
// expired.
fn greatest_core() -> Core {
    let mut k = control::reset();
    k.clock.prescaler = 499_999_999;
    k.watchdog = Watchdog {
        intervals: [1; control::STAGES],
        rests: [0; control::STAGES],
        expired: 3,
        enabled: false,
    };
    k.safety.control = 7;
    k
}

fn show_cores(rt: &impl Print) {
    let k = greatest_core();
    stored(rt, "own part at the ends", k);
    stored(
        rt,
        "prescaler 500,000,000",
        with(k, |k| k.clock.prescaler = 500_000_000),
    );
    stored(
        rt,
        "interval 0 of stage 0",
        with(k, |k| k.watchdog.intervals[0] = 0),
    );
    stored(
        rt,
        "interval 0 of stage 1",
        with(k, |k| k.watchdog.intervals[1] = 0),
    );
    stored(
        rt,
        "interval 0 of stage 2",
        with(k, |k| k.watchdog.intervals[2] = 0),
    );
    stored(rt, "4 stages expired", with(k, |k| k.watchdog.expired = 4));
    stored(rt, "control 8", with(k, |k| k.safety.control = 8));
}

pub fn show_ranges(rt: &impl Print) {
    show_channels(rt);
    show_modes(rt);
    show_all_pins(rt);
    show_sources(rt);
    show_planes(rt);
    show_outputs(rt);
    show_cores(rt);
}
