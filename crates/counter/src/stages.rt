// What the stages of a channel's step ask of the mode word and of the samples, in document 01's order.
ghost use Rattle.std.specs.Prelude.{◌≡◌};
ghost use Rattle.counter.specs.Preload.{allowed, flipped, armed_by_load};
ghost use Rattle.counter.specs.Advance.{armed_by_edge, counts, edge_reasons, masked, asked, allowed_now, shown, output, is_match};

use crate::samples::{extin, index, index_falls, index_rises};
use crate::{REASONS, mode};

// Armed after the index's edge.
pub fn armed_by_edge(m: u32, armed: bool, kept: u32, now: u32) -> bool
    ensures { result ≡ armed_by_edge m armed kept now }
{
    ((mode::te(m) == 1) & index_rises(kept, now))
        | (armed & !((mode::td(m) == 1) & index_falls(kept, now)))
}

// The difference is counted.
pub fn counts(m: u32, armed: bool, now: u32) -> bool
    ensures { result ≡ counts m armed now }
{
    armed & !((mode::im(m) == 1) & !extin(now))
}

// Reason bits 3 to 6, from the lines that fell and those that rose.
pub fn edge_reasons(kept: u32, now: u32) -> u32
    ensures { result ≡ edge_reasons kept now }
{
    let fell = kept ^ (kept & now);
    let rose = now ^ (now & kept);
    8 * words::flags(index(fell), index(rose), extin(fell), extin(rose))
}

// The reasons whose mask bit is 1.
pub fn masked(mask: u32, reasons: u32) -> u32
    ensures { result ≡ masked mask reasons }
{
    (mask & reasons) % REASONS
}

// Reason bit 0 or 1, a match.
pub fn is_match(reasons: u32) -> bool
    ensures { result ≡ is_match reasons }
{
    reasons % 4 != 0
}

// An event of TP holds: 11 to 15 are reasons 0 to 4, and 16 is the index being high.
pub fn asked(m: u32, reasons: u32, high: bool) -> bool
    ensures { result ≡ asked m reasons high }
{
    ((mode::tp_reasons(m) & reasons) % 32 != 0) | (mode::tp(m, 16) & high)
}

// NR allows a preload at this count.
pub fn allowed(m: u32, count: u32) -> bool
    ensures { result ≡ allowed m count }
{
    !mode::nr(m) | (count == 0)
}

// IM and NR allow a preload in a step.
pub fn allowed_now(m: u32, count: u32, now: u32) -> bool
    ensures { result ≡ allowed_now m count now }
{
    (!(mode::im(m) == 2) | extin(now)) & allowed(m, count)
}

// The selection after a preload.
pub fn flipped(m: u32, second: bool) -> bool
    ensures { result ≡ flipped m second }
{
    second != mode::bp(m)
}

// Armed after a preload.
pub fn armed_by_load(m: u32, armed: bool) -> bool
    ensures { result ≡ armed_by_load m armed }
{
    armed | (mode::te(m) == 2)
}

// ExtOut by OM, before OP.
fn shown(om: u32, pulse: bool, second: bool, count: u32) -> bool
    ensures { result ≡ shown om pulse second count }
{
    match om {
        1 => pulse,
        2 => second,
        3 => count != 0,
        4 => count == 0,
        _ => false,
    }
}

// ExtOut by OM and OP.
pub fn output(m: u32, pulse: bool, second: bool, count: u32) -> bool
    ensures { result ≡ output m pulse second count }
{
    shown(mode::om(m), pulse, second, count) != mode::op(m)
}
