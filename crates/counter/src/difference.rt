// The difference that a step adds to the count: -1, 0 or +1.
ghost use Rattle.std.specs.Prelude.{◌≡◌, ◌≤◌, pos, Some, None, if◌then◌else◌};
ghost use Rattle.std.specs.Int.Signed.{mag};
ghost use Rattle.words.specs.Range.{or_reset};
ghost use Rattle.counter.specs.Quadrature.{quadrature, both_changed, transition, keeps};
ghost use Rattle.counter.specs.Difference.{turned, reversed, moved, carry_of};
ghost use Rattle.counter.specs.Repair.{is_carry};

use crate::samples::{line_a, line_b};

// The sixteen transitions of the lines (A, B), at 4 times the earlier A + 2 B and the present one;
// none where both lines changed.
const TRANSITIONS: [Option<i32>; 16] = [
    Some(0), // 00 to 00
    Some(1), // 00 to 10
    Some(-1), // 00 to 01
    None, // 00 to 11
    Some(-1), // 10 to 00
    Some(0), // 10 to 10
    None, // 10 to 01
    Some(1), // 10 to 11
    Some(1), // 01 to 00
    None, // 01 to 10
    Some(0), // 01 to 01
    Some(-1), // 01 to 11
    None, // 11 to 00
    Some(-1), // 11 to 10
    Some(1), // 11 to 01
    Some(0), // 11 to 11
];

// The transition between the lines of two samples.
fn transition(before: u32, now: u32) -> Option<i32>
    ensures { result ≡ transition before now }
{
    let at = (before % 4 * 4 + now % 4) as usize;
    TRANSITIONS[at]
}

// The clock K keeps the transition: 7 all, 6 those where A changes, 5 those between 00 and 10.
fn keeps(k: u32, before: u32, now: u32) -> bool
    ensures { result ≡ keeps k before now }
{
    (k == 7)
        | ((k == 6) & (line_a(before) != line_a(now)))
        | ((k == 5) & !line_b(before) & !line_b(now))
}

// What the quadrature clocks give: nothing where both lines changed, an error.
fn quadrature(k: u32, before: u32, now: u32) -> Option<i32>
    ensures { result ≡ (if both_changed before now then None else Some (if keeps k before now then quadrature before now else pos 0)) }
{
    let d = transition(before, now)?;
    Some(gate(keeps(k, before, now), d))
}

// What the clock K gives, before UD and the gates: the difference, or none where it sees an error.
pub fn clock(k: u32, before: u32, now: u32, rises: bool, carried: i32) -> Option<i32>
    ensures { result ≡ turned k before now rises carried }
{
    match k {
        0 => Some(i32::from(!line_a(before) & line_a(now))),
        1 => Some(i32::from(line_a(before) & !line_a(now))),
        2 => Some(i32::from(rises)),
        3 => Some(1),
        4 => Some(carried.signum()),
        _ => quadrature(k, before, now),
    }
}

// `d` where `on`, else 0, a choice that its callers go on from: in its place it doubles their paths.
pub fn gate(on: bool, d: i32) -> i32
    ensures { result ≡ (if on then d else pos 0) }
{
    if on { d } else { 0 }
}

// UD reverses the sign.
pub fn reversed(ud: bool, d: i32) -> i32
    requires { mag d ≤ 1 }
    ensures { result ≡ reversed ud d }
{
    if ud { -d } else { d }
}

// The count after the difference.
pub fn moved(n: u32, d: i32) -> u32
    ensures { result ≡ moved n d }
{
    if 0 < d {
        n.wrapping_add(1)
    } else if d < 0 {
        n.wrapping_sub(1)
    } else {
        n
    }
}

// The carry that the move of `n` by `d` makes.
pub fn carry_of(n: u32, d: i32) -> i32
    ensures { result ≡ carry_of n d }
{
    let next = moved(n, d);
    if 0 < d {
        i32::from(next < n)
    } else {
        -i32::from(n < next)
    }
}

// A carry in its range.
pub fn is_carry(d: i32) -> bool
    ensures { result ≡ is_carry d }
{
    (-1..=1).contains(&d)
}

// A carry handed in: outside -1 to +1 it counts as 0.
pub fn in_carry(d: i32) -> i32
    ensures { result ≡ or_reset is_carry (pos 0) d }
{
    if is_carry(d) { d } else { 0 }
}
