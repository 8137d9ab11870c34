// The arrays of a capture queue.
ghost use Rattle.std.specs.Prelude.{◌≡◌, ◌<◌, slice_set};
ghost use Rattle.words.specs.Range.{all_or_reset};
ghost use Rattle.counter.specs.Queue.{shifted};
ghost use Rattle.counter.specs.Repair.{is_reasons};

use crate::{QUEUE, REASONS};

// The captures that a queue holds, as its length is counted.
pub const ROOM: u32 = QUEUE as u32;

// Lengths are below this.
pub const LENGTHS: u32 = ROOM + 1;

// The last place of an array.
const LAST: usize = QUEUE - 1;

// An array with x at a place. A choice at each place, since an index that varies would keep the
// board of a loop in memory (docs/SPEED.md).
pub fn put(a: [u32; QUEUE], at: u32, x: u32) -> [u32; QUEUE]
    requires { at < 16 }
    ensures { result ≡ slice_set a at x }
{
    std::array::from_fn(|i| if i as u32 == at { x } else { a[i] })
}

// An array without its first element, a 0 at the end.
pub fn shift(a: [u32; QUEUE]) -> [u32; QUEUE]
    ensures { result ≡ shifted a }
{
    let mut b = [0; QUEUE];
    b[..LAST].copy_from_slice(&a[1..]);
    b
}

// Every place of the reasons' array in its range. It is made place by place: `map` hands each element
// on by way of an iterator, and an event on a board out of range takes twice the time by it
// (docs/SPEED.md).
pub fn in_reasons(a: [u32; QUEUE]) -> [u32; QUEUE]
    ensures { result ≡ all_or_reset is_reasons 0 16 a }
{
    std::array::from_fn(|i| words::below(REASONS, 0, a[i]))
}
