// The names of the text form, as docs/TEXT.md lists them: those of the kinds, with the fields that
// each has, and those of a step's inputs.
#![tactic(auto)]

ghost use Rattle.std.specs.Prelude.{◌≡◌, ◌∷◌, ◌++◌, ◌+◌, ◌≤◌, ◌<◌, length};
ghost use Rattle.arrayvec.specs.ArrayVec.{array_vec_len};
ghost use Rattle.buffers.specs.Pieces.{put};
ghost use Rattle.kinds.specs.Names.{kinds, names, name, raw_name, kind_in, kind_of, fields_of, letter, input_at, input_of, input_name, pin_name};

use arrayvec::ArrayVec;

// What the first word of a line names: a kind, or the six fields of `raw`. A kind is its number in this
// crate, which stands below `calls`, and in the definitions of the text form.
#[derive(Clone, Copy)]
pub enum Named {
    Kind(u8),
    Raw,
}

// An input of a step that a word names: bit i of V, or a pin, bit i of W.
#[derive(Clone, Copy)]
pub enum Input {
    Line(u64),
    Pin(u64),
}

// The channels and the pins whose lines have names.
const CHANNELS: u64 = 6;

const PINS: u64 = 48;

// The letters of a channel's inputs A, B and IX.
const LETTERS: [u8; 3] = *b"abx";

// How many kinds there are.
const KINDS: usize = 31;

// The names of the kinds, 0 first.
const NAMES: [&str; KINDS] = [
    "step",
    "mode_write",
    "preload_write",
    "compare_write",
    "route_write",
    "mask_write",
    "start",
    "halt",
    "snapshot",
    "soft_preload",
    "count_read",
    "snapshot_read",
    "channel_status",
    "source_write",
    "pin_data_write",
    "pin_safe_data_write",
    "pin_safe_enable_write",
    "pin_level_read",
    "virtual_data_write",
    "virtual_safe_data_write",
    "virtual_safe_enable_write",
    "virtual_data_read",
    "control_write",
    "swe_write",
    "safemode_clear",
    "watchdog_interval_write",
    "watchdog_enable_write",
    "watchdog_kick",
    "timestamp_read",
    "board_status",
    "pin_filter_write",
];

// The word before six fields, which is the name of no kind.
const RAW: &str = "raw";

// What is left where a selector comes last. It may be left out, and is then 0.
pub const SELECTOR_LAST: u32 = 0o3;

// The fields that follow the name of each kind, the first in the lowest octal digit: 1 kind,
// 2 member, 3 selector, 4 spare, 5 V, 6 W. A number and no slice of fields: what is left of them is
// part of a line that is read, whose contracts compare it by value, and the definitions of the
// printed and of the read text (`fields_of`, `ReadsBack`) speak of the digits.
const FIELDS: [u32; KINDS] = [
    0, // 0 step
    0o52, // 1 mode_write
    0o532, // 2 preload_write
    0o532, // 3 compare_write
    0o52, // 4 route_write
    0o52, // 5 mask_write
    0o2, // 6 start
    0o2, // 7 halt
    0o2, // 8 snapshot
    0o2, // 9 soft_preload
    0o2, // 10 count_read
    0o2, // 11 snapshot_read
    0o2, // 12 channel_status
    0o52, // 13 source_write
    0o52, // 14 pin_data_write
    0o52, // 15 pin_safe_data_write
    0o52, // 16 pin_safe_enable_write
    0o2, // 17 pin_level_read
    0o52, // 18 virtual_data_write
    0o52, // 19 virtual_safe_data_write
    0o52, // 20 virtual_safe_enable_write
    0o2, // 21 virtual_data_read
    0o5, // 22 control_write
    0o5, // 23 swe_write
    0, // 24 safemode_clear
    0o35, // 25 watchdog_interval_write
    0o5, // 26 watchdog_enable_write
    0, // 27 watchdog_kick
    0, // 28 timestamp_read
    0, // 29 board_status
    0o52, // 30 pin_filter_write
];

// The fields that follow `raw`, all six.
pub const RAW_FIELDS: u32 = 0o654321;

// The kind that has a word for its name.
fn by_name(w: &[u8]) -> Option<Named>
    ensures { result ≡ kind_in w.now names 0 }
{
    let k = NAMES.iter().position(|name| w == name.as_bytes())?;
    Some(Named::Kind(k as u8))
}

// What the first word of a line names.
pub fn kind_of(w: &[u8]) -> Option<Named>
    ensures { result ≡ kind_of w.now }
{
    match scan::number(w) {
        Some(n) if n < KINDS as u64 => Some(Named::Kind(n as u8)),
        Some(_) => None,
        None if w == RAW.as_bytes() => Some(Named::Raw),
        None => by_name(w),
    }
}

// The name of kind k.
pub fn put_name<const N: usize>(line: &mut ArrayVec<u8, N>, k: u8)
    requires kind { k < kinds }
    requires room { array_vec_len line.old + 25 ≤ N }
    ensures within { array_vec_len line.new ≤ array_vec_len line.old + 25 }
    ensures wrote { line.new.items ≡ line.old.items ++ name k }
{
    text::put_bytes(line, NAMES[k as usize].as_bytes());
}

// The word `raw`, from place `at` of a lent buffer on, and the place behind it.
pub fn put_raw_name(out: &mut [u8], at: usize) -> usize
    requires { at + 3 ≤ length out.old }
    ensures within { result ≤ at + 3 }
    ensures wrote { (result ≡ at + length raw_name) × (out.new ≡ put out.old at raw_name) }
{
    buffers::copy_to(RAW.as_bytes(), out, at);
    at + RAW.len()
}

// The fields that follow the name of kind k.
pub fn fields_of(k: u8) -> u32
    ensures { result ≡ fields_of k }
{
    FIELDS.get(k as usize).copied().unwrap_or(0)
}

// Which input of a channel a letter stands for: A, B or IX.
fn letter(b: u8) -> Option<u64>
    ensures { result ≡ letter b }
{
    match b {
        b'a' => Some(0),
        b'b' => Some(1),
        b'x' => Some(2),
        _ => None,
    }
}

// The input that a letter and a number name.
fn input_at(b: u8, n: u64) -> Option<Input>
    ensures { result ≡ input_at b n }
{
    match letter(b) {
        Some(which) if n < CHANNELS => Some(Input::Line(3 * n + which)),
        None if b == b'p' && n < PINS => Some(Input::Pin(n)),
        _ => None,
    }
}

// The input that a word names.
pub fn input_of(w: &[u8]) -> Option<Input>
    ensures { result ≡ input_of w.now }
{
    let (&b, digits) = w.split_first()?;
    input_at(b, scan::figure(10, digits)?)
}

// A space and the name of the input at bit i of V.
#[tactic(auto, using(crate::proofs::Names::input_letter), unfolding(crate::specs::Names::input_name))]
pub fn put_input<const N: usize>(line: &mut ArrayVec<u8, N>, i: u64)
    requires input { i < 18 }
    requires room { array_vec_len line.old + 3 ≤ N }
    ensures within { array_vec_len line.new ≤ array_vec_len line.old + 3 }
    ensures wrote { line.new.items ≡ line.old.items ++ 32 ∷ input_name i }
{
    line.push(b' ');
    line.push(LETTERS[(i % 3) as usize]);
    line.push(b'0' + (i / 3) as u8);
}

// A space and the name of pin i.
#[tactic(auto, unfolding(crate::specs::Names::pin_name))]
pub fn put_pin<const N: usize>(line: &mut ArrayVec<u8, N>, i: u64)
    requires pin { i < 48 }
    requires room { array_vec_len line.old + 4 ≤ N }
    ensures within { array_vec_len line.new ≤ array_vec_len line.old + 4 }
    ensures wrote { line.new.items ≡ line.old.items ++ 32 ∷ pin_name i }
{
    line.push(b' ');
    line.push(b'p');
    if i < 10 {
        line.push(b'0' + i as u8);
    } else {
        line.push(b'0' + (i / 10) as u8);
        line.push(b'0' + (i % 10) as u8);
    }
}
