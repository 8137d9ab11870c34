// What a text is read with: the bytes between its parts, those before a mark, numbers. Every function
// takes every text there is.
#![tactic(auto)]

ghost use Rattle.std.specs.Prelude.{◌≡◌, ◌<◌, ◌≤◌, length, take};
ghost use Rattle.scan.specs.Parts.{between, before};
ghost use Rattle.scan.specs.Numbers.{worth, extended, figure, number};

// What the parts of a text are, and so what stands between them: between words a space or a byte
// below it, between lines a line feed.
#[derive(Clone, Copy)]
pub enum Between {
    Words,
    Lines,
}

impl Between {
    // Whether b separates such parts.
    pub fn splits(self, b: u8) -> bool
        ensures { result ≡ between self b }
    {
        match self {
            Between::Words => b < 33,
            Between::Lines => b == b'\n',
        }
    }
}

// How many bytes stand before the first m.
pub fn before(text: &[u8], m: u8) -> usize
    ensures within { result ≤ length text.now }
    ensures front { take result text.now ≡ before m text.now }
{
    text.iter().position(|&b| b == m).unwrap_or(text.len())
}

// What a digit is worth, and 16 for a byte that is none: `figure` promises a number for every base,
// and above 16 such a byte counts.
fn worth(b: u8) -> u64
    ensures { result ≡ worth b }
{
    (b as char).to_digit(16).map_or(16, u64::from)
}

// A number with one more digit behind it.
fn extended(base: u64, n: Option<u64>, b: u8) -> Option<u64>
    requires { 0 < base }
    ensures { result ≡ extended base n b }
{
    let digit = worth(b);
    if digit >= base {
        return None;
    }
    n?.checked_mul(base)?.checked_add(digit)
}

// The number of some digits of a base.
pub fn figure(base: u64, digits: &[u8]) -> Option<u64>
    requires { 0 < base }
    ensures { result ≡ figure base digits.now }
{
    if digits.is_empty() {
        return None;
    }
    digits.iter().fold(Some(0), |n, &b| extended(base, n, b))
}

// The number that a text is: decimal digits, or hexadecimal ones behind 0x.
pub fn number(text: &[u8]) -> Option<u64>
    ensures { result ≡ number text.now }
{
    match text.strip_prefix(b"0x") {
        Some(digits) => figure(16, digits),
        None => figure(10, text),
    }
}
