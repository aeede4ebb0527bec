// The fields of a line, read at the start of a text. A reader of a field answers with its value and how many bytes it takes, or with `None`
// where it fails.
ghost use Rattle.std.specs.Prelude.{◌≡◌, ◌&&◌, [], ◌∷◌, ◌++◌, ◌≤◌, eqb, ltb};
ghost use Rattle.model.specs.Texts.{comma, newline, time_bound, number_bound};
ghost use Rattle.model.specs.Readings.{starts_with, number_at, word_at};

use crate::words::{COUNT, word};
use model::Parsed;

// [6.65] A time is below this.
pub const TIME_BOUND: u64 = 10000000000000;

// [6.65] Other numbers are below this.
pub const NUMBER_BOUND: u64 = 100000000;

// A zero that is not the only digit.
fn has_leading_zero(v: u64, i: usize) -> bool
    ensures { result ≡ (eqb v 0 && ltb 0 i) }
{
    v == 0 && 0 < i
}

// [6.60] [6.65] A number below `bound`, up to the byte `end`. The bound on the bound keeps the next digit's value from overflowing.
fn number_below(s: &[u8], bound: u64, end: u8) -> Option<Parsed<u64>>
    requires { bound ≤ 10000000000000 }
    ensures { result ≡ number_at bound end s.now }
{
    let mut value: u64 = 0;
    for (i, x) in s.iter().enumerate() {
        if *x == end {
            if i == 0 {
                return None;
            }
            return Some(Parsed { value, size: i + 1 });
        }
        if *x < b'0' || b'9' < *x || has_leading_zero(value, i) {
            return None;
        }
        let next = value * 10 + u64::from(*x - b'0');
        if bound <= next {
            return None;
        }
        value = next;
    }
    None
}

// [6.50] [6.65] A time, up to a comma.
pub fn time_at(s: &[u8]) -> Option<Parsed<u64>>
    ensures { result ≡ number_at time_bound comma s.now }
{
    number_below(s, TIME_BOUND, b',')
}

// [6.60] [6.65] Any other number, up to the byte `end`.
pub fn number_at(s: &[u8], end: u8) -> Option<Parsed<u64>>
    ensures { result ≡ number_at number_bound end s.now }
{
    number_below(s, NUMBER_BOUND, end)
}

// The line that s starts with is w. Whether a line ends there is asked first: that costs less than the word, and tells most of the others.
fn line_is(s: &[u8], w: &[u8]) -> bool
    ensures { result ≡ starts_with (w.now ++ (newline ∷ [])) s.now }
{
    if s.len() <= w.len() {
        return false;
    }
    s[w.len()] == b'\n' && s.starts_with(w)
}

// [6.70] The action whose word fills the line.
pub fn word_at(s: &[u8]) -> Option<Parsed<u64>>
    ensures { result ≡ word_at s.now }
{
    for action in 0..COUNT {
        let word = word(action);
        if line_is(s, word) {
            return Some(Parsed {
                value: action,
                size: word.len() + 1,
            });
        }
    }
    None
}
