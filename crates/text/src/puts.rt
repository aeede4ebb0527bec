// Putting texts into a lent output. Each function puts as much of its text as the output has room for and answers how many
// bytes the whole text has, so that an empty output measures it. None needs a promise.
ghost use Rattle.std.specs.Prelude.{◌≡◌, ◌+◌, set};
ghost use Rattle.model.specs.Texts.{decimal, number_text, word_text};
ghost use Rattle.text.specs.Puts.{Put};

use crate::words::word;

// Stores x at place at + k, where `out` has such a place.
pub(crate) fn put_byte(out: &mut [u8], at: usize, k: usize, x: u8)
    ensures { out.new ≡ set out.old (at + k) x }
{
    if at < out.len() {
        if k < out.len() - at {
            out[at + k] = x;
        }
    }
}

// A text as it is.
pub fn put_text(out: &mut [u8], at: usize, text: &[u8]) -> usize
    ensures { Put out.old out.new at text.now result }
{
    for (i, x) in text.iter().enumerate() {
        put_byte(out, at, i, *x);
    }
    text.len()
}

// [6.60]
pub(crate) fn put_digits(out: &mut [u8], at: usize, v: u64) -> usize
    ensures { Put out.old out.new at (decimal v) result }
{
    if v < 10 {
        put_byte(out, at, 0, 48 + (v as u8));
        return 1;
    }
    let k = put_digits(out, at, v / 10);
    put_byte(out, at, k, 48 + ((v % 10) as u8));
    k + 1
}

// [6.60] A number and the byte that ends it.
pub fn put_number(out: &mut [u8], at: usize, v: u64, end: u8) -> usize
    ensures { Put out.old out.new at (number_text end v) result }
{
    let k = put_digits(out, at, v);
    put_byte(out, at, k, end);
    k + 1
}

// [6.70] The word of an action and the end of its line.
pub fn put_word(out: &mut [u8], at: usize, action: u64) -> usize
    ensures { Put out.old out.new at (word_text action) result }
{
    let k = put_text(out, at, word(action));
    put_byte(out, at, k, b'\n');
    k + 1
}
