// Lines of numbers: reading one at the start of a text, and putting one into a lent output.
ghost use Rattle.std.specs.Prelude.{◌≡◌, ◌+◌, ◌*◌, ◌≤◌, length, set, take};
ghost use Rattle.model.specs.Texts.{numbers_text};
ghost use Rattle.model.specs.Readings.{numbers_at};
ghost use Rattle.text.specs.Puts.{most_numbers, Put};

use crate::fields::number_at;
use crate::puts::{put_byte, put_digits};
use model::{Fault, Parsed, Refusal};

// So many numbers at most follow the first of a line that is put: then no sum of places overflows.
const MOST_NUMBERS: usize = 4294967295;

// The numbers with one more; past the fourth place there is none.
fn with_number(mut numbers: [u64; 4], i: usize, v: u64) -> [u64; 4]
    ensures { result ≡ set numbers i v }
{
    if i < 4 {
        numbers[i] = v;
    }
    numbers
}

// [6.30] [6.80] [4.14] [21.10] [21.60] The line of `more` numbers that end with a comma and one that ends with a newline.
pub fn numbers_at(s: &[u8], more: usize, line: u64) -> Result<Parsed<[u64; 4]>, Fault>
    ensures { result ≡ numbers_at line more s.now }
{
    let mut numbers: [u64; 4] = [0; 4];
    let mut at: usize = 0;
    for i in 0..more {
        let Some(Parsed { value, size }) = number_at(&s[at..], b',') else {
            return Err(Refusal::BadLine.at(line));
        };
        let next = with_number(numbers, i, value);
        numbers = next;
        at += size;
    }
    let Some(Parsed { value, size }) = number_at(&s[at..], b'\n') else {
        return Err(Refusal::BadLine.at(line));
    };
    let all = with_number(numbers, more, value);
    Ok(Parsed {
        value: all,
        size: at + size,
    })
}

// [6.30] [7.25] Puts a line of numbers, `first` and then the others: a number has at most 20 digits, and a byte ends it. The place is a u32
// so that no sum of places overflows. The digits are put by this loop itself, since a call of `put_number` for each was slower.
pub fn put_numbers(out: &mut [u8], at: u32, first: u64, rest: &[u64]) -> usize
    ensures put { Put out.old out.new at (numbers_text first (take most_numbers rest.now)) result }
    ensures upper_bound { result ≤ 21 + 21 * length rest.now }
{
    let start = at as usize;
    let count = rest.len().min(MOST_NUMBERS);
    let mut size = put_digits(out, start, first);
    for number in &rest[..count] {
        put_byte(out, start, size, b',');
        size += 1;
        size += put_digits(out, start + size, *number);
    }
    put_byte(out, start, size, b'\n');
    size + 1
}
