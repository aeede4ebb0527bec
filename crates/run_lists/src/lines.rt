// The lines of a list of calls: decimal numbers between commas. What a line leaves out at its end is 0.

// A number with one digit more; past 2^64 it has no meaning.
fn appended(number: u64, byte: u8) -> u64 {
    let digit = byte.wrapping_sub(b'0') as u64;
    number
        .checked_mul(10)
        .map_or(number, |tens| tens.wrapping_add(digit))
}

fn number_of(field: &[u8]) -> u64 {
    field.iter().fold(0, |number, byte| appended(number, *byte))
}

// The fields of a line, from `from` on. Its end counts as an empty field, which is 0.
pub(crate) fn fields<const N: usize>(line: &[u8], from: usize) -> [u64; N] {
    let mut numbers = [0; N];
    let fields = line.split(|byte| matches!(*byte, b',' | b'\n')).skip(from);
    for (number, field) in numbers.iter_mut().zip(fields) {
        *number = number_of(field);
    }
    numbers
}
