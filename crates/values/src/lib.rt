// Small values that the step machine and the recordings share: parameters and which of them stand, the a of a process, a fresh state, and
// the bits of many numbers.
#![tactic(auto)]

pub mod fresh;
pub mod limits;

ghost use Rattle.std.specs.Prelude.{◌≡◌, length, take};
ghost use Rattle.model.specs.Readings.{over};
ghost use Rattle.model.specs.States.{no_parameters};
ghost use Rattle.values.specs.Bits.{bits_of, are_zero};

use model::Parameters;

// [4.100] [6.140] The parameters of what is refused: all of them 0.
pub fn no_parameters() -> Parameters
    ensures { result ≡ no_parameters }
{
    Parameters {
        n: 0,
        b: 0,
        c: 0,
        a: [0; 96],
    }
}

// The bits of all numbers together. It is 0 just where they are all 0, and less than none of them. There is no break: so the compiler takes
// several at a time.
pub fn bits_of(numbers: &[u64]) -> u64
    ensures { result ≡ bits_of numbers.now }
{
    let mut bits: u64 = 0;
    for number in numbers {
        bits |= *number;
    }
    bits
}

pub fn are_zero(numbers: &[u64]) -> bool
    ensures { result ≡ are_zero numbers.now }
{
    bits_of(numbers) == 0
}

// The numbers of a list over those of another, from the first on, as many as both have. A loop, since std's `copy_from_slice` calls memmove
// where it does not know the two lists apart, and the archive for C is to need no more names. Not set into its callers: that saves 300 bytes.
#[inline(never)]
pub fn copy(to: &mut [u64], from: &[u64])
    ensures { to.new ≡ over (take (length to.old) from.now) to.old }
{
    let end = to.len().min(from.len());
    for i in 0..end {
        to[i] = from[i];
    }
}
