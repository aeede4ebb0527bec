// Which n, b, c and values of a stand, the a of a process, and 96 values of a out of a list. The values are lent, wherever they lie: a copy
// of them for each step costs more than the look at them.
ghost use Rattle.std.specs.Prelude.{◌≡◌, ◌≤◌, ◌&&◌, nat_le, nat_lt};
ghost use Rattle.model.specs.States.{parameters_of, count_stands, parameters_stand, limit_at, limits_in, equal_limits};
ghost use Rattle.values.specs.Within.{top_bit, within};

use crate::are_zero;
use std::num::wrapping_sub_u64;

// [2.20]
pub fn count_stands(n: u64) -> bool
    ensures { result ≡ count_stands n }
{
    (1..=96).contains(&n)
}

// [2.90] The a of a process.
#[tactic(auto, unfolding(model::specs::States::limit_at))]
pub fn limit_of(a: &[u64], process: u64) -> u64
    ensures { result ≡ limit_at a.now process }
{
    a.get(process.saturating_sub(1) as usize)
        .copied()
        .unwrap_or(0)
}

// A number whose top bit is 0 just where an a is at least 1 and below b: else the first difference wraps, or the second does.
fn faults(x: u64, b: u64) -> u64
    requires le_b { 2 ≤ b }
    requires b_bound { b ≤ 10000000 }
    ensures { nat_lt result top_bit ≡ (nat_le 1 x && nat_lt x b) }
{
    let less = wrapping_sub_u64(x, 1);
    less | wrapping_sub_u64(b - 2, less)
}

// The bits of them all together. There is no break: so the compiler takes several at a time.
fn all_faults(a: &[u64], b: u64) -> u64
    requires le_b { 2 ≤ b }
    requires b_bound { b ≤ 10000000 }
    ensures { nat_lt result top_bit ≡ within b a.now }
{
    let mut bits: u64 = 0;
    for limit in a {
        bits |= faults(*limit, b);
    }
    bits
}

// [2.20] [2.30] [2.32] All that a sound state asks of its parameters.
pub fn parameters_stand(n: u64, b: u64, c: u64, a: &[u64]) -> bool
    ensures { result ≡ parameters_stand (parameters_of n b c a.now) }
{
    if !count_stands(n) {
        return false;
    }
    if a.len() != 96 {
        return false;
    }
    // there is a process, and its a is not below such a b
    if b < 2 {
        return false;
    }
    if c < b {
        return false;
    }
    if 10000000 < c {
        return false;
    }
    let count = n as usize;
    if 9223372036854775808 <= all_faults(&a[..count], b) {
        return false;
    }
    are_zero(&a[count..])
}

// [9.45] 96 values of a, out of a list of any length.
pub fn limits_in(list: &[u64]) -> [u64; 96]
    ensures { result ≡ limits_in list.now }
{
    let mut a = [0; 96];
    let count = list.len().min(96);
    a[..count].copy_from_slice(&list[..count]);
    a
}

// [6.45] The same a for each of n processes.
pub fn equal_limits(n: u64, limit: u64) -> [u64; 96]
    ensures { result ≡ equal_limits n limit }
{
    let mut a = [0; 96];
    let count = n.min(96) as usize;
    a[..count].fill(limit);
    a
}
