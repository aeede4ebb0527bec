// The passes over the lists of two logs, one over each list: whether they have the same actions, whether times are in time, and the smallest and
// the largest difference of their times.
ghost use Rattle.std.specs.Prelude.{◌≡◌, nat_le, nat_lt};
ghost use Rattle.values.specs.Within.{top_bit};
ghost use Rattle.model.specs.States.{last_time};
ghost use Rattle.local_log.specs.Formulas.{in_time, same_numbers};
ghost use Rattle.local_log.specs.Passes.{pass_of};

// [2.40] The clock's end.
pub(crate) const LAST: u64 = 1000000000000;

// No difference is above it.
const TWICE: u64 = 2000000000000;

// The top bit of 64.
const TOP: u64 = 9223372036854775808;

// [13.40] Whether two lists of actions are equal. There is no break: so the compiler takes several at a time.
// kept: (b) with `claims == actions` the notebook's row 306 is 1.13 of the reference, past its bar of 1.03; it is 0.84 with this loop
pub(crate) fn same_numbers(claims: &[u64], actions: &[u64]) -> bool
    ensures { result ≡ same_numbers claims.now actions.now }
{
    if claims.len() != actions.len() {
        return false;
    }
    let mut bits = 0;
    for (claim, action) in claims.iter().zip(actions) {
        bits |= *claim ^ *action;
    }
    bits == 0
}

// A number whose top bit is 0 just where a time is not past the clock's end: else the time has that bit, or the difference wraps.
fn fault(time: u64) -> u64
    ensures { nat_lt result top_bit ≡ nat_le time last_time }
{
    time | LAST.wrapping_sub(time)
}

// [13.30] Whether no time is past the clock's end; without a break, as above.
pub(crate) fn in_time(times: &[u64]) -> bool
    ensures { result ≡ in_time times.now }
{
    let mut bits = 0;
    for time in times {
        bits |= fault(*time);
    }
    bits < TOP
}

// The smallest and the largest difference of the times of two logs, over all places.
#[derive(Clone, Copy)]
pub(crate) struct Differences {
    pub(crate) smallest: u64,
    pub(crate) largest: u64,
}

// [13.30] [13.50] Nothing where a time is past the clock's end. A difference is the other time less the local one, with the clock's end added, so
// that none is below 0; the tolerance is reckoned once, after the pass.
pub(crate) fn find_differences(stamps: &[u64], times: &[u64]) -> Option<Differences>
    ensures { result ≡ pass_of stamps.now times.now }
{
    let mut smallest: u64 = TWICE;
    let mut largest: u64 = 0;
    for (stamp, time) in stamps.iter().zip(times) {
        if LAST < *stamp || LAST < *time {
            return None;
        }
        let difference = *time + LAST - *stamp;
        smallest = smallest.min(difference);
        largest = largest.max(difference);
    }
    Some(Differences { smallest, largest })
}
