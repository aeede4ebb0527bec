// A local log, which a process keeps by a clock of its own, held against another log: whether both have the same actions, and the least shift
// of the local times that brings each near the other. One pass over each list; there is no search for the shift.
#![tactic(auto)]

mod passes;

ghost use Rattle.std.specs.Prelude.{◌≡◌, ◌≤◌, pos};
ghost use Rattle.std.proofs.Math.IntN.{sub_ℕ};
ghost use Rattle.model.specs.States.{last_time};
ghost use Rattle.local_log.specs.Comparisons.{entries_of, most_shift, comparison, Compared};
ghost use Rattle.local_log.specs.Formulas.{compared_of};
ghost use Rattle.local_log.specs.Passes.{twice, told, bounded_of};

use crate::passes::{Differences, LAST, find_differences, in_time, same_numbers};
use model::Refusal;

// [13.30] What d and e are at most.
const MOST: u64 = 1000000;

// [13.60] What a comparison answers: the third number has a sign. Its fields lie as in C, for `funnelfawn`.
#[repr(C)]
#[derive(Clone, Copy)]
pub struct Comparison {
    pub code: u64,
    pub process: u64,
    pub shift: i64,
}

// [13.60] The shift that was found, or the refusal by its code.
impl From<Result<i64, Refusal>> for Comparison {
    ghost from_gives = { λ found answer. answer ≡ told found };

    fn from(found: Result<i64, Refusal>) -> Comparison {
        let (code, shift) = match found {
            Ok(shift) => (0, shift),
            Err(refusal) => (refusal.code(), 0),
        };
        Comparison {
            code,
            process: 0,
            shift,
        }
    }
}

// A number less the clock's end, LAST, with its sign.
fn shift_of(number: u64) -> i64
    requires { number ≤ twice }
    ensures { result ≡ sub_ℕ number last_time }
{
    let signed = number as i64;
    signed - 1000000000000
}

// [13.50] [13.60] The least shift that serves where these are the differences of all places, or the refusal where none does.
fn bounded(found: Differences, d: u64, e: u64) -> Result<i64, Refusal>
    requires d_le_most_shift { d ≤ most_shift }
    requires e_le_most_shift { e ≤ most_shift }
    requires smallest_le_twice { found.smallest ≤ twice }
    ensures { told result ≡ bounded_of found.smallest found.largest d e }
{
    let low = (LAST - d + e).max(found.largest) - e;
    let high = (LAST + d).min(found.smallest + e);
    if high < low {
        return Err(Refusal::NoShift);
    }
    let shift = shift_of(low);
    Ok(shift)
}

// [13.20] [13.60] The least shift that serves, or why there is none. Where the actions are not the same, only the bounds of the times are left to
// look at.
fn shift_between(
    stamps: &[u64],
    claims: &[u64],
    times: &[u64],
    actions: &[u64],
    d: u64,
    e: u64,
) -> Result<i64, Refusal>
    ensures { Compared d e (entries_of stamps.now claims.now) (entries_of times.now actions.now) (told result) }
{
    if MOST < d || MOST < e {
        return Err(Refusal::PastBounds);
    }
    let local_count = stamps.len().min(claims.len());
    let count = times.len().min(actions.len());
    let local = &stamps[..local_count];
    let other = &times[..count];
    if same_numbers(&claims[..local_count], &actions[..count]) {
        let found = find_differences(local, other).ok_or(Refusal::PastBounds)?;
        return bounded(found, d, e);
    }
    if in_time(local) && in_time(other) {
        Err(Refusal::OtherActions)
    } else {
        Err(Refusal::PastBounds)
    }
}

// [13.20] [13.60] [13.90] [21.110] Holds a local log against another log. The first contract says what the answer means, the second how it is worked
// out.
pub fn compare(
    stamps: &[u64],
    claims: &[u64],
    times: &[u64],
    actions: &[u64],
    d: u64,
    e: u64,
) -> Comparison
    ensures means { Compared d e (entries_of stamps.now claims.now)
        (entries_of times.now actions.now) result }
    ensures equals { result ≡ compared_of d e (entries_of stamps.now claims.now)
        (entries_of times.now actions.now) }
{
    Comparison::from(shift_between(stamps, claims, times, actions, d, e))
}
