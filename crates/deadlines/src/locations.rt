// The locations of the second engine: their two times, and the ways from a location with an arrival and back.
ghost use Rattle.std.specs.Prelude.{◌≡◌};
ghost use Rattle.deadlines.specs.Deadlines.{period_of, first_of, last_of};
ghost use Rattle.deadlines.specs.Looks.{dated_with};
ghost use Rattle.deadlines.specs.Matching.{arrived_at};

use crate::Period;
use model::Location;
use rules::stages::{CHECKING, location_at, since_of, stage_of, time_of};
use std::num::wrapping_add_u64;

// [12.10] The two times; both 0 where the location carries none.
pub fn period_of(location: Location<Period>) -> Period
    ensures { result ≡ period_of location }
{
    time_of(Period { first: 0, last: 0 }, location)
}

// [12.10] The first time; 0 where the location carries none.
pub fn first_of(location: Location<Period>) -> u64
    ensures { result ≡ first_of location }
{
    period_of(location).first
}

// [12.10] The last time; 0 where the location carries none.
pub fn last_of(location: Location<Period>) -> u64
    ensures { result ≡ last_of location }
{
    period_of(location).last
}

// [12.20] [12.60] A location with its two times written out. The sums may wrap, of an arrival that no sound state has, and are of no account then.
// `limit` is the process's own a.
#[tactic(auto, using(std::proofs::lemmas::Bool::Decides::nat_tests))]
pub fn dated(b: u64, c: u64, limit: u64, location: Location<u64>) -> Location<Period>
    ensures { result ≡ dated_with b c limit location }
{
    let stage = stage_of(location);
    let since = since_of(location);
    if stage == CHECKING {
        let first = wrapping_add_u64(since, b);
        let last = wrapping_add_u64(since, c);
        return location_at(stage, Period { first, last });
    }
    let last = wrapping_add_u64(since, limit);
    location_at(stage, Period { first: since, last })
}

// [12.100] A location with the arrival that its first time tells.
#[tactic(auto, using(std::proofs::lemmas::Bool::Decides::nat_tests))]
pub fn arrived(b: u64, location: Location<Period>) -> Location<u64>
    ensures { result ≡ arrived_at b location }
{
    let stage = stage_of(location);
    let first = first_of(location);
    if stage == CHECKING {
        return location_at(stage, first.saturating_sub(b));
    }
    location_at(stage, first)
}
