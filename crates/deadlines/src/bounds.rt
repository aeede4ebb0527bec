// What a look at an entry of the second engine finds: whether its two times are sound, and its last time beside the first deadline so far.
// The first and the last time come `opens` and `closes` after the arrival of their process.
ghost use Rattle.std.specs.Prelude.{◌≡◌, ◌^◌, ◌<◌, true};
ghost use Rattle.deadlines.specs.Deadlines.{last_of};
ghost use Rattle.deadlines.specs.Looks.{bounds_noted, settled_by, location_noted, settled_at, three_zeros};

use crate::Period;
use model::Location;
use rules::stages::{REMAINDER, stage_of};
use rules::survey::{Scene, Survey, fault, note_critical, note_due};
use std::num::{wrapping_add_u64, wrapping_sub_u64};

// [12.30] No sum is taken of a time before it is known to fit: past the first two tests the arrival is not after the clock.
#[tactic(auto, using(std::proofs::lemmas::Bool::Decides::nat_tests), unfolding(crate::specs::Looks::bounds_noted))]
pub fn note_bounds(
    found: Survey,
    clock: u64,
    process: u64,
    first: u64,
    last: u64,
    opens: u64,
    closes: u64,
) -> Survey
    ensures { result ≡ bounds_noted clock process first last opens closes found }
{
    if first < opens {
        return fault();
    }
    let since = first - opens;
    if clock < since {
        return fault();
    }
    if last != wrapping_add_u64(since, closes) {
        return fault();
    }
    note_due(found, clock, process, last)
}

// Whether `note_bounds` would leave what was found as it is, with `due` as the first deadline so far: so most busy entries are passed by one
// look. It goes by the last time, which saves each of them a load.
#[tactic(auto, using(std::proofs::lemmas::Bool::Decides::nat_tests), unfolding(crate::specs::Looks::settled_by))]
pub fn is_settled(due: u64, clock: u64, first: u64, last: u64, opens: u64, closes: u64) -> bool
    ensures { result ≡ settled_by due clock first last opens closes }
{
    if last < due {
        return false;
    }
    let since = wrapping_sub_u64(last, closes);
    since <= clock && first == wrapping_add_u64(since, opens)
}

// What is found once the entry of a process is looked at too: its location, and the bound of its stay outside checking.
#[tactic(auto, using(std::proofs::lemmas::Bool::Decides::nat_tests), unfolding(crate::specs::Looks::location_noted))]
pub fn note(
    found: Survey,
    scene: Scene,
    process: u64,
    location: Location<Period>,
    b: u64,
    limit: u64,
) -> Survey
    ensures { result ≡ location_noted scene process location b limit found }
{
    if stage_of(location) == REMAINDER {
        return found;
    }
    if scene.n < process {
        return fault();
    }
    match location {
        Location::Remainder => found,
        Location::Critical => note_critical(found, scene.acting, process),
        Location::Checking(period) => {
            note_bounds(
                found,
                scene.clock,
                process,
                period.first,
                period.last,
                b,
                scene.c,
            )
        }
        Location::Testing(period)
        | Location::Setting(period)
        | Location::Entering(period)
        | Location::Resetting(period)
        | Location::Leaving(period) => {
            note_bounds(
                found,
                scene.clock,
                process,
                period.first,
                period.last,
                0,
                limit,
            )
        }
    }
}

// Whether `note` is known to leave what was found: of a process up to n in a timed location other than checking. `fits` is what a number of
// 64 bits keeps to.
#[tactic(auto, using(std::proofs::lemmas::Bool::Decides::nat_tests))]
pub fn is_settled_at(location: Location<Period>, due: u64, clock: u64, limit: u64) -> bool
    ensures equals { result ≡ settled_at due clock limit location }
    ensures fits { result ≡ true → last_of location < 2 ^ 64 }
{
    match location {
        Location::Remainder | Location::Critical | Location::Checking(_) => false,
        Location::Testing(period)
        | Location::Setting(period)
        | Location::Entering(period)
        | Location::Resetting(period)
        | Location::Leaving(period) => is_settled(due, clock, period.first, period.last, 0, limit),
    }
}

pub fn are_zero(x: u64, y: u64, z: u64) -> bool
    ensures { result ≡ three_zeros x y z }
{
    x == 0 && y == 0 && z == 0
}
