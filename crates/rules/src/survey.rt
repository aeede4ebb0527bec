// What one pass over the entries finds: whether they are sound, the deadline that comes first, and the lowest critical
// process besides the acting one. The time of the action has no part in it.
ghost use Rattle.std.specs.Prelude.{◌≡◌, ◌^◌, ◌<◌};
ghost use Rattle.rules.specs.Survey.{scene_with, nothing, unsound, faulted, critical_noted, due_so_far, due_noted, timed_noted};
ghost use Rattle.rules.specs.Survey.{noted, later_noted, numbers_noted};

use crate::stages::{CHECKING, CRITICAL, LEAVING, REMAINDER, stage_of};
use model::Location;
use std::num::wrapping_add_u64;

// What a look at an entry, and the judgement after all of them, need besides: the numbers that all entries share, and who acts.
#[derive(Clone, Copy)]
pub struct Scene {
    pub n: u64,
    pub c: u64,
    pub clock: u64,
    pub acting: u64,
}

pub fn scene_of(n: u64, c: u64, clock: u64, acting: u64) -> Scene
    ensures { result ≡ scene_with n c clock acting }
{
    Scene {
        n,
        c,
        clock,
        acting,
    }
}

// The two numbers of 32 bits stand side by side, before those of 64: with padding between fields the struct goes from turn to turn by way of
// memory, and a busy entry takes half as much again.
#[derive(Clone, Copy)]
pub struct Survey {
    // 0 where the entries up to here are sound, else 1
    pub faulty: u32,
    // [4.85] how long after the clock the first deadline comes
    pub left: u32,
    // the process whose deadline that is, the lowest of equals; 0 where there is none, and then more is left than any stay has
    pub process: u64,
    // the lowest critical process besides the acting one, 0 where there is none
    pub critical: u64,
}

// Before the first entry: no process, and more time left than any stay has.
pub fn empty() -> Survey
    ensures { result ≡ nothing }
{
    Survey {
        faulty: 0,
        left: 4294967295,
        process: 0,
        critical: 0,
    }
}

fn with_fault(found: Survey) -> Survey
    ensures { result ≡ faulted found }
{
    Survey { faulty: 1, ..found }
}

// What is found of a table that is not sound, whatever was seen of its entries.
pub fn fault() -> Survey
    ensures { result ≡ unsound }
{
    with_fault(empty())
}

// A critical process: the lowest of them counts, besides the acting one. The acting one is held against the lowest and not against the process
// itself: else the pass by value works out their difference at each busy entry.
pub fn note_critical(found: Survey, acting: u64, process: u64) -> Survey
    ensures { result ≡ critical_noted acting process found }
{
    let lowest = if found.critical == 0 {
        process
    } else {
        found.critical
    };
    if lowest == acting {
        return found;
    }
    Survey {
        critical: lowest,
        ..found
    }
}

// [4.85] How long after the clock the first deadline so far comes. `narrow` holds by the type of what is kept, and no other contract tells its
// width.
pub fn time_left(found: Survey) -> u64
    ensures equals { result ≡ found.left }
    ensures narrow { result < 2 ^ 32 }
{
    found.left as u64
}

// [4.8] [4.85] The first deadline so far; the sum may wrap where the clock does not stand.
pub fn due_so_far(found: Survey, clock: u64) -> u64
    ensures { result ≡ due_so_far clock found }
{
    wrapping_add_u64(clock, time_left(found))
}

// [4.8] [4.85] The search for the first deadline: one that is not sooner than the first so far is done with after one test, as the first is not
// before the clock, so neither is this one. Past both tests the deadline is from the clock on and before the first so far, whose sum then did not
// wrap; so less is left than was, and it fits, whatever the limits are. A fault is another value than what was found: so that stays in registers.
pub fn note_due(found: Survey, clock: u64, process: u64, due: u64) -> Survey
    ensures { result ≡ due_noted clock process due found }
{
    if due_so_far(found, clock) <= due {
        return found;
    }
    if due < clock {
        return fault();
    }
    Survey {
        left: (due - clock) as u32,
        process,
        ..found
    }
}

// A process that may stay for `limit`.
#[tactic(auto, using(std::proofs::lemmas::Bool::Decides::nat_tests))]
fn note_timed(found: Survey, clock: u64, process: u64, since: u64, limit: u64) -> Survey
    ensures { result ≡ timed_noted clock process since limit found }
{
    if clock < since {
        return with_fault(found);
    }
    note_due(found, clock, process, wrapping_add_u64(since, limit))
}

// What is found once the entry of a process is looked at too: its location, and the bound of its stay outside checking. The test on n
// stands between that for the remainder and the match: side by side the two become a table of jumps, which costs each entry more.
#[tactic(auto, using(std::proofs::lemmas::Bool::Decides::nat_tests), unfolding(crate::specs::Survey::noted))]
pub fn note(
    found: Survey,
    scene: Scene,
    process: u64,
    location: Location<u64>,
    limit: u64,
) -> Survey
    ensures { result ≡ noted scene process location limit found }
{
    if stage_of(location) == REMAINDER {
        return found;
    }
    if scene.n < process {
        return with_fault(found);
    }
    match location {
        Location::Remainder => found,
        Location::Critical => note_critical(found, scene.acting, process),
        Location::Checking(since) => note_timed(found, scene.clock, process, since, scene.c),
        Location::Testing(since)
        | Location::Setting(since)
        | Location::Entering(since)
        | Location::Resetting(since)
        | Location::Leaving(since) => note_timed(found, scene.clock, process, since, limit),
    }
}

// A stage from checking on, and an arrival. A stage past leaving tells no entry, nor does an arrival of a critical process.
#[tactic(auto, using(std::proofs::lemmas::Bool::Decides::nat_tests), unfolding(crate::specs::Survey::later_noted))]
fn note_later(
    found: Survey,
    scene: Scene,
    process: u64,
    stage: u64,
    since: u64,
    limit: u64,
) -> Survey
    ensures { result ≡ later_noted scene process stage since limit found }
{
    if LEAVING < stage {
        return with_fault(found);
    }
    if stage == CRITICAL {
        if since != 0 {
            return with_fault(found);
        }
        return note_critical(found, scene.acting, process);
    }
    if stage == CHECKING {
        return note_timed(found, scene.clock, process, since, scene.c);
    }
    note_timed(found, scene.clock, process, since, limit)
}

// As `note`, of an entry that is given as two numbers, of a process from 1 to n. Most are in the remainder, and most of the others are
// testing: these are looked at first. Where a location is made of the numbers, a busy entry costs ten instructions more.
#[tactic(auto, using(std::proofs::lemmas::Bool::Decides::nat_tests), unfolding(crate::specs::Survey::numbers_noted))]
pub fn note_numbers(
    found: Survey,
    scene: Scene,
    process: u64,
    stage: u64,
    since: u64,
    limit: u64,
) -> Survey
    ensures { result ≡ numbers_noted scene process stage since limit found }
{
    if stage == REMAINDER {
        if since != 0 {
            return with_fault(found);
        }
        return found;
    }
    if stage < CHECKING {
        return note_timed(found, scene.clock, process, since, limit);
    }
    note_later(found, scene, process, stage, since, limit)
}
