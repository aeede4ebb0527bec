// The answer to an action, from what the pass found: the first condition of the answers table that applies.
// It is judged on numbers; no state is handed over.
ghost use Rattle.std.specs.Prelude.{◌≡◌};
ghost use Rattle.model.specs.Answers.{misnamed};
ghost use Rattle.rules.specs.Judging.{lowest_of, slot_of, check_from, turn_judged, judged};

use crate::actions::{CHECK, LAST_ACT, WAIT};
use crate::limits::LAST;
use crate::stages::{CRITICAL, since_of, stage_of};
use crate::survey::{Scene, Survey, due_so_far, time_left};
use model::{Answer, Location, Refusal, Transition};
use std::num::wrapping_add_u64;

// The lowest critical process once `process` has come to a location, from the lowest of the others.
#[tactic(auto, using(std::proofs::lemmas::Bool::Decides::nat_tests), unfolding(crate::specs::Judging::lowest_of))]
fn lowest(critical: u64, process: u64, to: Location<u64>) -> u64
    ensures { result ≡ lowest_of critical process to }
{
    if stage_of(to) != CRITICAL {
        return critical;
    }
    if critical == 0 {
        return process;
    }
    critical.min(process)
}

// [4.7]
fn is_misnamed(n: u64, action: u64, process: u64) -> bool
    ensures { result ≡ misnamed n action process }
{
    if action == WAIT {
        process != 0
    } else {
        process == 0 || n < process
    }
}

// The place of a process's entry; the first where there is no such process, so that it may be read before the process is judged.
pub fn slot_of(process: u64) -> usize
    ensures { result ≡ slot_of process }
{
    match process {
        1..=96 => (process - 1) as usize,
        _ => 0,
    }
}

// From when on a process in this location may check. The entry need not be sound: then the sum may wrap, and is of no account.
pub fn check_from(location: Location<u64>, b: u64) -> u64
    ensures { result ≡ check_from location b }
{
    wrapping_add_u64(since_of(location), b)
}

// [4.9] [4.10] An action of a process from 1 to n that nobody is late for: out of place, early or accepted.
#[tactic(auto, using(std::proofs::lemmas::Bool::Decides::nat_tests), unfolding(crate::specs::Judging::turn_judged))]
fn judge_turn(
    critical: u64,
    acting: u64,
    place: u64,
    release: u64,
    transition: Transition,
    action: u64,
    time: u64,
) -> Answer
    ensures { result ≡ turn_judged critical acting place release transition action time }
{
    if place != transition.from {
        return Answer::refused(Refusal::OutOfPlace, acting, 0);
    }
    if action == CHECK && time < release {
        return Answer::refused(Refusal::Early, acting, release);
    }
    Answer::accepted(lowest(critical, acting, transition.to), time)
}

// [4.80] The conditions in the order of the table, for an action of the acting process, whose stage is `place` and which may check from
// `release` on; past them the act is accepted.
#[tactic(auto, using(std::proofs::lemmas::Bool::Decides::nat_tests), unfolding(crate::specs::Judging::judged))]
pub fn judge(
    found: Survey,
    scene: Scene,
    place: u64,
    release: u64,
    transition: Transition,
    action: u64,
    time: u64,
) -> Answer
    ensures { result ≡ judged found scene place release transition action time }
{
    if found.faulty != 0 {
        return Answer::from(Refusal::NoTable);
    }
    if time < scene.clock {
        return Answer::refused(Refusal::Backward, 0, scene.clock);
    }
    if LAST < time {
        return Answer::from(Refusal::EndOfClock);
    }
    if LAST_ACT < action {
        return Answer::from(Refusal::NoAction);
    }
    if is_misnamed(scene.n, action, scene.acting) {
        return Answer::from(Refusal::NoProcess);
    }
    // where nobody has a deadline the time may be further from the clock than 32 bits tell
    if found.process != 0 && time_left(found) < time - scene.clock {
        let due = due_so_far(found, scene.clock);
        return Answer::refused(Refusal::Late, found.process, due);
    }
    if action == WAIT {
        return Answer::accepted(found.critical, time);
    }
    judge_turn(
        found.critical,
        scene.acting,
        place,
        release,
        transition,
        action,
        time,
    )
}
