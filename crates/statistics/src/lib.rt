// The running summary: `record` takes one action and counts it, by value; `record_step` is lent the summary.
// Both take any state and any summary, and answer what `recorded_of` of the model says.
#![tactic(auto)]

pub mod counting;
pub mod soundness;
pub mod waiting;

ghost use Rattle.std.specs.Prelude.{◌≡◌, if◌then◌else◌};
ghost use Rattle.model.specs.Refusals.{code_of};
ghost use Rattle.model.specs.States.{sound_of};
ghost use Rattle.model.specs.Answers.{answers};
ghost use Rattle.model.specs.Summaries.{new_statistics, beside, recorded_of};

use crate::counting::{counts_after, with_refused};
use crate::soundness::{fault_by, waits_stand};
use crate::waiting::{does_clear, may_wait, wait_after};
use machine::step;
use model::{Answer, Arrivals, Counts, Outcome, Recorded, Refusal, State, Statistics};
use rules::actions::WAIT;
use rules::answers::slot_of;

// [5.20] [21.110]
// kept: (d) a derived Default tells of an array each element apart, and not the whole value, which the clause has
pub fn new_statistics() -> Statistics
    ensures { result ≡ new_statistics }
{
    Statistics {
        counts: Counts {
            accepted: 0,
            refused: 0,
            entries: 0,
            exits: 0,
            longest: 0,
        },
        waited: [0; 96],
    }
}

// The refusal 2 or 3, or 1 before it: whether the state is sound is told by a wait at its own clock, which changes nothing.
fn refuse(state: State<Arrivals>, refusal: Refusal) -> Outcome<Arrivals>
    ensures { result ≡ (if sound_of state then answers (code_of refusal) 0 0 state else answers 1 0 0 state) }
{
    let judged = step(state, WAIT, 0, state.clock);
    let answer = judged.answer;
    if answer.code == Refusal::NoTable.code() {
        return judged;
    }
    Outcome {
        answer: Answer::from(refusal),
        state,
    }
}

// [5.30] [5.80] [5.105] [5.110] [21.110] One action of a process at a time, and the summary after it. The summary is judged first and
// changed in place, as each hand-over of it copies 808 bytes; the waits so far are gone over after the step, so that no second state is
// kept.
pub fn record(
    state: State<Arrivals>,
    mut statistics: Statistics,
    action: u64,
    process: u64,
    time: u64,
) -> Recorded
    ensures { result ≡ recorded_of state statistics action process time }
{
    let counts = statistics.counts;
    let clock = state.clock;
    if let Some(refusal) = fault_by(counts, waits_stand(&statistics.waited, clock)) {
        return Recorded {
            outcome: refuse(state, refusal),
            statistics,
        };
    }
    let outcome = step(state, action, process, time);
    let answer = outcome.answer;
    if answer.code == 0 {
        let slot = slot_of(process);
        let mut wait = statistics.waited[slot];
        // else the state after the act is not handed over
        if may_wait(answer.process, action, clock, time) {
            let unused = wait_after(
                &mut statistics.waited,
                outcome.state,
                answer.process,
                action,
                process,
                clock,
            );
            wait = wait.wrapping_add(unused);
        }
        statistics.counts = counts_after(counts, action, wait);
        if does_clear(action) {
            statistics.waited[slot] = 0;
        }
    } else if answer.code != Refusal::NoTable.code() {
        statistics.counts = with_refused(counts);
    }
    Recorded {
        outcome,
        statistics,
    }
}

// [5.30] [21.70] [21.110]
pub fn record_step(
    state: State<Arrivals>,
    statistics: &mut Statistics,
    action: u64,
    process: u64,
    time: u64,
) -> Outcome<Arrivals>
    ensures { beside statistics.new result ≡ recorded_of state statistics.old action process time }
{
    let recorded = record(state, *statistics, action, process, time);
    *statistics = recorded.statistics;
    recorded.outcome
}
