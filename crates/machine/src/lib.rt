// Fischer's timed mutual exclusion as a step machine: `fresh` makes a state, `step` takes one action in it.
// Both take any numbers and any state, and answer what `fresh_of` and `step_of` of the model say.

#![tactic(auto)]

ghost use Rattle.std.specs.Prelude.{◌≡◌, ℕ, ◌<◌, get_or, replicate};
ghost use Rattle.model.specs.States.{entry, idle};
ghost use Rattle.model.specs.Answers.{fresh_of, step_of};

use model::{Answer, Arrivals, Location, Outcome, Parameters, Process, Refusal, State};
use rules::actions::{WAIT, transition_of};
use rules::answers::{check_from, judge, slot_of};
use rules::limits::numbers_stand;
use rules::stages::stage_of;
use rules::survey::{empty, note, scene_of};
use values::limits::limit_of;

// [2.10] The entry of a process that has come to a location.
pub fn entry_at(location: Location<u64>) -> Process<u64>
    ensures { result ≡ entry location }
{
    Process { location }
}

// [2.60] [21.30] `each` speaks of every entry.
fn idle_entries() -> Arrivals
    ensures equals { result ≡ replicate 96 idle }
    ensures each { (i : ℕ) (other : Process ℕ) → i < 96 → get_or result i other ≡ idle }
{
    [Process {
        location: Location::Remainder,
    }; 96]
}

// [2.65] [4.70] [4.90] [4.100] [21.110] A fresh table, or the refusal 11 or 12 with a table whose parameters are 0.
#[tactic(auto, unfolding(model::specs::Answers::fresh_of))]
pub fn fresh(parameters: Parameters) -> Outcome<Arrivals>
    ensures { result ≡ fresh_of parameters }
{
    values::fresh::fresh(parameters, idle_entries())
}

// [3.45] [4.80] [4.83] [21.40] [21.50] [21.110] One action of a process at a time. A single pass over the entries serves soundness, the
// first deadline and the critical process; it stands here, as each hand-over of a state copies 2,344 bytes. The values of a are lent where
// they lie, for the same reason.
pub fn step(mut state: State<Arrivals>, action: u64, process: u64, time: u64) -> Outcome<Arrivals>
    ensures { result ≡ step_of state action process time }
{
    let Parameters { n, b, c, .. } = state.parameters;
    let clock = state.clock;
    if !numbers_stand(n, b, c, &state.parameters.a, clock, state.word) {
        return Outcome {
            answer: Answer::from(Refusal::NoTable),
            state,
        };
    }
    let scene = scene_of(n, c, clock, process);
    let mut found = empty();
    // counted by the process, not by its place: else the test on n works out one from the other at each busy entry
    for at in 1..97 {
        let entry = state.processes[(at - 1) as usize];
        let limit = limit_of(&state.parameters.a, at);
        found = note(found, scene, at, entry.location, limit);
        if found.faulty != 0 {
            break;
        }
    }
    let transition = transition_of(action, process, time, state.word);
    // read after the pass: before it, place and location take registers that each busy entry needs
    let slot = slot_of(process);
    let own = state.processes[slot].location;
    let answer = judge(
        found,
        scene,
        stage_of(own),
        check_from(own, b),
        transition,
        action,
        time,
    );
    if answer.code == 0 {
        state.clock = time;
        if action != WAIT {
            state.word = transition.word;
            state.processes[slot] = entry_at(transition.to);
        }
    }
    Outcome { answer, state }
}
