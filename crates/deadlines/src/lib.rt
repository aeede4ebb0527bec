// The second engine: the lock over entries that hold the first and the last time at which a process may act. `fresh` makes a state of
// deadlines, and `step` takes one action in it. The rows of the acts and the judgement are those of `rules`; the first engine is not used.
#![tactic(auto)]

pub mod bounds;
pub mod locations;

ghost use Rattle.std.specs.Prelude.{◌≡◌, ℕ, ◌<◌, slice_index_or, replicate};
ghost use Rattle.deadlines.specs.Deadlines.{entry_with, idle_with, fresh_with, step_with};

use crate::bounds::{are_zero, is_settled_at, note};
use crate::locations::{dated, first_of};
use model::{Answer, Location, Outcome, Parameters, Process, Refusal, State};
use rules::actions::{WAIT, transition_of};
use rules::answers::{judge, slot_of};
use rules::limits::numbers_stand;
use rules::stages::{REMAINDER, stage_of};
use rules::survey::{due_so_far, empty, scene_of};
use values::limits::limit_of;

// [12.10] The first and the last time at which a process may act.
#[derive(Clone, Copy)]
pub struct Period {
    pub first: u64,
    pub last: u64,
}

// [12.10] The entries of the second engine. Process p, from 1, has the entry at place p - 1.
pub type Deadlines = [Process<Period>; 96];

// [12.10] The entry of a process that has come to a location.
pub fn entry_with(location: Location<Period>) -> Process<Period>
    ensures { result ≡ entry_with location }
{
    Process { location }
}

// [12.40] `each` speaks of every entry.
fn idle_entries() -> Deadlines
    ensures equals { result ≡ replicate 96 idle_with }
    ensures each { (i : ℕ) (other : Process Period) → i < 96 → slice_index_or result i other ≡ idle_with }
{
    [Process {
        location: Location::Remainder,
    }; 96]
}

// [12.40] [21.110] A fresh state of deadlines, or the refusal 11 or 12 with one whose parameters are 0.
#[tactic(auto, unfolding(crate::specs::Deadlines::fresh_with))]
pub fn fresh(parameters: Parameters) -> Outcome<Deadlines>
    ensures { result ≡ fresh_with parameters }
{
    values::fresh::fresh(parameters, idle_entries())
}

// [12.50] [12.60] [21.110] One action of a process at a time. As in `machine::step` a single pass over the entries serves soundness, the first
// deadline and the critical process. Four entries in the remainder are passed at once, and a process whose times change nothing by one look:
// so on an idle table the pass wins back what the copies of 3,112 bytes cost. The values of a are lent where they lie.
pub fn step(mut state: State<Deadlines>, action: u64, process: u64, time: u64) -> Outcome<Deadlines>
    ensures { result ≡ step_with state action process time }
{
    let Parameters { n, b, c, .. } = state.parameters;
    let clock = state.clock;
    if !numbers_stand(n, b, c, &state.parameters.a, clock, state.word) {
        return Outcome {
            answer: Answer::from(Refusal::NoTable),
            state,
        };
    }
    let scene = scene_of(n, c, clock, process);
    let mut found = empty();
    let mut at: usize = 0;
    // kept: a `for` over the entries, one at a time, misses "deadlines_within idle", at most 1.02: 1.13 in row 11, where this is 1.00
    while at < 96 {
        let location = state.processes[at].location;
        if stage_of(location) == REMAINDER {
            if at <= 92 {
                let second = stage_of(state.processes[at + 1].location);
                let third = stage_of(state.processes[at + 2].location);
                let fourth = stage_of(state.processes[at + 3].location);
                if are_zero(second, third, fourth) {
                    at += 4;
                    continue;
                }
            }
            at += 1;
            continue;
        }
        let here = (at as u64) + 1;
        let limit = limit_of(&state.parameters.a, here);
        if here <= n && is_settled_at(location, due_so_far(found, clock), clock, limit) {
            at += 1;
            continue;
        }
        found = note(found, scene, here, location, b, limit);
        if found.faulty != 0 {
            break;
        }
        at += 1;
    }
    let transition = transition_of(action, process, time, state.word);
    let slot = slot_of(process);
    let own = state.processes[slot].location;
    let answer = judge(
        found,
        scene,
        stage_of(own),
        first_of(own),
        transition,
        action,
        time,
    );
    if answer.code == 0 {
        state.clock = time;
        if action != WAIT {
            state.word = transition.word;
            let limit = limit_of(&state.parameters.a, process);
            state.processes[slot] = entry_with(dated(b, c, limit, transition.to));
        }
    }
    Outcome { answer, state }
}
