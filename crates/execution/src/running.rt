// Steps that are taken block by block, as many at a time as there are places for their answers: what prints or judges a recording by its
// answers needs no room for more of them than it looks at.
ghost use Rattle.std.specs.Prelude.{◌≡◌, ◌+◌, ◌-◌, ◌≤◌, length, map, min, replicate, MatchOption};
ghost use Rattle.model.specs.Answers.{answer_of, answer_numbers};
ghost use Rattle.model.specs.Writings.{events_of};
ghost use Rattle.model.specs.Executions.{executed_gave, executed_of};
ghost use Rattle.execution.specs.Steps.{lists_after, lists_of, steps_of};
ghost use Rattle.execution.specs.Blocks.{Stayed, Took};

use crate::recording::Steps;
use machine::step;
use model::{Answer, Arrivals, State};

// How many steps are taken at a time; more did not make it faster.
const BLOCK: usize = 64;

// The state after the steps that have been taken, how many these are, and the answers to the last block of them, from the first place on.
#[derive(Drop)]
pub struct Run {
    pub state: State<Arrivals>,
    pub taken: usize,
    pub answers: [Answer; BLOCK],
}

// [7.47] [21.50] [21.110] Takes steps from a state on, as many as there are places for the answers.
fn take_steps(first: State<Arrivals>, steps: &Steps, answers: &mut [Answer]) -> State<Arrivals>
    ensures { executed_gave result (map answer_numbers answers.new)
        ≡ executed_of first (steps_of steps.now) (map answer_numbers answers.old) }
{
    let count = steps.len().min(answers.len());
    let mut state = first;
    for i in 0..count {
        let event = steps.at(i);
        let outcome = step(state, event.action, event.process, event.time);
        answers[i] = outcome.answer;
        state = outcome.state;
    }
    state
}

impl Run {
    // Nothing is taken yet.
    pub fn new(first: State<Arrivals>) -> Run
        ensures state { result.state ≡ first }
        ensures taken { result.taken ≡ 0 }
        ensures answers { result.answers ≡ replicate 64 (answer_of 0 0 0) }
    {
        Run {
            state: first,
            taken: 0,
            answers: [Answer::accepted(0, 0); BLOCK],
        }
    }

    // [7.47] Takes the next block of these steps, and answers how many they are; none are left where all have been taken. An empty block is
    // run all the same: a second way out of here took more code.
    pub fn take_block(&mut self, steps: &Steps) -> Option<usize>
        ensures block { MatchOption result (Stayed self.old (lists_of steps.now) self.new)
            (λ count. Took self.old (lists_of steps.now) count self.new) }
        ensures ran { executed_gave self.new.state (map answer_numbers self.new.answers)
            ≡ executed_of self.old.state (events_of (lists_after self.old.taken (lists_of steps.now))) (map answer_numbers self.old.answers) }
        ensures counted { self.new.taken ≡ self.old.taken + min (length steps.now.times.now - self.old.taken) 64 }
    {
        let left = steps.after(self.taken);
        let count = left.len().min(BLOCK);
        self.state = take_steps(self.state, &left, &mut self.answers);
        self.taken += count;
        if count == 0 { None } else { Some(count) }
    }
}
