// From a state of the machine to the state of deadlines that matches it, and back. What is not sound is refused: a wait at a state's own
// clock changes nothing, and is accepted just where the state is sound.
#![tactic(auto)]

ghost use Rattle.std.specs.Prelude.{◌≡◌};
ghost use Rattle.deadlines.specs.Matching.{to_deadlines, to_arrivals};

use deadlines::locations::{arrived, dated};
use deadlines::{Deadlines, entry_with};
use machine::entry_at;
use model::{Answer, Arrivals, Outcome, Parameters, Refusal, State};
use rules::actions::WAIT;
use std::array;
use values::no_parameters;

// [12.100] [21.110] The state of deadlines that matches a sound state.
pub fn to_deadlines(state: State<Arrivals>) -> Outcome<Deadlines>
    ensures { result ≡ to_deadlines state }
{
    let looked = machine::step(state, WAIT, 0, state.clock);
    if looked.answer.code != 0 {
        return Outcome {
            answer: Answer::from(Refusal::NoTable),
            state: deadlines::fresh(no_parameters()).state,
        };
    }
    let State {
        parameters,
        clock,
        word,
        processes,
    } = state;
    let Parameters { b, c, a, .. } = parameters;
    Outcome {
        answer: Answer::accepted(0, 0),
        state: State {
            parameters,
            clock,
            word,
            processes: array::from_fn(|place: usize| {
                entry_with(dated(b, c, a[place], processes[place].location))
            }),
        },
    }
}

// [12.100] [21.110] The state that matches a sound state of deadlines.
pub fn to_arrivals(state: State<Deadlines>) -> Outcome<Arrivals>
    ensures { result ≡ to_arrivals state }
{
    let looked = deadlines::step(state, WAIT, 0, state.clock);
    if looked.answer.code != 0 {
        return Outcome {
            answer: Answer::from(Refusal::NoTable),
            state: machine::fresh(no_parameters()).state,
        };
    }
    let State {
        parameters,
        clock,
        word,
        processes,
    } = state;
    let b = parameters.b;
    Outcome {
        answer: Answer::accepted(0, 0),
        state: State {
            parameters,
            clock,
            word,
            // by an array's `map` this took twice the time: each entry then waits in an iterator of its own
            processes: array::from_fn(|place: usize| {
                entry_at(arrived(b, processes[place].location))
            }),
        },
    }
}
