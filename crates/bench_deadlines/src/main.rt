// Runs a case by steps of the second engine, with one call of it in the whole program. Prints what the first engine's program does: the sum of
// all answers and the last clock.
#![tactic(auto)]

ghost use Rattle.std.specs.Prelude.{◌≡◌};
ghost use Rattle.deadlines.specs.Deadlines.{step_with};

use deadlines::locations::dated;
use deadlines::{Deadlines, entry_with, step};
use model::{Answer, Parameters, State};
use std::{array, io};
use workload::{Act, Machine, chosen, run, state_of};

// The state that a case starts from, its times written out. Not all of these are sound: so it is not what `conversions` turns.
fn start_of(case: u64) -> State<Deadlines> {
    let State {
        parameters,
        clock,
        word,
        processes,
    } = state_of(case);
    let Parameters { b, c, a, .. } = parameters;
    State {
        parameters,
        clock,
        word,
        processes: array::from_fn(|place: usize| {
            entry_with(dated(b, c, a[place], processes[place].location))
        }),
    }
}

// A table of the second engine.
#[derive(Drop)]
struct Table {
    state: State<Deadlines>,
}

impl Machine for Table {
    ghost step = { λ table act answer next.
        step_with table.state act.action act.process act.time ≡ record { answer = answer; state = next.state } };

    fn step(&mut self, act: Act) -> Answer {
        let outcome = step(self.state, act.action, act.process, act.time);
        self.state = outcome.state;
        outcome.answer
    }
}

fn main(rt: HostRuntime) -> io::Result<()> {
    let case = chosen(&rt);
    let mut table = Table {
        state: start_of(case),
    };
    let sum = run(case, &mut table);
    println!(rt; "{sum} {}", table.state.clock)
}
