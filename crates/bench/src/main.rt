// Runs a case with one call of `step` in the whole program, that of the loop, into which the compiler therefore sets it.
#![tactic(auto)]

ghost use Rattle.std.specs.Prelude.{◌≡◌};
ghost use Rattle.model.specs.Answers.{step_of};

use model::{Answer, Arrivals, State};
use std::io;
use workload::{Act, Machine};

// A table.
#[derive(Drop)]
struct Table {
    state: State<Arrivals>,
}

impl Machine for Table {
    ghost step = { λ table act answer next.
        step_of table.state act.action act.process act.time ≡ record { answer = answer; state = next.state } };

    fn step(&mut self, act: Act) -> Answer {
        let outcome = machine::step(self.state, act.action, act.process, act.time);
        self.state = outcome.state;
        outcome.answer
    }
}

fn main(rt: HostRuntime) -> io::Result<()> {
    let case = workload::chosen(&rt);
    let mut table = Table {
        state: workload::state_of(case),
    };
    let sum = workload::run(case, &mut table);
    println!(rt; "{sum} {}", table.state.clock)
}
