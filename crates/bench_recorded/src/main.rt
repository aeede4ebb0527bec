// Runs a case by recorded steps, by value and with a summary that is new at first. Prints the sum of all answers, the last clock, and
// the counts with the longest wait, as the programs of `bench` in Rust do.
#![tactic(auto)]

ghost use Rattle.std.specs.Prelude.{◌≡◌};
ghost use Rattle.model.specs.Summaries.{recorded_of};

use model::{Answer, Arrivals, State, Statistics};
use statistics::{new_statistics, record};
use std::io;
use workload::{Act, Machine, chosen, run, state_of};

// A table and its summary.
#[derive(Drop)]
struct Table {
    state: State<Arrivals>,
    summary: Statistics,
}

impl Machine for Table {
    ghost step = { λ table act answer next.
        recorded_of table.state table.summary act.action act.process act.time
        ≡ record { outcome = record { answer = answer; state = next.state }; statistics = next.summary } };

    fn step(&mut self, act: Act) -> Answer {
        let recorded = record(self.state, self.summary, act.action, act.process, act.time);
        self.state = recorded.outcome.state;
        self.summary = recorded.statistics;
        recorded.outcome.answer
    }
}

fn main(rt: HostRuntime) -> io::Result<()> {
    let case = chosen(&rt);
    let mut table = Table {
        state: state_of(case),
        summary: new_statistics(),
    };
    let sum = run(case, &mut table);
    let counts = table.summary.counts;
    println!(rt;
        "{sum} {} [{}, {}, {}, {}, {}]",
        table.state.clock,
        counts.accepted,
        counts.refused,
        counts.entries,
        counts.exits,
        counts.longest
    )
}
