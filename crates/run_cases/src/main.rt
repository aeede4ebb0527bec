// Runs the table of cases, each call at the state that the one before it gave back, and prints what came of each row:
// the answer, then the clock, the word, and place and arrival of windows 1 and 2 of the table given back.
#![tactic(auto)]

mod calls;
mod rows;

use crate::calls::Call;
use crate::rows::{call, table};
use model::{Arrivals, Location, Outcome};
use rules::stages::{since_of, stage_of};
use std::fmt::{Display, Formatter};
use std::{fmt, io};
use values::no_parameters;

// A location as its stage and its arrival.
#[derive(Clone, Copy)]
struct Numbers(Location<u64>);

impl Display for Numbers {
    fn fmt<W: fmt::Write>(&self, f: &mut Formatter<W>) -> fmt::Result {
        write!(f, "{},{}", stage_of(self.0), since_of(self.0))
    }
}

// A fresh row is announced by the numbers that it asks for: n, b, c, the a of windows 1 to n, a window or 0, and its own a.
fn print_asked(rt: &impl Print, call: Call) -> io::Result<()> {
    let Call::Fresh(asked) = call else {
        return Ok(());
    };
    let (window, own) = asked.own.unwrap_or((0, 0));
    println!(rt;
        "fresh,{},{},{},{},{window},{own}",
        asked.n, asked.b, asked.c, asked.a
    )
}

fn print_outcome(rt: &impl Print, number: usize, outcome: Outcome<Arrivals>) -> io::Result<()> {
    let answer = outcome.answer;
    let state = outcome.state;
    print!(rt;
        "{number},{},{},{}",
        answer.code, answer.process, answer.time
    )?;
    let [first, second, ..] = state.processes;
    println!(rt;
        ",{},{},{},{}",
        state.clock,
        state.word,
        Numbers(first.location),
        Numbers(second.location)
    )
}

fn main(rt: HostRuntime) -> io::Result<()> {
    println!(rt; "row,answer,window,moment,clock,word,place1,arrival1,place2,arrival2")?;
    // the state before the first row, which is a fresh one and has no use for it
    let mut state = machine::fresh(no_parameters()).state;
    for (i, row) in table().iter().enumerate() {
        print_asked(&rt, row.call)?;
        let outcome = call(state, *row);
        print_outcome(&rt, i + 1, outcome)?;
        state = outcome.state;
    }
    Ok(())
}
