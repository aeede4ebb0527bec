// What comes of a list of calls, printed: numbers between commas.
use history::rows::tuple_of;
use model::{Answer, Arrivals, Outcome, Process, Recorded, State, Statistics};
use rules::stages::{since_of, stage_of};
use std::fmt::{Display, Formatter};
use std::{fmt, io};

// Numbers, each after a comma.
#[derive(Clone, Copy)]
struct Numbers<'a>(&'a [u64]);

impl Display for Numbers<'_> {
    fn fmt<W: fmt::Write>(&self, f: &mut Formatter<W>) -> fmt::Result {
        for number in self.0 {
            write!(f, ",{number}")?;
        }
        Ok(())
    }
}

// Entries, of each its stage and its arrival.
#[derive(Clone, Copy)]
struct Places<'a>(&'a [Process<u64>]);

impl Display for Places<'_> {
    fn fmt<W: fmt::Write>(&self, f: &mut Formatter<W>) -> fmt::Result {
        for process in self.0 {
            let location = process.location;
            write!(f, ",{},{}", stage_of(location), since_of(location))?;
        }
        Ok(())
    }
}

// The first of some, at most so many.
fn first<T>(items: &[T], most: u64) -> &[T] {
    let end = items.len().min(most as usize);
    &items[..end]
}

fn print_answer(rt: &impl Print, name: &str, answer: [u64; 3]) -> io::Result<()> {
    println!(rt; "{name}{}", Numbers(&answer))
}

// The counts and the longest wait, and the waits so far of processes 1 to n.
fn print_summary(rt: &impl Print, n: u64, summary: Statistics) -> io::Result<()> {
    let counts = tuple_of(summary.counts);
    let waited = summary.waited;
    println!(rt; "summary{}{}", Numbers(&counts), Numbers(first(&waited, n)))
}

// n, b, c, the clock, the word; and of processes 1 to the n that was asked for the values of a, and then place and arrival.
fn print_state(rt: &impl Print, n: u64, state: State<Arrivals>) -> io::Result<()> {
    let parameters = state.parameters;
    let head = [
        parameters.n,
        parameters.b,
        parameters.c,
        state.clock,
        state.word,
    ];
    let a = parameters.a;
    let processes = state.processes;
    println!(rt;
        "table{}{}{}",
        Numbers(&head),
        Numbers(first(&a, n)),
        Places(first(&processes, n))
    )
}

// The last answer, or that to the fresh table where there is none.
fn print_last(rt: &impl Print, name: &str, fresh: Answer, answers: &[[u64; 3]]) -> io::Result<()> {
    match answers.last() {
        Some(answer) => print_answer(rt, name, *answer),
        None => print_answer(rt, "fresh", <[u64; 3]>::from(fresh)),
    }
}

// What came of the last of some calls: its answer, the summary that it left, if there is one, and the table.
pub(crate) fn print_call(
    rt: &impl Print,
    n: u64,
    outcome: Outcome<Arrivals>,
    answers: &[[u64; 3]],
    left: Option<Statistics>,
) -> io::Result<()> {
    print_last(rt, "call", outcome.answer, answers)?;
    if let Some(summary) = left {
        print_summary(rt, n, summary)?;
    }
    print_state(rt, n, outcome.state)
}

// The same with one summary for all.
pub(crate) fn print_recorded(
    rt: &impl Print,
    n: u64,
    recorded: Recorded,
    answers: &[[u64; 3]],
) -> io::Result<()> {
    print_last(rt, "one", recorded.outcome.answer, answers)?;
    print_summary(rt, n, recorded.statistics)?;
    print_state(rt, n, recorded.outcome.state)
}
