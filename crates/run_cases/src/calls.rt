// What a row of the table of cases is: a call, and what must come of it.
use model::{Location, Refusal};

// What is asked of a fresh state, or told of the parameters of a state: n, b, c, the a of processes 1 to n, and a process with the a that
// it has instead, if there is one.
#[derive(Clone, Copy)]
pub(crate) struct Asked {
    pub n: u64,
    pub b: u64,
    pub c: u64,
    pub a: u64,
    pub own: Option<(u64, u64)>,
}

// A step has its action, process and time.
#[derive(Clone, Copy)]
pub(crate) enum Call {
    Fresh(Asked),
    Step(u64, u64, u64),
}

// An answer names a process and a time.
#[derive(Clone, Copy)]
pub(crate) enum Told {
    Accepted(u64, u64),
    Refused(Refusal, u64, u64),
}

// The answer, and the state given back: its parameters, clock and word, and where processes 1 and 2 are. All that is not said is as in a
// fresh state.
#[derive(Clone, Copy)]
pub(crate) struct Row {
    pub call: Call,
    pub answer: Told,
    pub parameters: Asked,
    pub clock: u64,
    pub word: u64,
    pub first: Location<u64>,
    pub second: Location<u64>,
}
