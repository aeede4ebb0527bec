// The declared types of the lock. What they mean, and every definition that a contract cites, stands in `specs/`,
// one to three files for each of sections 2 to 8 of the specification; the functions here make answers.

#![tactic(auto)]

ghost use Rattle.std.specs.Prelude.{◌≡◌};
ghost use Rattle.model.specs.Refusals.{code_of};
ghost use Rattle.model.specs.Answers.{answer_of, answer_numbers};
ghost use Rattle.model.specs.Readings.{fault};

// [2.70] [2.80] [12.10] [21.20] Where a process is; the timed locations carry what their engine knows of the time: since when it is there, or the
// first and the last time at which it may act.
#[derive(Clone, Copy)]
pub enum Location<T> {
    Remainder,
    Testing(T),
    Setting(T),
    Checking(T),
    Entering(T),
    Critical,
    Resetting(T),
    Leaving(T),
}

// [2.10] [12.10] [21.20] An entry.
#[derive(Clone, Copy)]
pub struct Process<T> {
    pub location: Location<T>,
}

// [2.10] The entries of the first engine. Process p, from 1, has the entry at place p - 1.
pub type Arrivals = [Process<u64>; 96];

// [2.10] What a lock is made with and keeps.
#[derive(Clone, Copy)]
pub struct Parameters {
    // how many of the entries are processes
    pub n: u64,
    // the limits of a check: it takes at least b and at most c
    pub b: u64,
    pub c: u64,
    // how long any other step of a process takes at most: process p, from 1, has the place p - 1
    pub a: [u64; 96],
}

// [2.10] [12.10] [21.50] A state of either engine.
#[derive(Clone, Copy)]
pub struct State<E> {
    pub parameters: Parameters,
    pub clock: u64,
    // the shared word: 0 where it is free, else a process
    pub word: u64,
    pub processes: E,
}

// A row of section 3 of the specification at a state, a process and a time: the stage that it leaves, where it leads, and the word after
// it.
#[derive(Clone, Copy)]
pub struct Transition {
    pub from: u64,
    pub to: Location<u64>,
    pub word: u64,
}

// [4.50] An answer. Its fields lie as in C, for `funnelfawn`.
#[repr(C)]
#[derive(Clone, Copy)]
pub struct Answer {
    pub code: u64,
    pub process: u64,
    pub time: u64,
}

// [4.1] to [4.21] Why a call is refused, each by the word that the answers table has for it.
#[derive(Clone, Copy, PartialEq, Eq)]
pub enum Refusal {
    NoTable = 1,
    NoSummary = 2,
    SummaryFull = 3,
    Backward = 4,
    EndOfClock = 5,
    NoAction = 6,
    NoProcess = 7,
    Late = 8,
    OutOfPlace = 9,
    Early = 10,
    BadCount = 11,
    BadLimits = 12,
    BadNames = 13,
    BadLine = 14,
    BadLength = 15,
    ShortOutput = 16,
    BadWidth = 17,
    BoardFull = 18,
    PastBounds = 19,
    OtherActions = 20,
    NoShift = 21,
}

impl Refusal {
    // [4.50] Its number in the answers table.
    pub fn code(self) -> u64
        ensures { result ≡ code_of self }
    {
        self as u64
    }

    // [6.90] [7.35] This refusal of a text, with the line that it is reported at.
    pub fn at(self, line: u64) -> Fault
        ensures { result ≡ fault self line }
    {
        Fault {
            refusal: self,
            line,
        }
    }
}

impl Answer {
    // [4.0] [4.60] [4.70]
    pub fn accepted(process: u64, time: u64) -> Answer
        ensures { result ≡ answer_of 0 process time }
    {
        Answer {
            code: 0,
            process: process,
            time: time,
        }
    }

    // [4.80] A refusal, and what it names.
    pub fn refused(refusal: Refusal, process: u64, time: u64) -> Answer
        ensures { result ≡ answer_of (code_of refusal) process time }
    {
        Answer {
            code: refusal.code(),
            process: process,
            time: time,
        }
    }
}

// A refusal that names no process and no time.
impl From<Refusal> for Answer {
    ghost from_gives = { λ refusal answer. answer ≡ answer_of (code_of refusal) 0 0 };

    fn from(refusal: Refusal) -> Answer {
        Answer::refused(refusal, 0, 0)
    }
}

// [4.50] Its three numbers.
impl From<Answer> for [u64; 3] {
    ghost from_gives = { λ answer numbers. numbers ≡ answer_numbers answer };

    fn from(answer: Answer) -> [u64; 3] {
        [answer.code, answer.process, answer.time]
    }
}

// What a call gives back.
#[derive(Clone, Copy)]
pub struct Outcome<E> {
    pub answer: Answer,
    pub state: State<E>,
}

// [6.50] A step of a recording.
#[derive(Clone, Copy)]
pub struct Event {
    pub time: u64,
    pub process: u64,
    pub action: u64,
}

// [6.80] [21.100] What is read at the start of a text, and how many bytes it takes, with the byte that ends it.
#[derive(Clone, Copy)]
pub struct Parsed<T> {
    pub value: T,
    pub size: usize,
}

// [6.90] [6.110] [7.35] Why a text is refused, and the line that this is reported at.
#[derive(Clone, Copy)]
pub struct Fault {
    pub refusal: Refusal,
    pub line: u64,
}

// [6.20] [6.45] [6.50] The first lines of a text: its parameters, the line of its first step, and how many bytes they take.
#[derive(Clone, Copy)]
pub struct Head {
    pub parameters: Parameters,
    pub line: u64,
    pub size: usize,
}

// [6.145] What is found of a text: its parameters, the line of its first step, and how many steps there are.
#[derive(Clone, Copy)]
pub struct Found {
    pub parameters: Parameters,
    pub line: u64,
    pub steps: usize,
}

// [7.46] What was found of a text that is run, and the state that its first step is taken in.
#[derive(Clone, Copy)]
pub struct Started {
    pub found: Found,
    pub state: State<Arrivals>,
}

// [6.130] What a text was read as: its parameters, and how many steps there are.
#[derive(Clone, Copy)]
pub struct Reading {
    pub parameters: Parameters,
    pub steps: usize,
}

// [5.10] The counts of a summary, and the longest wait.
#[derive(Clone, Copy)]
pub struct Counts {
    pub accepted: u64,
    pub refused: u64,
    // accepted crits and exits
    pub entries: u64,
    pub exits: u64,
    // from a try to its crit, unused time alone
    pub longest: u64,
}

// [5.10] What process p, from 1, has waited so far has the place p - 1.
#[derive(Clone, Copy)]
pub struct Statistics {
    pub counts: Counts,
    pub waited: [u64; 96],
}

// [5.30] What a recorded step gives back: the outcome, and the summary brought up to date.
#[derive(Clone, Copy)]
pub struct Recorded {
    pub outcome: Outcome<Arrivals>,
    pub statistics: Statistics,
}
