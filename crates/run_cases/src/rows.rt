// The cases of section 20 of the specification: one table, proved to be what the definitions of `model` give, and the call that a row of
// it makes. The program runs the same table.
ghost use Rattle.std.specs.Prelude.{◌≡◌};
ghost use Rattle.model.specs.Answers.{blank};
ghost use Rattle.run_cases.specs.Cases.{limits_with, parameters_with, called_of, Hold};

use crate::calls::Call::{Fresh, Step};
use crate::calls::Told::{Accepted, Refused};
use crate::calls::{Asked, Call, Row};
use model::Location::{
    Checking, Critical, Entering, Leaving, Remainder, Resetting, Setting, Testing,
};
use model::Refusal::{
    Backward, BadCount, BadLimits, Early, EndOfClock, Late, NoAction, OutOfPlace,
};
use model::{Arrivals, Outcome, Parameters, State};
use rules::actions::{CHECK, CRIT, EXIT, RESET, SET, TEST, TRY, UNKNOWN, WAIT, WITHDRAW};
use rules::limits::LAST;
use values::limits::equal_limits;

// the most that c may be
const MOST: u64 = 10000000;

// what most cases ask for
const USUAL: Asked = Asked {
    n: 2,
    b: 8,
    c: 12,
    a: 5,
    own: None,
};

// what a refused fresh state gives back
const NOTHING: Asked = Asked {
    n: 0,
    b: 0,
    c: 0,
    a: 0,
    own: None,
};

// a and b as close as they may be
const CLOSE: Asked = Asked {
    b: 6,
    c: 6,
    ..USUAL
};

// process 2 may take long, and process 1 not; and the other way round
const SECOND_LONG: Asked = Asked {
    b: 8000,
    c: 12000,
    own: Some((2, 5000)),
    ..USUAL
};

const FIRST_LONG: Asked = Asked {
    own: Some((1, 5000)),
    ..SECOND_LONG
};

// the least a there may be, and an a as close to b as it may be
const FAR_APART: Asked = Asked {
    n: 2,
    b: 1001,
    c: 2000,
    a: 1,
    own: Some((2, 1000)),
};

// the values of a past 65,535
const PAST_16_BITS: Asked = Asked {
    n: 2,
    b: 200000,
    c: MOST,
    a: 131077,
    own: Some((2, 65546)),
};

// all as large as they may be
const LONGEST: Asked = Asked {
    n: 2,
    b: MOST,
    c: MOST,
    a: MOST - 1,
    own: None,
};

// process 2 has the higher a
const SECOND_HIGHER: Asked = Asked {
    own: Some((2, 7)),
    ..USUAL
};

// A row: the call; the answer, the parameters, the clock, the word, and where processes 1 and 2 are.
macro_rules! row {
    ($call:expr => $answer:expr, $parameters:expr, $clock:expr, $word:expr, $first:expr, $second:expr) => {
        Row {
            call: $call,
            answer: $answer,
            parameters: $parameters,
            clock: $clock,
            word: $word,
            first: $first,
            second: $second,
        }
    };
}

// A fresh row starts a case, and a step goes on from the state of the row before it. The row of a refused step has the state
// of the row before it again. The formatter is kept off, as it would give each call of the macro many lines.
#[rattlefmt::skip]
static CASES: [Row; 134] = [
    // [20.10] as many processes as there may be
    row!(Fresh(Asked { n: 96, ..USUAL }) => Accepted(0, 0), Asked { n: 96, ..USUAL }, 0, 0, Remainder, Remainder),
    // [20.10] none, and one too many
    row!(Fresh(Asked { n: 0, ..USUAL }) =>  Refused(BadCount, 0, 0), NOTHING, 0, 0, Remainder, Remainder),
    row!(Fresh(Asked { n: 97, ..USUAL }) => Refused(BadCount, 0, 0), NOTHING, 0, 0, Remainder, Remainder),
    // [20.20] a and b as close as they may be
    row!(Fresh(CLOSE) => Accepted(0, 0), CLOSE, 0, 0, Remainder, Remainder),
    // [20.20] a and b equal
    row!(Fresh(Asked { b: 5, c: 6, ..USUAL }) => Refused(BadLimits, 0, 0), NOTHING, 0, 0, Remainder, Remainder),
    // [20.30] a check just before its release, and at it
    row!(Fresh(USUAL) =>       Accepted(0, 0),        USUAL,  0, 0, Remainder,    Remainder),
    row!(Step(TRY, 1, 0) =>    Accepted(0, 0),        USUAL,  0, 0, Testing(0),   Remainder),
    row!(Step(TEST, 1, 3) =>   Accepted(0, 3),        USUAL,  3, 0, Setting(3),   Remainder),
    row!(Step(SET, 1, 8) =>    Accepted(0, 8),        USUAL,  8, 1, Checking(8),  Remainder),
    row!(Step(CHECK, 1, 15) => Refused(Early, 1, 16), USUAL,  8, 1, Checking(8),  Remainder),
    row!(Step(CHECK, 1, 16) => Accepted(0, 16),       USUAL, 16, 1, Entering(16), Remainder),
    // [20.40] a check just after its deadline, and at it
    row!(Fresh(USUAL) =>       Accepted(0, 0),       USUAL,  0, 0, Remainder,    Remainder),
    row!(Step(TRY, 1, 0) =>    Accepted(0, 0),       USUAL,  0, 0, Testing(0),   Remainder),
    row!(Step(TEST, 1, 3) =>   Accepted(0, 3),       USUAL,  3, 0, Setting(3),   Remainder),
    row!(Step(SET, 1, 8) =>    Accepted(0, 8),       USUAL,  8, 1, Checking(8),  Remainder),
    row!(Step(CHECK, 1, 21) => Refused(Late, 1, 20), USUAL,  8, 1, Checking(8),  Remainder),
    row!(Step(CHECK, 1, 20) => Accepted(0, 20),      USUAL, 20, 1, Entering(20), Remainder),
    // [20.50] to the clock's end, and past it
    row!(Fresh(CLOSE) =>            Accepted(0, 0),            CLOSE,    0, 0, Remainder, Remainder),
    row!(Step(WAIT, 0, LAST) =>     Accepted(0, LAST),         CLOSE, LAST, 0, Remainder, Remainder),
    row!(Step(WAIT, 0, LAST + 1) => Refused(EndOfClock, 0, 0), CLOSE, LAST, 0, Remainder, Remainder),
    // [20.60] 4 and 9 both hold, and 4 and 6
    row!(Fresh(USUAL) =>         Accepted(0, 0),          USUAL, 0, 0, Remainder, Remainder),
    row!(Step(WAIT, 0, 7) =>     Accepted(0, 7),          USUAL, 7, 0, Remainder, Remainder),
    row!(Step(WITHDRAW, 1, 6) => Refused(Backward, 0, 7), USUAL, 7, 0, Remainder, Remainder),
    row!(Step(UNKNOWN, 1, 6) =>  Refused(Backward, 0, 7), USUAL, 7, 0, Remainder, Remainder),
    // [20.70] 8 and 9 both hold
    row!(Fresh(USUAL) =>     Accepted(0, 0),      USUAL, 0, 0, Remainder,  Remainder),
    row!(Step(TRY, 1, 0) =>  Accepted(0, 0),      USUAL, 0, 0, Testing(0), Remainder),
    row!(Step(CRIT, 1, 6) => Refused(Late, 1, 5), USUAL, 0, 0, Testing(0), Remainder),
    // [20.80] of a fresh state, and after a set
    row!(Fresh(USUAL) =>     Accepted(0, 0), USUAL, 0, 0, Remainder,   Remainder),
    row!(Step(WAIT, 0, 0) => Accepted(0, 0), USUAL, 0, 0, Remainder,   Remainder),
    row!(Step(TRY, 1, 0) =>  Accepted(0, 0), USUAL, 0, 0, Testing(0),  Remainder),
    row!(Step(TEST, 1, 3) => Accepted(0, 3), USUAL, 3, 0, Setting(3),  Remainder),
    row!(Step(SET, 1, 8) =>  Accepted(0, 8), USUAL, 8, 1, Checking(8), Remainder),
    row!(Step(WAIT, 0, 8) => Accepted(0, 8), USUAL, 8, 1, Checking(8), Remainder),
    // [20.90]
    row!(Fresh(USUAL) =>    Accepted(0, 0),            USUAL, 0, 0, Remainder,  Remainder),
    row!(Step(TRY, 1, 0) => Accepted(0, 0),            USUAL, 0, 0, Testing(0), Remainder),
    row!(Step(TRY, 1, 1) => Refused(OutOfPlace, 1, 0), USUAL, 0, 0, Testing(0), Remainder),
    // [20.100] the process of 21 is the lowest
    row!(Fresh(USUAL) =>      Accepted(0, 0),       USUAL,  0, 0, Remainder,   Remainder),
    row!(Step(TRY, 1, 16) =>  Accepted(0, 16),      USUAL, 16, 0, Testing(16), Remainder),
    row!(Step(TRY, 2, 18) =>  Accepted(0, 18),      USUAL, 18, 0, Testing(16), Testing(18)),
    row!(Step(WAIT, 0, 24) => Refused(Late, 1, 21), USUAL, 18, 0, Testing(16), Testing(18)),
    // [20.100] the same with the processes exchanged: the process of 21 is not the lowest
    row!(Fresh(USUAL) =>      Accepted(0, 0),       USUAL,  0, 0, Remainder,   Remainder),
    row!(Step(TRY, 2, 16) =>  Accepted(0, 16),      USUAL, 16, 0, Remainder,   Testing(16)),
    row!(Step(TRY, 1, 18) =>  Accepted(0, 18),      USUAL, 18, 0, Testing(18), Testing(16)),
    row!(Step(WAIT, 0, 24) => Refused(Late, 2, 21), USUAL, 18, 0, Testing(18), Testing(16)),
    // [20.110] each step of the trace; the answers are those of the report
    row!(Fresh(USUAL) =>       Accepted(0, 0),           USUAL,  0, 0, Remainder,   Remainder),
    row!(Step(TRY, 1, 0) =>    Accepted(0, 0),           USUAL,  0, 0, Testing(0),  Remainder),
    row!(Step(TEST, 1, 3) =>   Accepted(0, 3),           USUAL,  3, 0, Setting(3),  Remainder),
    row!(Step(TRY, 2, 3) =>    Accepted(0, 3),           USUAL,  3, 0, Setting(3),  Testing(3)),
    row!(Step(TEST, 2, 4) =>   Accepted(0, 4),           USUAL,  4, 0, Setting(3),  Setting(4)),
    row!(Step(SET, 1, 8) =>    Accepted(0, 8),           USUAL,  8, 1, Checking(8), Setting(4)),
    row!(Step(SET, 2, 9) =>    Accepted(0, 9),           USUAL,  9, 2, Checking(8), Checking(9)),
    row!(Step(CHECK, 1, 15) => Refused(Early, 1, 16),    USUAL,  9, 2, Checking(8), Checking(9)),
    row!(Step(CHECK, 1, 16) => Accepted(0, 16),          USUAL, 16, 2, Testing(16), Checking(9)),
    row!(Step(CHECK, 2, 18) => Accepted(0, 18),          USUAL, 18, 2, Testing(16), Entering(18)),
    row!(Step(WAIT, 0, 24) =>  Refused(Late, 1, 21),     USUAL, 18, 2, Testing(16), Entering(18)),
    row!(Step(TEST, 1, 20) =>  Accepted(0, 20),          USUAL, 20, 2, Testing(20), Entering(18)),
    row!(Step(CRIT, 2, 20) =>  Accepted(2, 20),          USUAL, 20, 2, Testing(20), Critical),
    row!(Step(WAIT, 0, 19) =>  Refused(Backward, 0, 20), USUAL, 20, 2, Testing(20), Critical),
    // [20.200] from each location but testing
    row!(Fresh(USUAL) =>         Accepted(0, 0),            USUAL, 0, 0, Remainder,    Remainder),
    row!(Step(WITHDRAW, 1, 0) => Refused(OutOfPlace, 1, 0), USUAL, 0, 0, Remainder,    Remainder),
    row!(Step(TRY, 1, 0) =>      Accepted(0, 0),            USUAL, 0, 0, Testing(0),   Remainder),
    row!(Step(TEST, 1, 0) =>     Accepted(0, 0),            USUAL, 0, 0, Setting(0),   Remainder),
    row!(Step(WITHDRAW, 1, 0) => Refused(OutOfPlace, 1, 0), USUAL, 0, 0, Setting(0),   Remainder),
    row!(Step(SET, 1, 0) =>      Accepted(0, 0),            USUAL, 0, 1, Checking(0),  Remainder),
    row!(Step(WITHDRAW, 1, 0) => Refused(OutOfPlace, 1, 0), USUAL, 0, 1, Checking(0),  Remainder),
    row!(Step(CHECK, 1, 8) =>    Accepted(0, 8),            USUAL, 8, 1, Entering(8),  Remainder),
    row!(Step(WITHDRAW, 1, 8) => Refused(OutOfPlace, 1, 0), USUAL, 8, 1, Entering(8),  Remainder),
    row!(Step(CRIT, 1, 8) =>     Accepted(1, 8),            USUAL, 8, 1, Critical,     Remainder),
    row!(Step(WITHDRAW, 1, 8) => Refused(OutOfPlace, 1, 0), USUAL, 8, 1, Critical,     Remainder),
    row!(Step(EXIT, 1, 9) =>     Accepted(0, 9),            USUAL, 9, 1, Resetting(9), Remainder),
    row!(Step(WITHDRAW, 1, 9) => Refused(OutOfPlace, 1, 0), USUAL, 9, 1, Resetting(9), Remainder),
    row!(Step(RESET, 1, 9) =>    Accepted(0, 9),            USUAL, 9, 0, Leaving(9),   Remainder),
    row!(Step(WITHDRAW, 1, 9) => Refused(OutOfPlace, 1, 0), USUAL, 9, 0, Leaving(9),   Remainder),
    // [20.210]
    row!(Fresh(USUAL) =>        Accepted(0, 0),          USUAL, 0, 0, Remainder, Remainder),
    row!(Step(UNKNOWN, 1, 0) => Refused(NoAction, 0, 0), USUAL, 0, 0, Remainder, Remainder),
    // [20.220] a withdraw just after the deadline, and at it
    row!(Fresh(USUAL) =>         Accepted(0, 0),      USUAL, 0, 0, Remainder,  Remainder),
    row!(Step(TRY, 1, 0) =>      Accepted(0, 0),      USUAL, 0, 0, Testing(0), Remainder),
    row!(Step(WITHDRAW, 1, 6) => Refused(Late, 1, 5), USUAL, 0, 0, Testing(0), Remainder),
    row!(Step(WITHDRAW, 1, 5) => Accepted(0, 5),      USUAL, 5, 0, Remainder,  Remainder),
    // [20.230] process 1 has the word, and process 2 tries and withdraws at once
    row!(Fresh(USUAL) =>          Accepted(0, 0),  USUAL,  0, 0, Remainder,   Remainder),
    row!(Step(TRY, 1, 0) =>       Accepted(0, 0),  USUAL,  0, 0, Testing(0),  Remainder),
    row!(Step(TEST, 1, 3) =>      Accepted(0, 3),  USUAL,  3, 0, Setting(3),  Remainder),
    row!(Step(SET, 1, 8) =>       Accepted(0, 8),  USUAL,  8, 1, Checking(8), Remainder),
    row!(Step(TRY, 2, 10) =>      Accepted(0, 10), USUAL, 10, 1, Checking(8), Testing(10)),
    row!(Step(WITHDRAW, 2, 10) => Accepted(0, 10), USUAL, 10, 1, Checking(8), Remainder),
    // [20.240] the clock runs on
    row!(Fresh(USUAL) =>         Accepted(0, 0),  USUAL,  0, 0, Remainder,  Remainder),
    row!(Step(TRY, 1, 0) =>      Accepted(0, 0),  USUAL,  0, 0, Testing(0), Remainder),
    row!(Step(TRY, 2, 0) =>      Accepted(0, 0),  USUAL,  0, 0, Testing(0), Testing(0)),
    row!(Step(WITHDRAW, 1, 3) => Accepted(0, 3),  USUAL,  3, 0, Remainder,  Testing(0)),
    row!(Step(WITHDRAW, 2, 5) => Accepted(0, 5),  USUAL,  5, 0, Remainder,  Remainder),
    row!(Step(WAIT, 0, 50) =>    Accepted(0, 50), USUAL, 50, 0, Remainder,  Remainder),
    // [20.270] each is late after its own deadline: process 1 has the lower a
    row!(Fresh(SECOND_LONG) =>   Accepted(0, 0),         SECOND_LONG,    0, 0, Remainder,  Remainder),
    row!(Step(TRY, 1, 0) =>      Accepted(0, 0),         SECOND_LONG,    0, 0, Testing(0), Remainder),
    row!(Step(TRY, 2, 0) =>      Accepted(0, 0),         SECOND_LONG,    0, 0, Testing(0), Testing(0)),
    row!(Step(WAIT, 0, 6) =>     Refused(Late, 1, 5),    SECOND_LONG,    0, 0, Testing(0), Testing(0)),
    row!(Step(WITHDRAW, 1, 5) => Accepted(0, 5),         SECOND_LONG,    5, 0, Remainder,  Testing(0)),
    row!(Step(WAIT, 0, 5001) =>  Refused(Late, 2, 5000), SECOND_LONG,    5, 0, Remainder,  Testing(0)),
    row!(Step(TEST, 2, 5000) =>  Accepted(0, 5000),      SECOND_LONG, 5000, 0, Remainder,  Setting(5000)),
    // [20.270] the other way round
    row!(Fresh(FIRST_LONG) =>    Accepted(0, 0),         FIRST_LONG,    0, 0, Remainder,     Remainder),
    row!(Step(TRY, 1, 0) =>      Accepted(0, 0),         FIRST_LONG,    0, 0, Testing(0),    Remainder),
    row!(Step(TRY, 2, 0) =>      Accepted(0, 0),         FIRST_LONG,    0, 0, Testing(0),    Testing(0)),
    row!(Step(WAIT, 0, 6) =>     Refused(Late, 2, 5),    FIRST_LONG,    0, 0, Testing(0),    Testing(0)),
    row!(Step(WITHDRAW, 2, 5) => Accepted(0, 5),         FIRST_LONG,    5, 0, Testing(0),    Remainder),
    row!(Step(WAIT, 0, 5001) =>  Refused(Late, 1, 5000), FIRST_LONG,    5, 0, Testing(0),    Remainder),
    row!(Step(TEST, 1, 5000) =>  Accepted(0, 5000),      FIRST_LONG, 5000, 0, Setting(5000), Remainder),
    // [20.270] the least a there may be, and an a as close to b as it may be
    row!(Fresh(FAR_APART) =>     Accepted(0, 0),         FAR_APART,    0, 0, Remainder,  Remainder),
    row!(Step(TRY, 1, 0) =>      Accepted(0, 0),         FAR_APART,    0, 0, Testing(0), Remainder),
    row!(Step(TRY, 2, 0) =>      Accepted(0, 0),         FAR_APART,    0, 0, Testing(0), Testing(0)),
    row!(Step(WAIT, 0, 2) =>     Refused(Late, 1, 1),    FAR_APART,    0, 0, Testing(0), Testing(0)),
    row!(Step(WITHDRAW, 1, 1) => Accepted(0, 1),         FAR_APART,    1, 0, Remainder,  Testing(0)),
    row!(Step(WAIT, 0, 1001) =>  Refused(Late, 2, 1000), FAR_APART,    1, 0, Remainder,  Testing(0)),
    row!(Step(TEST, 2, 1000) =>  Accepted(0, 1000),      FAR_APART, 1000, 0, Remainder,  Setting(1000)),
    // [20.280] an a of its own, none, and one that is equal to b
    row!(Fresh(Asked { a: 7, own: Some((2, 1)), ..USUAL }) => Accepted(0, 0),           Asked { a: 7, own: Some((2, 1)), ..USUAL }, 0, 0, Remainder, Remainder),
    row!(Fresh(Asked { a: 7, own: Some((2, 0)), ..USUAL }) => Refused(BadLimits, 0, 0), NOTHING,                                    0, 0, Remainder, Remainder),
    row!(Fresh(Asked { a: 7, own: Some((2, 8)), ..USUAL }) => Refused(BadLimits, 0, 0), NOTHING,                                    0, 0, Remainder, Remainder),
    // [20.280] the a of a process past n is not 0
    row!(Fresh(Asked { own: Some((3, 5)), ..USUAL }) => Refused(BadLimits, 0, 0), NOTHING, 0, 0, Remainder, Remainder),
    // [20.280] as many processes as there may be, the last with an a of its own
    row!(Fresh(Asked { n: 96, own: Some((96, 7)), ..USUAL }) => Accepted(0, 0), Asked { n: 96, own: Some((96, 7)), ..USUAL }, 0, 0, Remainder, Remainder),
    // times past 65,535 and limits as large as they may be
    // [20.290] of the two times left the lower 16 bits would tell the other one first
    row!(Fresh(PAST_16_BITS) =>      Accepted(0, 0),           PAST_16_BITS,      0, 0, Remainder,       Remainder),
    row!(Step(TRY, 1, 0) =>          Accepted(0, 0),           PAST_16_BITS,      0, 0, Testing(0),      Remainder),
    row!(Step(TRY, 2, 0) =>          Accepted(0, 0),           PAST_16_BITS,      0, 0, Testing(0),      Testing(0)),
    row!(Step(WAIT, 0, 65547) =>     Refused(Late, 2, 65546),  PAST_16_BITS,      0, 0, Testing(0),      Testing(0)),
    row!(Step(WITHDRAW, 2, 65546) => Accepted(0, 65546),       PAST_16_BITS,  65546, 0, Testing(0),      Remainder),
    row!(Step(WAIT, 0, 131078) =>    Refused(Late, 1, 131077), PAST_16_BITS,  65546, 0, Testing(0),      Remainder),
    row!(Step(TEST, 1, 131077) =>    Accepted(0, 131077),      PAST_16_BITS, 131077, 0, Setting(131077), Remainder),
    // [20.290] the longest stay that there may be, just after its end, and at it
    row!(Fresh(LONGEST) =>          Accepted(0, 0),         LONGEST,    0, 0, Remainder,      Remainder),
    row!(Step(TRY, 1, 0) =>         Accepted(0, 0),         LONGEST,    0, 0, Testing(0),     Remainder),
    row!(Step(TEST, 1, 0) =>        Accepted(0, 0),         LONGEST,    0, 0, Setting(0),     Remainder),
    row!(Step(SET, 1, 0) =>         Accepted(0, 0),         LONGEST,    0, 1, Checking(0),    Remainder),
    row!(Step(WAIT, 0, MOST + 1) => Refused(Late, 1, MOST), LONGEST,    0, 1, Checking(0),    Remainder),
    row!(Step(CHECK, 1, MOST) =>    Accepted(0, MOST),      LONGEST, MOST, 1, Entering(MOST), Remainder),
    // [20.290] equal deadlines: the lower process came later, with a lower a
    row!(Fresh(SECOND_HIGHER) => Accepted(0, 0),      SECOND_HIGHER, 0, 0, Remainder,  Remainder),
    row!(Step(TRY, 2, 0) =>      Accepted(0, 0),      SECOND_HIGHER, 0, 0, Remainder,  Testing(0)),
    row!(Step(TRY, 1, 2) =>      Accepted(0, 2),      SECOND_HIGHER, 2, 0, Testing(2), Testing(0)),
    row!(Step(WAIT, 0, 8) =>     Refused(Late, 1, 7), SECOND_HIGHER, 2, 0, Testing(2), Testing(0)),
];

// [20.120] The table of cases. Each row's call gives back what the row tells; the state before the first row, a fresh one, is of no account.
pub(crate) fn table() -> &'static [Row; 134]
    ensures { Hold blank result.now }
{
    &CASES
}

// The same a for processes 1 to n, but another for a process that has its own.
#[tactic(auto, unfolding(crate::specs::Cases::limits_with))]
fn limits_with(n: u64, limit: u64, own: Option<(u64, u64)>) -> [u64; 96]
    ensures { result ≡ limits_with n limit own }
{
    let mut a = equal_limits(n, limit);
    if let Some((process, limit)) = own {
        let place = process.saturating_sub(1);
        if place < 96 {
            a[place as usize] = limit;
        }
    }
    a
}

// The parameters that a fresh state is asked for with.
fn parameters_with(asked: Asked) -> Parameters
    ensures { result ≡ parameters_with asked }
{
    Parameters {
        n: asked.n,
        b: asked.b,
        c: asked.c,
        a: limits_with(asked.n, asked.a, asked.own),
    }
}

// The call that a row makes, a step at the state that the row before it gave back.
#[tactic(auto, unfolding(crate::specs::Cases::called_of))]
pub(crate) fn call(state: State<Arrivals>, row: Row) -> Outcome<Arrivals>
    ensures { result ≡ called_of state row }
{
    match row.call {
        Fresh(asked) => machine::fresh(parameters_with(asked)),
        Step(action, process, time) => machine::step(state, action, process, time),
    }
}
