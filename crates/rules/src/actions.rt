// The acts table: the numbers of the acts, and the rows as values.
ghost use Rattle.std.specs.Prelude.{◌≡◌};
ghost use Rattle.model.specs.Actions.{«row», after_test, after_check};
ghost use Rattle.rules.specs.Judging.{no_row, row_of};

use crate::stages::{
    CHECKING, CRITICAL, ENTERING, LEAVING, REMAINDER, RESETTING, SETTING, TESTING,
};
use model::{Location, Transition};

// kept: numbers, as C hands in any number for an act (`funnelfawn_step`), and [4.6] refuses one only past [4.1], [4.4] and [4.5]
// [3.0]
pub const WAIT: u64 = 0;

// [3.1]
pub const TRY: u64 = 1;

// [3.2]
pub const TEST: u64 = 2;

// [3.3]
pub const SET: u64 = 3;

// [3.4]
pub const CHECK: u64 = 4;

// [3.5]
pub const CRIT: u64 = 5;

// [3.6]
pub const EXIT: u64 = 6;

// [3.7]
pub const RESET: u64 = 7;

// [3.8]
pub const REM: u64 = 8;

// [3.9]
pub const WITHDRAW: u64 = 9;

// [3.40] the last act
pub const LAST_ACT: u64 = WITHDRAW;

// [3.40] the first number that is none
pub const UNKNOWN: u64 = LAST_ACT + 1;

fn row(from: u64, to: Location<u64>, word: u64) -> Transition
    ensures { result ≡ «row» from to word }
{
    Transition { from, to, word }
}

// For an act that has no row: a wait, which leaves no place, and an unknown one, which is refused.
fn no_row(word: u64) -> Transition
    ensures { result ≡ no_row word }
{
    row(REMAINDER, Location::Remainder, word)
}

// [3.2] Where a test leads.
#[tactic(auto, using(std::proofs::lemmas::Bool::Decides::nat_tests))]
fn tested(word: u64, time: u64) -> Location<u64>
    ensures { result ≡ after_test word time }
{
    if word == 0 {
        Location::Setting(time)
    } else {
        Location::Testing(time)
    }
}

// [3.4] Where a check leads.
#[tactic(auto, using(std::proofs::lemmas::Bool::Decides::nat_tests))]
fn checked(word: u64, process: u64, time: u64) -> Location<u64>
    ensures { result ≡ after_check word process time }
{
    if word == process {
        Location::Entering(time)
    } else {
        Location::Testing(time)
    }
}

// [3.40] [21.40] The row of an action, beside the word: every step decides by it.
#[tactic(auto, unfolding(crate::specs::Judging::row_of, model::specs::Actions::transition_of, model::specs::Acts::leaves))]
pub fn transition_of(action: u64, process: u64, time: u64, word: u64) -> Transition
    ensures { result ≡ row_of action process time word }
{
    match action {
        WAIT => no_row(word),
        TRY => row(REMAINDER, Location::Testing(time), word),
        TEST => row(TESTING, tested(word, time), word),
        SET => row(SETTING, Location::Checking(time), process),
        CHECK => row(CHECKING, checked(word, process, time), word),
        CRIT => row(ENTERING, Location::Critical, word),
        EXIT => row(CRITICAL, Location::Resetting(time), word),
        RESET => row(RESETTING, Location::Leaving(time), 0),
        REM => row(LEAVING, Location::Remainder, word),
        WITHDRAW => row(TESTING, Location::Remainder, word),
        UNKNOWN.. => no_row(word),
    }
}
