// The act of each step of a case.
ghost use Rattle.std.specs.Prelude.{◌≡◌};
ghost use Rattle.workload.specs.Work.{turn_in, lap_in, act_with, round_act, act_in};

use crate::kinds::{Kind, size_of};
use rules::actions::{REM, TEST, TRY, WAIT};

#[derive(Clone, Copy, PartialEq, Eq)]
pub struct Act {
    pub action: u64,
    pub process: u64,
    pub time: u64,
}

impl Act {
    fn new(action: u64, process: u64, time: u64) -> Act
        ensures { result ≡ act_with action process time }
    {
        Act {
            action,
            process,
            time,
        }
    }
}

// The process whose turn it is: each of them once in a lap.
fn turn_of(case: u64, i: u64) -> u64
    ensures { result ≡ turn_in case i }
{
    i % size_of(case) + 1
}

fn lap_of(case: u64, i: u64) -> u64
    ensures { result ≡ lap_in case i }
{
    i / size_of(case)
}

// Rounds of the eight actions of one process after the other.
fn round_act(case: u64, i: u64) -> Act
    ensures { result ≡ round_act case i }
{
    let turn = i % 16000;
    let round = turn / 8;
    let place = turn % 8;
    Act::new(
        TRY + place,
        turn_of(case, round),
        round * 20 + place + place / 3 * 8 - place / 6 * 8,
    )
}

#[tactic(auto, unfolding(crate::specs::Work::act_in))]
pub fn act_of(case: u64, i: u64) -> Act
    ensures { result ≡ act_in case i }
{
    match Kind::of(case) {
        Kind::Accepted => round_act(case, i),
        Kind::Busy => Act::new(TEST, turn_of(case, i), lap_of(case, i)),
        Kind::Mixed => Act::new(WAIT, 0, 0),
        Kind::OutOfPlace => Act::new(REM, 1, 0),
        Kind::Moving | Kind::Unequal => Act::new(TEST, 1, i),
        Kind::MixedMoving => Act::new(WAIT, 0, i),
        Kind::Selling => Act::new(TEST, 2, i),
        Kind::Idle
        | Kind::Late
        | Kind::Unsound
        | Kind::BusyLate
        | Kind::BusyUnsound
        | Kind::UnsoundFirst => Act::new(WAIT, 0, 1000),
    }
}
