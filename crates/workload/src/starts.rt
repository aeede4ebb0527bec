// The state that a case starts from.
ghost use Rattle.std.specs.Prelude.{◌≡◌, ◌<◌};
ghost use Rattle.workload.specs.Work.{limit_in, limit_for, limits_for, parameters_in, word_in};
ghost use Rattle.workload.specs.Work.{only_in, mixed_in, placed_in, location_in, start_in};

use crate::kinds::{Kind, size_of};
use machine::entry_at;
use model::{Arrivals, Location, Parameters, State};
use rules::stages::location_at;
use std::array;

// The case whose n is 97.
const UNSOUND_COUNT: u64 = 94;

// The a of a process, by the place of its entry: 0 past the processes. In the wide limits nobody is late in 999,000 acts.
#[tactic(auto, unfolding(crate::specs::Work::limit_for))]
fn limit_of(case: u64, place: u64) -> u64
    requires { place < 96 }
    ensures { result ≡ limit_for case place }
{
    if size_of(case) <= place {
        return 0;
    }
    match Kind::of(case) {
        Kind::Unequal => 999999 - place,
        Kind::Moving | Kind::MixedMoving | Kind::Selling => 1000000,
        _ => 5,
    }
}

fn limits_of(case: u64) -> [u64; 96]
    ensures { result ≡ limits_for case 96 }
{
    array::from_fn(|place| limit_of(case, place as u64))
}

#[tactic(auto, unfolding(crate::specs::Work::parameters_in))]
fn parameters_of(case: u64) -> Parameters
    ensures { result ≡ parameters_in case }
{
    let (b, c) = if Kind::of(case).is_moving() {
        (1000001, 2000000)
    } else {
        (8, 12)
    };
    Parameters {
        n: if case == UNSOUND_COUNT {
            97
        } else {
            size_of(case)
        },
        b,
        c,
        a: limits_of(case),
    }
}

fn word_of(kind: Kind) -> u64
    ensures { result ≡ word_in kind }
{
    match kind {
        Kind::Busy | Kind::BusyLate | Kind::BusyUnsound | Kind::Mixed => 1,
        _ => kind.is_moving() as u64,
    }
}

fn only(place: u64, chosen: u64, time: u64) -> Location<u64>
    ensures { result ≡ only_in place chosen time }
{
    if place == chosen {
        Location::Testing(time)
    } else {
        Location::Remainder
    }
}

// In the six timed locations in turn.
fn mixed(place: u64) -> Location<u64>
    ensures { result ≡ mixed_in place }
{
    location_at(place % 6 + 1 + place % 6 / 4, 0)
}

// Where one of so many processes is, by the place of its entry.
fn placed(kind: Kind, size: u64, place: u64) -> Location<u64>
    requires { place < size }
    ensures { result ≡ placed_in kind size place }
{
    match kind {
        Kind::Late => only(place, 0, 0),
        Kind::Unsound => only(place + 1, size, 9),
        Kind::UnsoundFirst => only(place, 0, 9),
        Kind::BusyUnsound if place + 1 == size => Location::Testing(9),
        Kind::Selling if place == 0 => Location::Critical,
        Kind::Busy | Kind::BusyLate | Kind::BusyUnsound => Location::Testing(0),
        Kind::Moving | Kind::Selling | Kind::Unequal => Location::Testing(0),
        Kind::Mixed | Kind::MixedMoving => mixed(place),
        Kind::Idle | Kind::Accepted | Kind::OutOfPlace => Location::Remainder,
    }
}

#[tactic(auto, unfolding(crate::specs::Work::location_in))]
fn location_of(case: u64, place: u64) -> Location<u64>
    ensures { result ≡ location_in case place }
{
    let size = size_of(case);
    if size <= place {
        return Location::Remainder;
    }
    placed(Kind::of(case), size, place)
}

// The state that a case starts from.
#[tactic(auto, unfolding(crate::specs::Work::start_in))]
pub fn state_of(case: u64) -> State<Arrivals>
    ensures { result ≡ start_in case }
{
    State {
        parameters: parameters_of(case),
        clock: 0,
        word: word_of(Kind::of(case)),
        processes: array::from_fn(|place| entry_at(location_of(case, place as u64))),
    }
}
