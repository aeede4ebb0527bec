// The locations as numbers: the stage of each and what it carries of the time, and back.
ghost use Rattle.std.specs.Prelude.{◌≡◌};
ghost use Rattle.model.specs.States.{stage_of, time_of, since_of, location_at};

use model::Location;

// kept: numbers, as a lent table may hold any number for a stage ([9.10], `funnelfawn_step`), and [4.1] is what refuses it
// [2.70]
pub const REMAINDER: u64 = 0;

// [2.70]
pub const TESTING: u64 = 1;

// [2.70]
pub const SETTING: u64 = 2;

// [2.70]
pub const CHECKING: u64 = 3;

// [2.70]
pub const ENTERING: u64 = 4;

// [2.70]
pub const CRITICAL: u64 = 5;

// [2.70]
pub const RESETTING: u64 = 6;

// [2.70]
pub const LEAVING: u64 = 7;

// [2.70] In either engine.
pub fn stage_of<T: Copy>(location: Location<T>) -> u64
    ensures { result ≡ stage_of location }
{
    match location {
        Location::Remainder => REMAINDER,
        Location::Testing(_) => TESTING,
        Location::Setting(_) => SETTING,
        Location::Checking(_) => CHECKING,
        Location::Entering(_) => ENTERING,
        Location::Critical => CRITICAL,
        Location::Resetting(_) => RESETTING,
        Location::Leaving(_) => LEAVING,
    }
}

// [2.80] [12.10] What a timed location carries of the time; `other` where it carries nothing.
pub fn time_of<T: Copy>(other: T, location: Location<T>) -> T
    ensures { result ≡ time_of other location }
{
    match location {
        Location::Remainder | Location::Critical => other,
        Location::Testing(time)
        | Location::Setting(time)
        | Location::Checking(time)
        | Location::Entering(time)
        | Location::Resetting(time)
        | Location::Leaving(time) => time,
    }
}

// [2.80] The arrival; 0 where the location carries none.
pub fn since_of(location: Location<u64>) -> u64
    ensures { result ≡ since_of location }
{
    time_of(0, location)
}

// [2.70] [2.80] [12.10] The location of a stage and a time. A stage past leaving is taken for leaving: who may be given one looks at
// that first.
#[tactic(auto, using(std::proofs::lemmas::Bool::Decides::nat_tests))]
pub fn location_at<T: Copy>(stage: u64, time: T) -> Location<T>
    ensures { result ≡ location_at stage time }
{
    match stage {
        REMAINDER => Location::Remainder,
        TESTING => Location::Testing(time),
        SETTING => Location::Setting(time),
        CHECKING => Location::Checking(time),
        ENTERING => Location::Entering(time),
        CRITICAL => Location::Critical,
        RESETTING => Location::Resetting(time),
        LEAVING.. => Location::Leaving(time),
    }
}
