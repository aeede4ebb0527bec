// The kinds of cases, and how many processes a case has.
ghost use Rattle.std.specs.Prelude.{◌≡◌};
ghost use Rattle.workload.specs.Work.{size_in, kind_in, is_moving};

// What a case measures.
#[derive(Clone, Copy, PartialEq, Eq)]
pub(crate) enum Kind {
    // On an idle table: a wait that is accepted.
    Idle,
    // Rounds of accepted acts; process 1 is late; the last process came after the clock.
    Accepted,
    Late,
    Unsound,
    // The same on a busy one: all are testing and the word is held, so that an accepted test leads back to testing.
    Busy,
    BusyLate,
    BusyUnsound,
    // All are in the six timed locations in turn, and an accepted wait leaves the clock as it is.
    Mixed,
    // On an idle table again: an act is out of place; process 1 came after the clock.
    OutOfPlace,
    UnsoundFirst,
    // With wide limits, where each act moves the clock: a test of process 1 as in Busy; a wait as in Mixed; a test of process 2 as in Busy,
    // while process 1 is critical; a test as in Moving, where no two processes have the same a.
    Moving,
    MixedMoving,
    Selling,
    Unequal,
}

impl Kind {
    // That of a case; 10 and 14 are kinds of `bench/cases.rs` alone.
    pub(crate) fn of(case: u64) -> Kind
        ensures { result ≡ kind_in case }
    {
        match case / 10 {
            0 | 10 => Kind::Idle,
            1 => Kind::Accepted,
            2 => Kind::Late,
            3 => Kind::Unsound,
            4 => Kind::Busy,
            5 => Kind::BusyLate,
            6 => Kind::BusyUnsound,
            7 => Kind::Mixed,
            8 => Kind::OutOfPlace,
            9 => Kind::UnsoundFirst,
            12 => Kind::MixedMoving,
            13 => Kind::Selling,
            15 => Kind::Unequal,
            _ => Kind::Moving,
        }
    }

    // Whether its limits are wide, and each act moves the clock.
    pub(crate) fn is_moving(self) -> bool
        ensures { result ≡ is_moving self }
    {
        matches!(
            self,
            Kind::Moving | Kind::MixedMoving | Kind::Selling | Kind::Unequal
        )
    }
}

// How many processes a case has, by its last digit.
pub(crate) fn size_of(case: u64) -> u64
    ensures { result ≡ size_in case }
{
    match case % 10 {
        1 => 2,
        2 => 24,
        _ => 96,
    }
}
