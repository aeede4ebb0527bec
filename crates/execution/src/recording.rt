// The steps of a recording: the lists that have room for those of any, and some of the steps in them, which are lent and not copied.
ghost use Rattle.std.specs.Prelude.{◌≡◌, ◌≤◌, length, min};

use model::Event;

// [9.115] No recording has more steps: 65,536 bytes less those of the first lines, eight a step.
pub const MOST_STEPS: usize = 8187;

// [6.130] [9.115] Room for the steps of any recording: each list has a place for each step.
// kept: three lists and no array of steps, as C lends them to `funnelfawn_read` and [6.130] has them.
#[derive(Drop)]
pub struct Lists {
    pub times: [u64; MOST_STEPS],
    pub processes: [u64; MOST_STEPS],
    pub actions: [u64; MOST_STEPS],
}

// [6.130] Some of the steps in them.
#[derive(Clone, Copy)]
pub struct Steps<'a> {
    times: &'a [u64],
    processes: &'a [u64],
    actions: &'a [u64],
    ghost processes_len: { length processes.now ≡ length times.now },
    ghost actions_len: { length actions.now ≡ length times.now },
    ghost few: { length times.now ≤ 8187 },
}

impl Lists {
    ghost use Rattle.grammar.specs.RoundTrips.{first_of};
    ghost use Rattle.execution.specs.Steps.{fresh_lists, lists_in, lists_of};

    // All zeros.
    pub fn new() -> Lists
        ensures { lists_in result ≡ fresh_lists }
    {
        Lists {
            times: [0; MOST_STEPS],
            processes: [0; MOST_STEPS],
            actions: [0; MOST_STEPS],
        }
    }

    // The first `count` steps, or all where there are fewer.
    pub fn first(&self, count: usize) -> Steps<'_>
        ensures steps { lists_of result ≡ first_of count (lists_in self.now) }
        ensures len { length result.times.now ≡ min count 8187 }
    {
        let count = count.min(MOST_STEPS);
        Steps {
            times: &self.times[..count],
            processes: &self.processes[..count],
            actions: &self.actions[..count],
        }
    }
}

impl<'a> Steps<'a> {
    ghost use Rattle.model.specs.Texts.{event};
    ghost use Rattle.model.specs.Writings.{event_in};
    ghost use Rattle.execution.specs.Steps.{lists_after, lists_of};

    // The steps after the first `count`; none where there are not so many.
    pub fn after(&self, count: usize) -> Steps<'a>
        ensures { lists_of result ≡ lists_after count (lists_of self.now) }
    {
        let count = count.min(self.len());
        Steps {
            times: &self.times[count..],
            processes: &self.processes[count..],
            actions: &self.actions[count..],
        }
    }

    pub fn len(&self) -> usize
        ensures { result ≡ length self.now.times.now }
    {
        self.times.len()
    }

    // The step at place i; zeros where there is none.
    pub fn at(&self, i: usize) -> Event
        ensures { event result.time result.process result.action ≡ event_in (lists_of self.now) i }
    {
        if self.len() <= i {
            return Event {
                time: 0,
                process: 0,
                action: 0,
            };
        }
        Event {
            time: self.times[i],
            process: self.processes[i],
            action: self.actions[i],
        }
    }
}
