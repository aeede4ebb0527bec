// What processes wait for: the unused time of an action, whose waits it starts or ends, and going over the waits so far.
// Any numbers are taken: a wait so far that is not sound may wrap.
ghost use Rattle.std.specs.Prelude.{◌≡◌, ℕ, ◌+◌, ◌-◌, ◌^◌, ◌<◌, ◌≤◌, List, slice_index, unwrap_or};
ghost use Rattle.model.specs.Types.{Process};
ghost use Rattle.model.specs.Stages.{remainder};
ghost use Rattle.model.specs.Summaries.{clears, waited_on};
ghost use Rattle.statistics.specs.Waitings.{critical_past, others_before, may_wait, unused_beside, gains_of, stage_at};

use model::{Arrivals, State};
use rules::actions::{CRIT, EXIT, TRY, WITHDRAW};
use rules::stages::{CHECKING, CRITICAL, ENTERING, REMAINDER, SETTING, TESTING, stage_of};

// The lowest critical process past the acting one.
fn critical_past(state: State<Arrivals>, acting: u64) -> Option<u64>
    requires { acting ≤ 96 }
    ensures { unwrap_or result 0 ≡ critical_past acting state.processes }
{
    let past = &state.processes[acting as usize..];
    let place = past
        .iter()
        .position(|entry| stage_of(entry.location) == CRITICAL)?;
    Some(acting + 1 + place as u64)
}

// [5.75] The unused time of an accepted action, from the lowest critical process besides the acting one, which is critical itself
// before an exit.
// kept: (a) 0 where there is no such process, as in an answer [4.60] and in what a table's survey finds, which callers pass on
pub fn unused_time(others: u64, action: u64, clock: u64, time: u64) -> u64
    ensures { result ≡ unused_beside others action clock time }
{
    if others != 0 || action == EXIT {
        return 0;
    }
    time.saturating_sub(clock)
}

// [5.80] Whether a wait starts or ends.
pub fn does_clear(action: u64) -> bool
    ensures { result ≡ clears action }
{
    action == TRY || action == CRIT || action == WITHDRAW
}

// [5.80] For how much longer processes have waited, by their stages. Looked up, a wait so far takes five instructions, whatever the
// stage.
pub fn gains_of(unused: u64) -> [u64; 8]
    ensures { result ≡ gains_of unused }
{
    let mut gains = [0; 8];
    gains[TESTING as usize] = unused;
    gains[SETTING as usize] = unused;
    gains[CHECKING as usize] = unused;
    gains[ENTERING as usize] = unused;
    gains
}

// [5.80] Whose stages are read, wherever they lie.
pub trait Stages {
    ghost entries: { Self → List Process };

    // How many entries come first that may be of processes: whoever is past them is in the remainder and waits for nothing.
    fn count(&self) -> usize
        ensures most { result ≤ 96 }
        ensures rest { (i : ℕ) → result ≤ i → stage_at (entries self.now) i ≡ remainder };

    // That of an entry; the remainder where there is none.
    fn stage(&self, i: usize) -> u64
        ensures { result ≡ stage_at (entries self.now) i };
}

// A state that has nobody but in the remainder past its n processes.
#[derive(Clone, Copy)]
struct StagesOf<'a> {
    state: &'a State<Arrivals>,
    ghost few: { state.now.parameters.n ≤ 96 },
    ghost rest: { (i : ℕ) → state.now.parameters.n ≤ i → stage_at state.now.processes i ≡ remainder },
}

impl<'a> Stages for StagesOf<'a> {
    ghost entries = { λ s. s.state.now.processes };

    fn count(&self) -> usize {
        self.state.parameters.n as usize
    }

    fn stage(&self, i: usize) -> u64 {
        if 96 <= i {
            return REMAINDER;
        }
        stage_of(self.state.processes[i].location)
    }
}

// [5.80] The waits so far of all processes once those who are trying have waited for `unused` more.
pub fn wait_on<S: Stages>(waited: &mut [u64; 96], unused: u64, stages: &S)
    ensures { ((i : ℕ) → slice_index waited.old i + unused < 2 ^ 64)
        → waited.new ≡ waited_on unused (S.entries stages.now) waited.old }
{
    let gains = gains_of(unused);
    // the compiler is told that no place is past 96, and `stage` need not ask
    let count = stages.count().min(96);
    for i in 0..count {
        waited[i] = waited[i].wrapping_add(gains[stages.stage(i) as usize]);
    }
}

// [5.75] Whether an accepted action may have unused time, by who is `named` in the answer to it: after any action but a crit and an exit
// the answer names the lowest process that was critical before it.
pub(crate) fn may_wait(named: u64, action: u64, clock: u64, time: u64) -> bool
    ensures { result ≡ may_wait named action clock time }
{
    clock < time && action != EXIT && (action == CRIT || named == 0)
}

// [5.75] [5.80] Adds the unused time of an accepted action to the waits so far, and gives it back; `state` is the one after the action, and
// `clock` that of the one before. Only after a crit that names its own process the others have to be looked at.
pub(crate) fn wait_after(
    waited: &mut [u64; 96],
    state: State<Arrivals>,
    named: u64,
    action: u64,
    acting: u64,
    clock: u64,
) -> u64
    requires acting_bound { acting ≤ 96 }
    requires n_bound { state.parameters.n ≤ 96 }
    requires rest { (i : ℕ) → state.parameters.n ≤ i → stage_at state.processes i ≡ remainder }
    requires fits { (i : ℕ) → slice_index waited.old i + (state.clock - clock) < 2 ^ 64 }
    ensures unused { result ≡ unused_beside (others_before named state.processes action acting) action clock state.clock }
    ensures added { waited.new ≡ waited_on result state.processes waited.old }
{
    let mut others = named;
    if action == CRIT && named == acting {
        others = critical_past(state, acting).unwrap_or(0);
    }
    let unused = unused_time(others, action, clock, state.clock);
    if unused != 0 {
        wait_on(waited, unused, &StagesOf { state: &state });
    }
    unused
}
