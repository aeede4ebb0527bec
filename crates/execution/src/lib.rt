// A trace that is run: it is read into lists, and its steps are taken from a fresh state on, block by block. What prints or judges a trace by
// its answers stands on this.
#![tactic(auto)]

mod recording;
mod running;

ghost use Rattle.std.specs.Prelude.{◌≡◌};
ghost use Rattle.model.specs.Readings.{lent, lists};
ghost use Rattle.model.specs.Writings.{events_of};
ghost use Rattle.model.specs.Executions.{executed_gave, executed_of, start_gave, started_of};

pub use crate::recording::{Lists, MOST_STEPS, Steps};
pub use crate::running::Run;
use machine::{fresh, step};
use model::{Arrivals, Fault, Started, State};
use trace::scan;

// [7.46] [21.110] Reads a trace into three lists. A refusal tells the line that it is reported at, and then nothing is stored.
pub fn start(
    text: &[u8],
    times: &mut [u64],
    processes: &mut [u64],
    actions: &mut [u64],
) -> Result<Started, Fault>
    ensures { start_gave result (lists times.new processes.new actions.new)
        ≡ started_of text.now (lists times.old processes.old actions.old) }
{
    let found = scan(text, times, processes, actions)?;
    let made = fresh(found.parameters);
    let state = made.state;
    Ok(Started { found, state })
}

// [7.47] [21.110] Takes the steps in the lists from a state on, as many as the shortest of the lists and the rows.
pub fn run_steps(
    first: State<Arrivals>,
    times: &[u64],
    processes: &[u64],
    actions: &[u64],
    answers: &mut [[u64; 3]],
) -> State<Arrivals>
    ensures { executed_gave result answers.new
        ≡ executed_of first (events_of (lent times.entry processes.entry actions.entry)) answers.old }
{
    let count = times
        .len()
        .min(processes.len())
        .min(actions.len())
        .min(answers.len());
    let mut state = first;
    for i in 0..count {
        let outcome = step(state, actions[i], processes[i], times[i]);
        answers[i] = <[u64; 3]>::from(outcome.answer);
        state = outcome.state;
    }
    state
}
