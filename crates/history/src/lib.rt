// Whole lists of calls, each of which gets the state that the call before it gave back. The calls are rows of numbers, in slices of
// arrays, so that a caller can lend any list; the shortest slice sets their number.
#![tactic(auto)]

pub mod rows;

ghost use Rattle.std.specs.Prelude.{◌≡◌, ◌==◌, not};
ghost use Rattle.model.specs.Answers.{fresh_of};
ghost use Rattle.model.specs.Facts.{Accepted};
ghost use Rattle.model.specs.Calls.{call_of};
ghost use Rattle.tallies.specs.Tallies.{Tallied};
ghost use Rattle.history.specs.Lists.{call_in_row, lent_rows, run_gave, ran_of, is_recorded, MeetsDemand3};
ghost use Rattle.history.specs.RecordedRuns.{log_in, recorded_run_gave, recorded_run_of};

use crate::rows::{summary_in, tuple_of};
use machine::{fresh, step};
use model::{Arrivals, Outcome, Parameters, Recorded, State, Statistics};
use statistics::{new_statistics, record_step};

// [8.20] [8.30] The kinds of a call: one that counts nothing, and one that is lent a summary.
#[derive(Clone, Copy)]
enum Kind {
    Step,
    Recorded,
}

// [8.150]
impl From<u64> for Kind {
    ghost from_gives = { λ number kind. is_recorded kind ≡ not (number == 0) };

    fn from(number: u64) -> Kind {
        match number {
            0 => Kind::Step,
            _ => Kind::Recorded,
        }
    }
}

// [8.20] [8.30] One call, with the summary that it is lent.
fn make_call(state: State<Arrivals>, row: [u64; 4], mut lent: Statistics) -> Recorded
    ensures { result ≡ call_of state (call_in_row row lent) }
{
    let [kind, action, process, time] = row;
    let outcome = match Kind::from(kind) {
        Kind::Step => step(state, action, process, time),
        Kind::Recorded => record_step(state, &mut lent, action, process, time),
    };
    Recorded {
        outcome,
        statistics: lent,
    }
}

// [8.40] [8.130] [8.135] [8.150] [8.152] [8.154] [8.156] [8.158] [21.110] A whole list of calls from a fresh table. The answer is that
// of `fresh`, the state that of the last call. Each call's summary is lent in its row, brought up to date there, and its answer stored;
// the contract is demand 3. The rows are stored by index, since of what a loop writes through a zip of `iter_mut` a contract tells only the length.
pub fn run(
    parameters: Parameters,
    calls: &[[u64; 4]],
    counts: &mut [[u64; 5]],
    waited: &mut [[u64; 96]],
    answers: &mut [[u64; 3]],
) -> Outcome<Arrivals>
    ensures equals { run_gave result (lent_rows counts.exit waited.exit answers.exit)
        ≡ ran_of parameters calls.now (lent_rows counts.entry waited.entry answers.entry) }
    ensures demand3 { MeetsDemand3 parameters calls.now (lent_rows counts.entry waited.entry answers.entry)
        (lent_rows counts.exit waited.exit answers.exit) result.state }
{
    let Outcome { answer, mut state } = fresh(parameters);
    let count = calls
        .len()
        .min(counts.len())
        .min(waited.len())
        .min(answers.len());
    for i in 0..count {
        let summary = summary_in(counts[i], waited[i]);
        let Recorded {
            outcome,
            statistics: left,
        } = make_call(state, calls[i], summary);
        let left_waited = left.waited;
        counts[i] = tuple_of(left.counts);
        waited[i] = left_waited;
        answers[i] = <[u64; 3]>::from(outcome.answer);
        state = outcome.state;
    }
    Outcome { answer, state }
}

// [5.120] [5.125] [5.130] [8.160] [8.162] [8.164] [21.110] Recorded steps from a fresh table, all lent one summary that is new at first.
// The answer is that of `fresh`, the state and the summary those after the last step; the contract has the tally of the acts and their answers.
pub fn run_recorded(parameters: Parameters, acts: &[[u64; 3]], answers: &mut [[u64; 3]]) -> Recorded
    ensures equals { recorded_run_gave result answers.new ≡ recorded_run_of parameters acts.now answers.old }
    ensures tallied { Accepted (fresh_of parameters) → Tallied (log_in acts.now answers.new) result }
{
    let start = fresh(parameters);
    let mut outcome = start;
    let mut statistics = new_statistics();
    let count = acts.len().min(answers.len());
    for i in 0..count {
        let [action, process, time] = acts[i];
        outcome = record_step(outcome.state, &mut statistics, action, process, time);
        answers[i] = <[u64; 3]>::from(outcome.answer);
    }
    let answer = start.answer;
    let state = outcome.state;
    Recorded {
        outcome: Outcome { answer, state },
        statistics,
    }
}
