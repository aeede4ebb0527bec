// What was accepted of a process, moved to the front of the lists of steps: by one step, by a block of steps, and by all steps of a run.
// As no more is kept than has been looked at, nothing is written over before it is read.
ghost use Rattle.std.specs.Prelude.{◌≡◌, [], ◌∷◌, ◌+◌, ◌≤◌, ◌<◌, length, take};
ghost use Rattle.model.specs.Tallies.{attempted};
ghost use Rattle.model.specs.Readings.{room};
ghost use Rattle.model.specs.Writings.{event_in, events_of};
ghost use Rattle.model.specs.Executions.{attempts_from};
ghost use Rattle.execution.specs.Steps.{lists_in, lists_after};
ghost use Rattle.execution.specs.Blocks.{attempts_by};
ghost use Rattle.accepted_log.specs.AcceptedLogs.{accepted_log};
ghost use Rattle.accepted_log.specs.Keeping.{Kept};

use execution::{Lists, Run};
use model::{Answer, Arrivals, State};

// [13.110] The step in place i, answered with a code, goes to place `kept` if it was accepted and is of the process.
fn keep(process: u64, code: u64, steps: &mut Lists, kept: usize, i: usize) -> usize
    requires { (kept ≤ i) × (i < room (lists_in steps.old)) }
    ensures { Kept (accepted_log process (attempted (event_in (lists_in steps.old) i) code ∷ []))
        kept result (lists_in steps.old) (lists_in steps.new) }
{
    if code != 0 {
        return kept;
    }
    if steps.processes[i] != process {
        return kept;
    }
    steps.times[kept] = steps.times[i];
    steps.actions[kept] = steps.actions[i];
    kept + 1
}

// [13.110] So with the steps from place `from` on, by the answers to them.
fn keep_block(
    process: u64,
    answers: &[Answer],
    steps: &mut Lists,
    kept: usize,
    from: usize,
) -> usize
    requires kept_le_from { kept ≤ from }
    requires answers_in_bounds { (from + length answers.now ≤ room (lists_in steps.old)) × (from + length answers.now ≤ 8187) }
    ensures { Kept (accepted_log process (attempts_by (lists_after from (lists_in steps.old)) answers.now))
        kept result (lists_in steps.old) (lists_in steps.new) }
{
    let mut size = kept;
    for (i, answer) in answers.iter().enumerate() {
        size = keep(process, answer.code, steps, size, from + i);
    }
    size
}

// [13.110] Takes the first `count` steps in the lists from a state on, and answers how many are kept.
pub(crate) fn keep_steps(
    process: u64,
    first: State<Arrivals>,
    steps: &mut Lists,
    count: usize,
) -> usize
    requires { count ≤ 8187 }
    ensures kept { Kept (accepted_log process (attempts_from first (take count (events_of (lists_in steps.old)))))
        0 result (lists_in steps.old) (lists_in steps.new) }
    ensures few { result ≤ 8187 }
{
    let mut run = Run::new(first);
    let mut kept: usize = 0;
    while let Some(block) = run.take_block(&steps.first(count)) {
        let from = run.taken - block;
        kept = keep_block(process, &run.answers[..block], steps, kept, from);
    }
    kept
}
