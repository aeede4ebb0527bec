// The intervals in which processes were critical, out of a recording: it is run, and there is a line for each accepted crit. As at most
// one process is critical at a time, a crit begins a line and the next exit ends it, so that one pass over the steps writes the text.
#![tactic(auto)]

mod parts;

ghost use Rattle.std.specs.Prelude.{◌≡◌, ◌≤◌, length};
ghost use Rattle.model.specs.Writings.{write_gave, fitted};
ghost use Rattle.execution.specs.Steps.{steps_of};
ghost use Rattle.intervals.specs.Intervals.{write_intervals_of};
ghost use Rattle.intervals.specs.Parts.{pass_text};

use crate::parts::put_run;
use execution::{Lists, Steps, start};
use model::{Answer, Arrivals, Refusal, State};

// [11.50] [11.60] Writes the text for the steps from a state on. `enough` bytes have room for the text; for a shorter output it is measured
// first, by a run that puts nothing, so that an output that is too short stays as it was.
fn write_run(out: &mut [u8], enough: usize, first: State<Arrivals>, steps: &Steps) -> Answer
    requires { length (pass_text first (steps_of steps.now)) ≤ enough }
    ensures { write_gave result out.new ≡ fitted (pass_text first (steps_of steps.now)) out.old }
{
    if out.len() < enough {
        let needed = put_run(&mut out[..0], first, steps);
        if out.len() < needed {
            return Answer::from(Refusal::ShortOutput);
        }
    }
    let size = put_run(out, first, steps);
    Answer::accepted(0, size as u64)
}

// [11.50] [11.55] [11.60] [11.65] [21.110] Writes the intervals of a recording. Their text is never longer than the recording.
pub fn write_intervals(text: &[u8], out: &mut [u8]) -> Answer
    ensures { write_gave result out.new ≡ write_intervals_of text.now out.old }
{
    let mut lists = Lists::new();
    let started = match start(
        text,
        &mut lists.times,
        &mut lists.processes,
        &mut lists.actions,
    ) {
        Ok(started) => started,
        Err(fault) => {
            return Answer::refused(fault.refusal, 0, fault.line);
        }
    };
    let steps = lists.first(started.found.steps);
    write_run(out, text.len(), started.state, &steps)
}
