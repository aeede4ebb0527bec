// The accepted log of a process, out of a recording: the recording is run once, what was accepted of the process is moved to the front of the
// lists that were read, and goes from there to the lent ones if these have room for all of it.
#![tactic(auto)]

mod steps;

ghost use Rattle.std.specs.Prelude.{◌≡◌};
ghost use Rattle.accepted_log.specs.AcceptedLogs.{log_gave, read_accepted_of};

use crate::steps::keep_steps;
use execution::{Lists, start};
use model::{Answer, Refusal};

// [13.120] [13.125] [21.110] The times and actions of what was accepted of a process in a recording go to two lists.
pub fn read_accepted(text: &[u8], process: u64, times: &mut [u64], actions: &mut [u64]) -> Answer
    ensures { log_gave result times.new actions.new
        ≡ read_accepted_of text.now process times.old actions.old }
{
    let mut steps = Lists::new();
    let started = match start(
        text,
        &mut steps.times,
        &mut steps.processes,
        &mut steps.actions,
    ) {
        Ok(started) => started,
        Err(fault) => {
            return Answer::refused(fault.refusal, 0, fault.line);
        }
    };
    if process == 0 {
        return Answer::from(Refusal::NoProcess);
    }
    let n = started.found.parameters.n;
    if n < process {
        return Answer::from(Refusal::NoProcess);
    }
    let kept = keep_steps(process, started.state, &mut steps, started.found.steps);
    if times.len().min(actions.len()) < kept {
        return Answer::from(Refusal::ShortOutput);
    }
    times[..kept].copy_from_slice(&steps.times[..kept]);
    actions[..kept].copy_from_slice(&steps.actions[..kept]);
    Answer::accepted(0, kept as u64)
}
