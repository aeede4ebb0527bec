// The lines of the steps: one pass that judges and counts them, and one that stores them. `first` is the line of the first step.
ghost use Rattle.std.specs.Prelude.{◌≡◌, ◌≤◌, ◌<◌, length};
ghost use Rattle.model.specs.Readings.{body_of, lists, room, stored};
ghost use Rattle.trace.specs.Passes.{counted_of};

use crate::lines::event_at;
use model::{Event, Fault, Parsed};

// [6.50] [6.55] [6.90] [21.100] How many steps s holds; or the refusal of its first line that is no step.
pub(crate) fn count_events(s: &[u8], first: u64) -> Result<usize, Fault>
    requires first_nonzero { 0 < first }
    requires first_bound { first ≤ 65536 }
    ensures { result ≡ counted_of (body_of first s.now) }
{
    let mut rest = s;
    let mut count: usize = 0;
    while !rest.is_empty() {
        let Parsed { size, .. } = event_at(rest, first + (count as u64))?;
        rest = &rest[size..];
        count += 1;
    }
    Ok(count)
}

// [6.130] [6.136] Stores the steps of s, and answers as `count_events` does.
pub(crate) fn store_events(
    s: &[u8],
    first: u64,
    times: &mut [u64],
    processes: &mut [u64],
    actions: &mut [u64],
) -> Result<usize, Fault>
    requires first_nonzero { 0 < first }
    requires first_bound { first ≤ 65536 }
    requires s_len_bound { length (body_of first s.now).events ≤ room (lists times.old processes.old actions.old) }
    ensures value { result ≡ counted_of (body_of first s.now) }
    ensures actions_value { lists times.new processes.new actions.new
        ≡ stored (body_of first s.now).events (lists times.old processes.old actions.old) }
{
    let mut rest = s;
    let mut count: usize = 0;
    while !rest.is_empty() {
        let Parsed { value: event, size } = event_at(rest, first + (count as u64))?;
        let Event {
            time,
            process,
            action,
        } = event;
        times[count] = time;
        processes[count] = process;
        actions[count] = action;
        rest = &rest[size..];
        count += 1;
    }
    Ok(count)
}
