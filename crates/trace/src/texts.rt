// The text of a recording: which of its steps has no form, how many bytes it takes, and putting it into an output.
ghost use Rattle.std.specs.Prelude.{◌≡◌, [], ◌∷◌, ◌*◌, ◌≤◌, length};
ghost use Rattle.model.specs.Texts.{event, has_form, numbers_text, limits_text, event_text, head_text, events_text, trace_text};
ghost use Rattle.model.specs.Readings.{lent};
ghost use Rattle.model.specs.Writings.{events_of, formless_from};
ghost use Rattle.text.specs.Puts.{Put};
ghost use Rattle.trace.specs.Passes.{PutSized};

use model::Parameters;
use text::fields::{NUMBER_BOUND, TIME_BOUND};
use text::numbers::put_numbers;
use text::puts::{put_number, put_text, put_word};
use text::words::COUNT;

// [6.160]
fn has_form(time: u64, process: u64, action: u64) -> bool
    ensures { result ≡ has_form (event time process action) }
{
    time < TIME_BOUND && process < NUMBER_BOUND && action < COUNT
}

// [6.170] The line of the first step that has no form, where the first step has the line `first`; or that there is none.
pub(crate) fn formless(first: u64, times: &[u64], processes: &[u64], actions: &[u64]) -> Option<u64>
    requires { first ≤ 65536 }
    ensures { result ≡ formless_from first (events_of (lent times.entry processes.entry actions.entry)) }
{
    let count = times.len().min(processes.len().min(actions.len()));
    for i in 0..count {
        if !has_form(times[i], processes[i], actions[i]) {
            return Some(first + (i as u64));
        }
    }
    None
}

// [6.34] The line of a process. The place is a u32 so that no sum of places overflows.
fn put_limit(out: &mut [u8], at: u32, process: u64, limit: u64) -> usize
    ensures put { Put out.old out.new at (numbers_text process (limit ∷ [])) result }
    ensures upper_bound { result ≤ 42 }
{
    put_numbers(out, at, process, &[limit])
}

// [6.34] The lines of a, from place `at` on.
fn put_limits(out: &mut [u8], at: usize, a: &[u64]) -> usize
    requires { (at ≤ 65536) × (length a.now ≤ 96) }
    ensures put { Put out.old out.new at (limits_text 1 a.now) result }
    ensures upper_bound { result ≤ 42 * length a.now }
{
    let mut size: usize = 0;
    for (i, limit) in a.iter().enumerate() {
        size += put_limit(out, (at + size) as u32, (i as u64) + 1, *limit);
    }
    size
}

// [6.20] [6.30] [6.32] [6.34] [6.40] The first lines: three of names, of 12, 9 and 16 bytes, three numbers, and two more for each process.
fn put_head(out: &mut [u8], parameters: Parameters) -> usize
    requires { parameters.n ≤ 96 }
    ensures put { Put out.old out.new 0 (head_text parameters) result }
    ensures upper_bound { result ≤ 4132 }
{
    let rest = [parameters.b, parameters.c];
    let a = parameters.a;
    let count = parameters.n as usize;
    let i = put_text(out, 0, b"windows,b,c\n");
    let j = put_numbers(out, i as u32, parameters.n, &rest);
    let k = put_text(out, i + j, b"window,a\n");
    let l = put_limits(out, i + j + k, &a[..count]);
    let m = put_text(out, i + j + k + l, b"time,window,act\n");
    i + (j + (k + (l + m)))
}

// [6.50] The line of a step. The place is a u32 so that no sum of places overflows.
fn put_event(out: &mut [u8], at: u32, time: u64, process: u64, action: u64) -> usize
    ensures put { Put out.old out.new at (event_text (event time process action)) result }
    ensures upper_bound { result ≤ 64 }
{
    let start = at as usize;
    let i = put_number(out, start, time, b',');
    let j = put_number(out, start + i, process, b',');
    let k = put_word(out, start + i + j, action);
    i + (j + k)
}

// [4.15] [21.100] Puts the lines of the steps from place `start` on, where the text has come to, and answers where they end, if that is not
// past 65,536 bytes.
fn put_events(
    out: &mut [u8],
    start: usize,
    times: &[u64],
    processes: &[u64],
    actions: &[u64],
) -> Option<usize>
    requires { start ≤ 65536 }
    ensures { PutSized out.old out.new start
        (events_text (events_of (lent times.entry processes.entry actions.entry))) result }
{
    let count = times.len().min(processes.len().min(actions.len()));
    let mut at = start;
    for i in 0..count {
        at += put_event(out, at as u32, times[i], processes[i], actions[i]);
        if 65536 < at {
            return None;
        }
    }
    Some(at)
}

// [4.15] [21.100] Puts the text of a recording, and answers how many bytes it has, if they are no more than 65,536. What a text that is too long
// leaves is not told.
pub(crate) fn put_trace(
    out: &mut [u8],
    parameters: Parameters,
    times: &[u64],
    processes: &[u64],
    actions: &[u64],
) -> Option<usize>
    requires { parameters.n ≤ 96 }
    ensures { PutSized out.old out.new 0
        (trace_text parameters (events_of (lent times.entry processes.entry actions.entry))) result }
{
    let head = put_head(out, parameters);
    put_events(out, head, times, processes, actions)
}
