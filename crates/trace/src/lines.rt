// The fields of a recording's lines, read one after the other, and the first lines as a whole: what fails is the last that is looked at, and
// what is left of the text goes to the next reader.
ghost use Rattle.std.specs.Prelude.{◌≡◌, true, ◌≤◌, length, drop, replicate, IfOk};
ghost use Rattle.model.specs.States.{count_stands};
ghost use Rattle.model.specs.Readings.{event_at, numbers_at, limit_line, limits_from};
ghost use Rattle.model.specs.Readings.{after_limits, judge_limits, after_values, of_values, after_former, of_former, head_of};

use model::{Event, Fault, Head, Parameters, Parsed, Refusal};
use text::fields::{number_at, time_at, word_at};
use text::numbers::numbers_at;
use values::limits::{count_stands, equal_limits, parameters_stand};

// [6.50] [6.80] [21.10] [21.60] The step at the start of s, which has the number `line`.
pub(crate) fn event_at(s: &[u8], line: u64) -> Result<Parsed<Event>, Fault>
    ensures { result ≡ event_at line s.now }
{
    let Some(time) = time_at(s) else {
        return Err(Refusal::BadLine.at(line));
    };
    let after_time = &s[time.size..];
    let Some(process) = number_at(after_time, b',') else {
        return Err(Refusal::BadLine.at(line));
    };
    let Some(action) = word_at(&after_time[process.size..]) else {
        return Err(Refusal::BadLine.at(line));
    };
    Ok(Parsed {
        value: Event {
            time: time.value,
            process: process.value,
            action: action.value,
        },
        size: time.size + process.size + action.size,
    })
}

// [6.34] [6.80] The line of a process, which has the number process + 3: that of the process, and its a.
fn limit_line(s: &[u8], process: u64) -> Result<Parsed<[u64; 4]>, Fault>
    requires { process ≤ 96 }
    ensures { result ≡ limit_line process s.now }
{
    let line = process + 3;
    let Parsed {
        value: numbers,
        size,
    } = numbers_at(s, 1, line)?;
    if numbers[0] != process {
        return Err(Refusal::BadLine.at(line));
    }
    Ok(Parsed {
        value: numbers,
        size,
    })
}

// [6.34] [6.100] The lines of a, one for each of n processes.
fn limits_at(s: &[u8], n: u64) -> Result<Parsed<[u64; 96]>, Fault>
    requires { n ≤ 96 }
    ensures value { result ≡ limits_from n 1 0 (replicate 96 0) s.now }
    ensures size_in_bounds { IfOk result (λ l. l.size ≤ length s.now) }
{
    let mut a: [u64; 96] = [0; 96];
    let mut at: usize = 0;
    for i in 0..n {
        let Parsed {
            value: numbers,
            size,
        } = limit_line(&s[at..], i + 1)?;
        a[i as usize] = numbers[1];
        at += size;
    }
    Ok(Parsed { value: a, size: at })
}

// [6.40] [6.90] [6.100] The names of the steps, which stand on this line after `at` bytes: the last of the first lines.
fn after_limits(text: &[u8], at: usize, line: u64, parameters: Parameters) -> Result<Head, Fault>
    requires { (at ≤ length text.now) × (line ≤ 100) }
    ensures { result ≡ after_limits text.now at line parameters }
{
    if !text[at..].starts_with(b"time,window,act\n") {
        return Err(Refusal::BadNames.at(line));
    }
    Ok(Head {
        parameters,
        line: line + 1,
        size: at + 16,
    })
}

// [6.36] [6.90] The limits, once all are read, where n stands: `line` is the last line that has one.
fn judge_limits(text: &[u8], at: usize, line: u64, parameters: Parameters) -> Result<Head, Fault>
    requires { (at ≤ length text.now) × (line ≤ 99) × (count_stands parameters.n ≡ true) }
    ensures { result ≡ judge_limits text.now at line parameters }
{
    if !parameters_stand(parameters.n, parameters.b, parameters.c, &parameters.a) {
        return Err(Refusal::BadLimits.at(line));
    }
    after_limits(text, at, line + 1, parameters)
}

// [6.32] [6.34] [6.90] n, line 3, which stands after `at` bytes, and the lines of a.
fn after_values(text: &[u8], at: usize, n: u64, b: u64, c: u64) -> Result<Head, Fault>
    requires { at ≤ length text.now }
    ensures { result ≡ after_values text.now at n b c }
{
    if !count_stands(n) {
        return Err(Refusal::BadCount.at(2));
    }
    if !text[at..].starts_with(b"window,a\n") {
        return Err(Refusal::BadNames.at(3));
    }
    let start = at + 9;
    let Parsed { value: a, size } = limits_at(&text[start..], n)?;
    let parameters = Parameters { n, b, c, a };
    judge_limits(text, start + size, n + 3, parameters)
}

// [6.20] [6.30] [6.90] [6.120] What follows line 1 of the new shape, which has 12 bytes.
fn new_head(text: &[u8]) -> Result<Head, Fault>
    requires { 12 ≤ length text.now }
    ensures { result ≡ of_values text.now (numbers_at 2 2 (drop 12 text.now)) }
{
    let Parsed {
        value: numbers,
        size,
    } = numbers_at(&text[12..], 2, 2)?;
    after_values(text, 12 + size, numbers[0], numbers[1], numbers[2])
}

// [6.45] [6.90] n and the limits of the former shape, and line 3, which stands after `at` bytes.
fn after_former(text: &[u8], at: usize, n: u64, limit: u64, b: u64, c: u64) -> Result<Head, Fault>
    requires { at ≤ length text.now }
    ensures { result ≡ after_former text.now at n limit b c }
{
    if !count_stands(n) {
        return Err(Refusal::BadCount.at(2));
    }
    let a = equal_limits(n, limit);
    let parameters = Parameters { n, b, c, a };
    judge_limits(text, at, 2, parameters)
}

// [6.45] [6.90] [6.120] What follows line 1 of the former shape, which has 14 bytes.
fn former_head(text: &[u8]) -> Result<Head, Fault>
    requires { 14 ≤ length text.now }
    ensures { result ≡ of_former text.now (numbers_at 2 3 (drop 14 text.now)) }
{
    let Parsed {
        value: numbers,
        size,
    } = numbers_at(&text[14..], 3, 2)?;
    after_former(
        text,
        14 + size,
        numbers[0],
        numbers[1],
        numbers[2],
        numbers[3],
    )
}

// [6.20] [6.45] [6.90] [6.100] The first lines: line 1 tells the two shapes apart.
pub(crate) fn head_of(text: &[u8]) -> Result<Head, Fault>
    ensures { result ≡ head_of text.now }
{
    if 65536 < text.len() {
        return Err(Refusal::BadLength.at(0));
    }
    if text.starts_with(b"windows,b,c\n") {
        return new_head(text);
    }
    if text.starts_with(b"windows,a,b,c\n") {
        return former_head(text);
    }
    Err(Refusal::BadNames.at(1))
}
