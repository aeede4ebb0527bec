// The whole text that `replay` prints, as a function from bytes to bytes: a recording is run, and there is a line for each of its
// steps, or one for what is at fault.
#![tactic(auto)]

ghost use Rattle.std.specs.Prelude.{◌≡◌, ◌+◌, ◌*◌, ◌≤◌, length, map};
ghost use Rattle.model.specs.Answers.{answer_numbers};
ghost use Rattle.model.specs.Texts.{numbers_text};
ghost use Rattle.model.specs.Writings.{write_gave};
ghost use Rattle.model.specs.Reports.{rows_text, report_text, report_of};
ghost use Rattle.text.specs.Puts.{Put};
ghost use Rattle.execution.specs.Steps.{steps_of};
ghost use Rattle.report.specs.Runs.{run_text};

use execution::{Lists, Run, Steps, start};
use model::{Answer, Arrivals, Refusal, State};
use text::numbers::put_numbers;
use text::puts::put_text;

// [7.55] No report has more bytes: the names line, and at most 84 a step.
const MOST_BYTES: usize = 687734;

// [7.25] One line of a report, which has at most 84 bytes: four numbers of at most 20 digits, and their ends.
fn put_line(out: &mut [u8], at: usize, line: u64, answer: Answer) -> usize
    requires { at ≤ 687734 }
    ensures put { Put out.old out.new at (numbers_text line (answer_numbers answer)) result }
    ensures upper_bound { result ≤ 84 }
{
    put_numbers(out, at as u32, line, &<[u64; 3]>::from(answer))
}

// [7.40] Puts a line for each answer from place `at` on; the first has the number `line`.
fn put_rows(out: &mut [u8], at: usize, line: u64, answers: &[Answer]) -> usize
    requires { (at + 84 * length answers.now ≤ 687734) × (line ≤ 4294967296) }
    ensures put { Put out.old out.new at (rows_text line (map answer_numbers answers.now)) result }
    ensures upper_bound { result ≤ 84 * length answers.now }
{
    let mut size: usize = 0;
    for (i, answer) in answers.iter().enumerate() {
        size += put_line(out, at + size, line + (i as u64), *answer);
    }
    size
}

// [7.40] [7.45] Takes the steps from a state on, and puts a line for each after the names line.
fn put_run(out: &mut [u8], first: State<Arrivals>, line: u64, steps: &Steps) -> usize
    requires { line ≤ 65536 }
    ensures put { Put out.old out.new 26 (run_text line first (steps_of steps.now)) result }
    ensures upper_bound { result ≤ 687708 }
{
    let mut run = Run::new(first);
    let mut size: usize = 0;
    while let Some(count) = run.take_block(steps) {
        let from = line + (run.taken - count) as u64;
        size += put_rows(out, 26 + size, from, &run.answers[..count]);
    }
    size
}

// [7.20] [7.30] [7.35] [7.40] [7.45] Puts the report, as much of it as there is room for, and answers how many bytes it has.
fn put_report(text: &[u8], out: &mut [u8]) -> usize
    ensures put { Put out.old out.new 0 (report_text text.now) result }
    ensures upper_bound { result ≤ 687734 }
{
    let mut lists = Lists::new();
    let names = put_text(out, 0, b"line,answer,window,moment\n");
    let started = match start(
        text,
        &mut lists.times,
        &mut lists.processes,
        &mut lists.actions,
    ) {
        Ok(started) => started,
        Err(fault) => {
            return names + put_line(out, 26, fault.line, Answer::from(fault.refusal));
        }
    };
    let steps = lists.first(started.found.steps);
    names + put_run(out, started.state, started.found.line, &steps)
}

// [7.50] [7.55] [21.110] Writes what `replay` prints for a recording. An output that may be too short is measured first, so that it stays;
// one of 687,734 bytes never is.
pub fn report(text: &[u8], out: &mut [u8]) -> Answer
    ensures report { write_gave result out.new ≡ report_of text.now out.old }
    ensures room { 687734 ≤ length out.old → result.code ≡ 0 }
{
    if out.len() < MOST_BYTES {
        let needed = put_report(text, &mut out[..0]);
        if out.len() < needed {
            return Answer::from(Refusal::ShortOutput);
        }
    }
    let size = put_report(text, out);
    Answer::accepted(0, size as u64)
}
