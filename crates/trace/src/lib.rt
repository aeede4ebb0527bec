// Reader and writer of recordings: `scan`, `read` and `read_to` take a text apart into lent lists, `write` makes a text of lists. They take
// anything, and give back what `scanned_of`, `read_of` and `write_of` of the model and `read_to_of` say, refusals included.
#![tactic(auto)]

mod lines;
mod steps;
mod texts;

ghost use Rattle.std.specs.Prelude.{◌≡◌};
ghost use Rattle.model.specs.Readings.{lent, lists, scan_gave, scanned_of, line_told, reading_from, read_gave, read_of};
ghost use Rattle.model.specs.Writings.{events_of, write_gave, write_of};
ghost use Rattle.trace.specs.Passes.{answer_without_room};
ghost use Rattle.trace.specs.ReadingTo.{reading_to_of, read_to_gave, read_to_of};

use crate::lines::head_of;
use crate::steps::{count_events, store_events};
use crate::texts::{formless, put_trace};
use model::{Answer, Fault, Found, Parameters, Reading, Refusal};
use values::limits::{count_stands, parameters_stand};

// [6.145] [6.90] [6.130] [6.133] [6.136] [6.140] [21.110] Scans a recording: its steps go to the three lists. A refused scan stores nothing,
// and keeps the line that the refusal is reported at, that of 11 and 12 too.
pub fn scan(
    text: &[u8],
    times: &mut [u64],
    processes: &mut [u64],
    actions: &mut [u64],
) -> Result<Found, Fault>
    ensures { scan_gave result (lists times.new processes.new actions.new)
        ≡ scanned_of text.now (lists times.old processes.old actions.old) }
{
    let head = head_of(text)?;
    let line = head.line;
    let parameters = head.parameters;
    let body = &text[head.size..];
    let steps = count_events(body, line)?;
    if times.len().min(processes.len().min(actions.len())) < steps {
        return Err(Refusal::ShortOutput.at(0));
    }
    let steps = store_events(body, line, times, processes, actions)?;
    Ok(Found {
        parameters,
        line,
        steps,
    })
}

// [6.110] The line in the answer, of the line that a refusal is reported at.
fn line_told(fault: Fault) -> u64
    ensures { result ≡ line_told fault.refusal fault.line }
{
    match fault.refusal {
        Refusal::BadCount | Refusal::BadLimits => 0,
        _ => fault.line,
    }
}

// [6.110] [6.130] [6.140] The parameters and how many steps there are; or the refusal with its line.
fn reading_from(found: Result<Found, Fault>) -> Result<Reading, Answer>
    ensures { result ≡ reading_from found }
{
    match found {
        Ok(found) => {
            let parameters = found.parameters;
            Ok(Reading {
                parameters,
                steps: found.steps,
            })
        }
        Err(fault) => Err(Answer::refused(fault.refusal, 0, line_told(fault))),
    }
}

// [6.90] [6.110] [6.130] [6.133] [6.136] [6.140] [21.110] Reads a recording: a scan of it, and what is told of that. The line of 11 and of 12
// is dropped: 0 is told.
pub fn read(
    text: &[u8],
    times: &mut [u64],
    processes: &mut [u64],
    actions: &mut [u64],
) -> Result<Reading, Answer>
    ensures { read_gave result (lists times.new processes.new actions.new)
        ≡ read_of text.now (lists times.old processes.old actions.old) }
{
    reading_from(scan(text, times, processes, actions))
}

// [9.90] What a reading for the library answers; n, b and c are 0 where it is refused. Its fields lie as in C, for `funnelfawn`.
#[repr(C)]
#[derive(Clone, Copy)]
pub struct ReadingTo {
    pub answer: Answer,
    pub n: u64,
    pub b: u64,
    pub c: u64,
}

// [9.90] [6.140] A refusal.
fn unread_to(answer: Answer) -> ReadingTo
    ensures { result ≡ reading_to_of answer 0 0 0 }
{
    ReadingTo {
        answer: answer,
        n: 0,
        b: 0,
        c: 0,
    }
}

// [9.90] [4.16] The answer to a text where the values of a have no room: its own refusal, or 16.
fn answer_without_room(text: &[u8]) -> Answer
    ensures { result ≡ answer_without_room text.now }
{
    let mut times: [u64; 0] = [];
    let mut processes: [u64; 0] = [];
    let mut actions: [u64; 0] = [];
    match read(text, &mut times, &mut processes, &mut actions) {
        Ok(_) => Answer::from(Refusal::ShortOutput),
        Err(answer) => answer,
    }
}

// [9.90] [6.130] [6.140] [21.110] Reads a recording as `read` does, and drops the line of 11 and of 12 as it does; its values of a go to the
// first 96 places of a list.
pub fn read_to(
    text: &[u8],
    a: &mut [u64],
    times: &mut [u64],
    processes: &mut [u64],
    actions: &mut [u64],
) -> ReadingTo
    ensures { read_to_gave result a.new (lists times.new processes.new actions.new)
        ≡ read_to_of text.now a.old (lists times.old processes.old actions.old) }
{
    if a.len() < 96 {
        return unread_to(answer_without_room(text));
    }
    let reading = match read(text, times, processes, actions) {
        Ok(reading) => reading,
        Err(answer) => {
            return unread_to(answer);
        }
    };
    let parameters = reading.parameters;
    a[..96].copy_from_slice(&parameters.a);
    ReadingTo {
        answer: Answer::accepted(0, reading.steps as u64),
        n: parameters.n,
        b: parameters.b,
        c: parameters.c,
    }
}

// [6.150] [6.153] [6.156] [6.170] [6.180] [21.110] Writes a recording of the steps in the three lists, as many as the shortest holds.
// A refused writing stores nothing.
pub fn write(
    parameters: Parameters,
    times: &[u64],
    processes: &[u64],
    actions: &[u64],
    out: &mut [u8],
) -> Answer
    ensures { write_gave result out.new
        ≡ write_of parameters (events_of (lent times.entry processes.entry actions.entry)) out.old }
{
    if !count_stands(parameters.n) {
        return Answer::from(Refusal::BadCount);
    }
    if !parameters_stand(parameters.n, parameters.b, parameters.c, &parameters.a) {
        return Answer::from(Refusal::BadLimits);
    }
    // [6.50] the line of the first step
    let first = parameters.n + 5;
    if let Some(line) = formless(first, times, processes, actions) {
        return Answer::refused(Refusal::BadLine, 0, line);
    }
    let Some(size) = put_trace(&mut out[..0], parameters, times, processes, actions) else {
        return Answer::from(Refusal::BadLength);
    };
    if out.len() < size {
        return Answer::from(Refusal::ShortOutput);
    }
    put_trace(out, parameters, times, processes, actions);
    Answer::accepted(0, size as u64)
}
