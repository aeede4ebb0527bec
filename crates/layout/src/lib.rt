// Tables and summaries as lent numbers: what stands where, the functions that read and write it, and the calls on it. A step and a recorded
// step are judged where the numbers lie: no state is made of them. No other code knows a place of theirs.
#![tactic(auto)]

mod counts;
mod steps;
mod summaries;
pub mod tables;

ghost use Rattle.std.specs.Prelude.{◌≡◌};
ghost use Rattle.layout.specs.Encodings.{is_sound_table};
ghost use Rattle.layout.specs.Interface.{lent_gave, lent_fresh, lent_step, record_gave, lent_record, summary_gave, lent_summary, entry_gave, lent_entry};
ghost use Rattle.layout.specs.Layouts.{layout_number};
ghost use Rattle.layout.specs.Countings.{entered_with};

use crate::counts::{count_accepted, count_refused, fault_of};
use crate::steps::{act, survey_table};
use crate::summaries::{SUMMARY, clear};
use crate::tables::{CLOCK, TABLE, put_table};
use model::{Answer, Parameters, Refusal};
use statistics::waiting::unused_time;

// [9.15]
const LAYOUT: u64 = 3;

// [9.15] [21.110] The number of the layout.
pub fn number() -> u64
    ensures { result ≡ layout_number }
{
    LAYOUT
}

// [9.50] [21.110] A fresh table, in the lent numbers.
pub fn fresh(parameters: Parameters, table: &mut [u64]) -> Answer
    ensures { lent_gave result table.new ≡ lent_fresh parameters table.old }
{
    let outcome = machine::fresh(parameters);
    let answer = outcome.answer;
    if answer.code != 0 {
        return answer;
    }
    let Some(table) = table.first_chunk_mut::<TABLE>() else {
        return Answer::from(Refusal::ShortOutput);
    };
    put_table(table, &outcome.state);
    answer
}

// [9.20] Whether the first numbers of a list tell a sound table. Who acts has no part in it.
pub fn is_sound(table: &[u64]) -> bool
    ensures { result ≡ is_sound_table table.now }
{
    let Some(table) = table.first_chunk::<TABLE>() else {
        return false;
    };
    let found = survey_table(table, 0);
    found.faulty == 0
}

// [9.60] [21.110] One act, in the lent table.
pub fn step(table: &mut [u64], action: u64, process: u64, time: u64) -> Answer
    ensures { lent_gave result table.new ≡ lent_step table.old action process time }
{
    let Some(table) = table.first_chunk_mut::<TABLE>() else {
        return Answer::from(Refusal::NoTable);
    };
    let found = survey_table(table, process);
    act(table, found, action, process, time)
}

// [9.70] [21.110] A new summary, in the lent numbers.
pub fn new_summary(summary: &mut [u64]) -> Answer
    ensures { summary_gave result summary.new ≡ lent_summary summary.old }
{
    let Some(summary) = summary.first_chunk_mut::<SUMMARY>() else {
        return Answer::from(Refusal::ShortOutput);
    };
    clear(summary);
    Answer::accepted(0, 0)
}

// [9.80] [21.110] One act, in the lent table, counted in the lent summary.
pub fn record(
    table: &mut [u64],
    summary: &mut [u64],
    action: u64,
    process: u64,
    time: u64,
) -> Answer
    ensures { record_gave result table.new summary.new
        ≡ lent_record table.old summary.old action process time }
{
    let entered = record_entry(table, summary, action, process, time);
    entered.answer
}

// [5.90] [10.200] What a recorded step answers, and beside an accepted action the wait that it ends, if it is a crit.
#[derive(Clone, Copy)]
pub struct Entered {
    pub answer: Answer,
    pub wait: u64,
}

// [5.90] [9.80] [10.200] The recorded step, refused with 1, 2 or 3 where table and summary do not stand: they are judged before either is
// written.
fn enter(
    table: &mut [u64],
    summary: &mut [u64],
    action: u64,
    process: u64,
    time: u64,
) -> Result<Entered, Refusal>
    ensures { let entered = entered_with result in
        entry_gave (record_gave entered.answer table.new summary.new) entered.wait
        ≡ lent_entry table.old summary.old action process time }
{
    let Some(table) = table.first_chunk_mut::<TABLE>() else {
        return Err(Refusal::NoTable);
    };
    let found = survey_table(table, process);
    if found.faulty != 0 {
        return Err(Refusal::NoTable);
    }
    let Some(summary) = summary.first_chunk_mut::<SUMMARY>() else {
        return Err(Refusal::NoSummary);
    };
    let clock = table[CLOCK];
    if let Some(refusal) = fault_of(summary, clock) {
        return Err(refusal);
    }
    let answer = act(table, found, action, process, time);
    if answer.code != 0 {
        count_refused(summary);
        return Ok(Entered { answer, wait: 0 });
    }
    let unused = unused_time(found.critical, action, clock, time);
    let wait = count_accepted(summary, table, action, process, unused);
    Ok(Entered { answer, wait })
}

// [5.90] [9.80] [10.200] [21.110] As `record`, with the wait. A refusal ends none.
pub fn record_entry(
    table: &mut [u64],
    summary: &mut [u64],
    action: u64,
    process: u64,
    time: u64,
) -> Entered
    ensures { entry_gave (record_gave result.answer table.new summary.new) result.wait
        ≡ lent_entry table.old summary.old action process time }
{
    match enter(table, summary, action, process, time) {
        Ok(entered) => entered,
        Err(refusal) => Entered {
            answer: Answer::from(refusal),
            wait: 0,
        },
    }
}
