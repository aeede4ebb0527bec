// Tables of the second engine as lent numbers: what stands where, and the calls on it. A step is judged where the numbers lie: no state is made
// of them. No other code knows a place of a deadline table.
#![tactic(auto)]

mod arrivals;
mod conversions;
mod steps;
mod tables;

ghost use Rattle.std.specs.Prelude.{◌≡◌, MatchOption, false};
ghost use Rattle.layout.specs.Interface.{lent_gave};
ghost use Rattle.deadline_layout.specs.Encodings.{is_sound_deadline_table};
ghost use Rattle.deadline_layout.specs.Interface.{lent_fresh_with, lent_step_with, lent_to_deadlines, lent_to_arrivals};
ghost use Rattle.deadline_layout.specs.Places.{IsSoundPart};

use crate::conversions::{put_arrived, put_dated};
use crate::steps::{act, survey_table};
use crate::tables::{TABLE, put_table};
use model::{Answer, Parameters, Refusal};

// [12.120] [21.110] A fresh deadline table, in the lent numbers.
pub fn fresh(parameters: Parameters, table: &mut [u64]) -> Answer
    ensures { lent_gave result table.new ≡ lent_fresh_with parameters table.old }
{
    let outcome = deadlines::fresh(parameters);
    if outcome.answer.code != 0 {
        return outcome.answer;
    }
    let Some(whole) = table.first_chunk_mut::<TABLE>() else {
        return Answer::from(Refusal::ShortOutput);
    };
    put_table(whole, outcome.state);
    outcome.answer
}

// [12.130] [21.110] One action, in the lent table.
pub fn step(table: &mut [u64], action: u64, process: u64, time: u64) -> Answer
    ensures { lent_gave result table.new ≡ lent_step_with table.old action process time }
{
    let Some(whole) = table.first_chunk_mut::<TABLE>() else {
        return Answer::from(Refusal::NoTable);
    };
    let found = survey_table(whole, process);
    act(whole, found, action, process, time)
}

// [12.115] The first numbers of a list, where they tell a sound state of deadlines. Who acts has no part in it.
fn sound_part(deadlines: &[u64]) -> Option<&[u64; TABLE]>
    ensures { MatchOption result (is_sound_deadline_table deadlines.now ≡ false) (λ part. IsSoundPart deadlines.now part.now) }
{
    let whole = deadlines.first_chunk::<TABLE>()?;
    let found = survey_table(whole, 0);
    if found.faulty != 0 {
        return None;
    }
    Some(whole)
}

// [12.140] [21.110] From a table to the deadline table that matches it, in the lent numbers.
pub fn to_deadlines(table: &[u64], out: &mut [u64]) -> Answer
    ensures { lent_gave result out.new ≡ lent_to_deadlines table.now out.old }
{
    let Some(whole) = table.first_chunk::<{ arrivals::TABLE }>() else {
        return Answer::from(Refusal::NoTable);
    };
    if !layout::is_sound(table) {
        return Answer::from(Refusal::NoTable);
    }
    let Some(to) = out.first_chunk_mut::<TABLE>() else {
        return Answer::from(Refusal::ShortOutput);
    };
    put_dated(to, whole);
    Answer::accepted(0, 0)
}

// [12.140] [21.110] From a deadline table to the table that matches it, in the lent numbers.
pub fn to_arrivals(deadlines: &[u64], out: &mut [u64]) -> Answer
    ensures { lent_gave result out.new ≡ lent_to_arrivals deadlines.now out.old }
{
    let Some(whole) = sound_part(deadlines) else {
        return Answer::from(Refusal::NoTable);
    };
    let Some(to) = out.first_chunk_mut::<{ arrivals::TABLE }>() else {
        return Answer::from(Refusal::ShortOutput);
    };
    put_arrived(to, whole);
    Answer::accepted(0, 0)
}
