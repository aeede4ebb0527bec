// The text of intervals, put step by step: what one step puts, a block of steps, all steps of a run, and the whole text.
// Whether a line is begun is handed on, since a line that no exit has ended gets a dash at the end.
ghost use Rattle.std.specs.Prelude.{◌≡◌, false, ◌+◌, ◌*◌, ◌≤◌, length};
ghost use Rattle.model.specs.Tallies.{attempt};
ghost use Rattle.model.specs.Executions.{attempts_from};
ghost use Rattle.text.specs.Puts.{Put};
ghost use Rattle.execution.specs.Steps.{lists_of, steps_of};
ghost use Rattle.execution.specs.Blocks.{attempts_by};
ghost use Rattle.intervals.specs.Parts.{part_text, parts_text, open_with, open_after, pass_text};

use execution::{Run, Steps};
use model::{Answer, Arrivals, Event, State};
use rules::actions::{CRIT, EXIT};
use text::puts::{put_number, put_text};

// How many bytes some steps put, and whether a line is begun after them.
#[derive(Drop)]
pub(crate) struct Progress {
    pub(crate) size: usize,
    pub(crate) opened: bool,
}

// [11.20] [11.30] [11.45] What a step puts that was answered with a code: an accepted crit its process and its time, an accepted exit its
// time. A number has at most 20 digits, and a byte ends it.
#[tactic(auto, using(std::proofs::lemmas::Bool::Decides::nat_tests), unfolding(crate::specs::Parts::part_text))]
fn put_part(out: &mut [u8], at: usize, code: u64, event: Event) -> usize
    requires { at ≤ 343869 }
    ensures put { Put out.old out.new at (part_text (attempt event.action event.process event.time code)) result }
    ensures upper_bound { result ≤ 42 }
{
    if code != 0 {
        return 0;
    }
    match event.action {
        CRIT => {
            let size = put_number(out, at, event.process, b',');
            size + put_number(out, at + size, event.time, b',')
        }
        EXIT => put_number(out, at, event.time, b'\n'),
        _ => 0,
    }
}

// [11.45] Whether a line is begun after such a step, whosever it is and whenever it comes.
#[tactic(auto, using(std::proofs::lemmas::Bool::Decides::nat_tests), unfolding(crate::specs::Parts::open_with))]
fn open_with(opened: bool, code: u64, action: u64) -> bool
    ensures { result ≡ open_with opened (attempt action 0 0 code) }
{
    if code != 0 {
        return opened;
    }
    match action {
        CRIT => true,
        EXIT => false,
        _ => opened,
    }
}

// [11.45] What the first of the steps put from place `at` on, by the answers to them.
fn put_block(out: &mut [u8], at: usize, opened: bool, steps: &Steps, answers: &[Answer]) -> Progress
    requires at_bound { at + 42 * length answers.now ≤ 343869 }
    requires answers_in_bounds { length answers.now ≤ length steps.now.times.now }
    ensures put { Put out.old out.new at (parts_text (attempts_by (lists_of steps.now) answers.now)) result.size }
    ensures opened_value { result.opened ≡ open_after opened (attempts_by (lists_of steps.now) answers.now) }
    ensures size_bound { result.size ≤ 42 * length answers.now }
{
    let mut size: usize = 0;
    let mut begun = opened;
    for (i, answer) in answers.iter().enumerate() {
        let event = steps.at(i);
        size += put_part(out, at + size, answer.code, event);
        begun = open_with(begun, answer.code, event.action);
    }
    Progress {
        size: size,
        opened: begun,
    }
}

// [11.10] [11.45] Takes the steps from a state on, and puts what they put after the names line.
fn put_steps(out: &mut [u8], first: State<Arrivals>, steps: &Steps) -> Progress
    ensures put { Put out.old out.new 15 (parts_text (attempts_from first (steps_of steps.now))) result.size }
    ensures opened_value { result.opened ≡ open_after false (attempts_from first (steps_of steps.now)) }
    ensures size_bound { result.size ≤ 343854 }
{
    let mut run = Run::new(first);
    let mut size: usize = 0;
    let mut opened = false;
    while let Some(count) = run.take_block(steps) {
        let next = steps.after(run.taken - count);
        let block = put_block(out, 15 + size, opened, &next, &run.answers[..count]);
        size += block.size;
        opened = block.opened;
    }
    Progress {
        size: size,
        opened: opened,
    }
}

// [11.40] [11.45] Puts the whole text, as much of it as there is room for, and answers how many bytes it has.
pub(crate) fn put_run(out: &mut [u8], first: State<Arrivals>, steps: &Steps) -> usize
    ensures { Put out.old out.new 0 (pass_text first (steps_of steps.now)) result }
{
    let names = put_text(out, 0, b"window,from,to\n");
    let steps = put_steps(out, first, steps);
    let size = names + steps.size;
    if steps.opened {
        return size + put_text(out, size, b"-\n");
    }
    size
}
