// The work of the benchmarks: the state that a case starts from, the act of each of its steps, and the loop that makes them.
// `bench/cases.rs` has the same cases in Rust.
#![tactic(auto)]

mod acts;
mod kinds;
mod starts;

ghost use Rattle.std.specs.Prelude.{◌≡◌, ◌≤◌};
ghost use Rattle.model.specs.declared.Answer.{Answer};
ghost use Rattle.workload.specs.declared.acts.Act.{Act};
ghost use Rattle.workload.specs.Work.{digit_of, steps_in, added, Sums};

pub use acts::{Act, act_of};
use model::Answer;
pub use starts::state_of;
use std::rt::Env;

// The case that makes no step: what it costs is taken off the others. Each other one is 10 times its kind and a digit for its processes:
// 1, 2 and 3 for 2, 24 and 96.
const NONE: u64 = 0;

fn digit(byte: u8) -> u64
    ensures { result ≡ digit_of byte }
{
    match byte {
        b'0'..=b'9' => (byte - b'0') as u64,
        _ => 0,
    }
}

// The case that the program's argument names by two or three digits, or by a 0. Which one it is comes from the operating system.
pub fn chosen(rt: &impl Env) -> u64
    ensures { result ≤ 999 }
{
    let mut word = [b' '; 8];
    // of an argument that is longer the first bytes are kept, and of none nothing
    let _ = rt.arg(1, &mut word);
    let first = digit(word[0]);
    let second = digit(word[1]);
    if word[2] < b'0' {
        return first * 10 + second;
    }
    first * 100 + second * 10 + digit(word[2])
}

// How many steps a case makes.
pub fn steps_of(case: u64) -> u64
    ensures { result ≡ steps_in case }
{
    if case == NONE { 0 } else { 2000 }
}

// A sum and the numbers of an answer. It wraps.
pub fn added(sum: u64, answer: Answer) -> u64
    ensures { result ≡ added sum answer }
{
    sum.wrapping_add(answer.code)
        .wrapping_add(answer.process)
        .wrapping_add(answer.time)
}

// What the steps of a case are made in.
pub trait Machine {
    // How an act may be answered in a machine, and what machine is left.
    ghost step: { Self → Act → Answer → Self → Type 0 };

    fn step(&mut self, act: Act) -> Answer
        ensures { step self.old act result self.new };
}

// Makes the steps of a case, one after the other, and sums up all answers.
pub fn run<M: Machine>(case: u64, machine: &mut M) -> u64
    ensures { Sums M.step case 0 (steps_in case) machine.old machine.new 0 result }
{
    let mut sum: u64 = 0;
    for i in 0..steps_of(case) {
        let answer = machine.step(act_of(case, i));
        sum = added(sum, answer);
    }
    sum
}
