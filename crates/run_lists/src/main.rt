// Runs lists of calls, whose files its arguments name. Each call's table is the last table of a shorter list: so the first calls of a list
// are run, then one more, and so on, and each time what came of the last is printed, with the summary that it was lent and with one summary
// for all. The stored output is what the reference prints.
#![tactic(auto)]

mod lines;
mod prints;
mod reads;

ghost use Rattle.std.specs.Prelude.{◌≤◌};
ghost use Rattle.std.specs.Io.{WritesAtMost};

use crate::prints::{print_call, print_recorded};
use crate::reads::{Call, read_calls, read_parameters};
use history::rows::summary_in;
use model::Parameters;
use std::env::FillError;
use std::rt::{Env, Files};
use std::{fs, io};
use streams::{KEPT, argument, kept, read_text, tell};

// Runs the first calls of a list, and prints the answer to the last of them, the summary that it left and the table.
fn run_first(
    rt: &impl Print,
    parameters: Parameters,
    calls: &[Call; 64],
    wanted: usize,
) -> io::Result<()>
    requires { wanted ≤ 64 }
{
    let mut rows = [[0; 4]; 64];
    let mut counts = [[0; 5]; 64];
    let mut waited = [[0; 96]; 64];
    let mut answers = [[0; 3]; 64];
    for i in 0..wanted {
        rows[i] = calls[i].row;
        counts[i] = calls[i].counts;
        waited[i] = calls[i].waited;
    }
    let outcome = history::run(
        parameters,
        &rows[..wanted],
        &mut counts,
        &mut waited,
        &mut answers,
    );
    let left = wanted
        .checked_sub(1)
        .map(|last| summary_in(counts[last], waited[last]));
    print_call(rt, parameters.n, outcome, &answers[..wanted], left)
}

// The same acts, all lent one summary.
fn record_first(
    rt: &impl Print,
    parameters: Parameters,
    calls: &[Call; 64],
    wanted: usize,
) -> io::Result<()>
    requires { wanted ≤ 64 }
{
    let mut acts = [[0; 3]; 64];
    let mut answers = [[0; 3]; 64];
    for (act, call) in acts.iter_mut().zip(&calls[..wanted]) {
        *act = call.act();
    }
    let recorded = history::run_recorded(parameters, &acts[..wanted], &mut answers);
    print_recorded(rt, parameters.n, recorded, &answers[..wanted])
}

fn run_list(rt: &impl Print, text: &[u8]) -> io::Result<()> {
    let parameters = read_parameters(text);
    let mut calls = [Call::NONE; 64];
    let count = read_calls(text, &mut calls);
    for wanted in 0..=count {
        run_first(rt, parameters, &calls, wanted)?;
        record_first(rt, parameters, &calls, wanted)?;
    }
    Ok(())
}

// The bytes of a file, as many as a recording may have and one more, and how many they are.
fn read_file(rt: &impl Files, name: &str, text: &mut [u8; KEPT]) -> io::Result<usize>
    ensures { WritesAtMost result text.new }
{
    let mut file = fs::open(rt, name)?;
    read_text(&mut file, text)
}

// A file that cannot be read is told, and the others are run all the same.
fn run_file<R: Files + Print + Eprint>(rt: &R, name: &str) -> io::Result<()> {
    let mut text = kept();
    match read_file(rt, name, &mut text) {
        Ok(size) => {
            println!(rt; "{name}")?;
            run_list(rt, &text[..size])
        }
        Err(error) => {
            tell(rt, name.as_bytes(), &error);
            Ok(())
        }
    }
}

// A path has fewer bytes than the room that it is kept in.
fn run_argument<R: Env + Files + Print + Eprint>(rt: &R, place: usize) -> io::Result<()> {
    let mut path = [0; 4096];
    match argument(rt, place, &mut path) {
        Ok(name) => run_file(rt, name),
        Err(error) => {
            tell(rt, b"argument", &error);
            Ok(())
        }
    }
}

// How many arguments there are, the name of the program among them; of each it is asked whether it fits into nothing.
fn argument_count(rt: &impl Env) -> usize {
    for place in 0..usize::MAX {
        if let Err(FillError::NotPresent) = rt.arg(place, &mut []) {
            return place;
        }
    }
    usize::MAX
}

fn main(rt: HostRuntime) -> io::Result<()> {
    for place in 1..argument_count(&rt) {
        run_argument(&rt, place)?;
    }
    Ok(())
}
