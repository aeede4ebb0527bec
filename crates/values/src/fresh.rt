// A fresh state of either engine: the engines differ in their entries alone, which are handed over.
ghost use Rattle.std.specs.Prelude.{◌≡◌};
ghost use Rattle.model.specs.Refusals.{code_of};
ghost use Rattle.model.specs.States.{initial_over, no_parameters};
ghost use Rattle.model.specs.Answers.{answer_of, fresh_over};

use crate::limits::{count_stands, parameters_stand};
use crate::no_parameters;
use model::{Answer, Outcome, Parameters, Refusal, State};

// [2.60] [12.40] With any parameters.
fn initial<E: Copy>(parameters: Parameters, entries: E) -> State<E>
    ensures { result ≡ initial_over entries parameters }
{
    State {
        parameters,
        clock: 0,
        word: 0,
        processes: entries,
    }
}

// [4.100] A state whose parameters are 0, beside the refusal.
fn blank<E: Copy>(refusal: Refusal, entries: E) -> Outcome<E>
    ensures answer { result.answer ≡ answer_of (code_of refusal) 0 0 }
    ensures state { result.state ≡ initial_over entries no_parameters }
{
    Outcome {
        answer: Answer::from(refusal),
        state: initial(no_parameters(), entries),
    }
}

// [2.65] [4.70] [4.90] [4.100] [12.40] [21.110] A fresh state, or the refusal 11 or 12 with one whose parameters are 0.
#[tactic(auto, using(std::proofs::lemmas::Bool::Decides::nat_tests))]
pub fn fresh<E: Copy>(parameters: Parameters, entries: E) -> Outcome<E>
    ensures { result ≡ fresh_over entries parameters }
{
    if !count_stands(parameters.n) {
        return blank(Refusal::BadCount, entries);
    }
    if !parameters_stand(parameters.n, parameters.b, parameters.c, &parameters.a) {
        return blank(Refusal::BadLimits, entries);
    }
    Outcome {
        answer: Answer::accepted(0, 0),
        state: initial(parameters, entries),
    }
}
