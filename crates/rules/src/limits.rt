// Which numbers of a state stand: its parameters, the clock and the word.
ghost use Rattle.std.specs.Prelude.{◌≡◌};
ghost use Rattle.model.specs.States.{parameters_of};
ghost use Rattle.rules.specs.Survey.{numbers_stand};

use values::limits::parameters_stand;

// [2.40] the clock's end
pub const LAST: u64 = 1000000000000;

// [2.20] [2.30] [2.40] [2.50] All that a sound state asks of its numbers.
#[tactic(auto, using(std::proofs::lemmas::Bool::Decides::nat_tests), unfolding(crate::specs::Survey::numbers_stand))]
pub fn numbers_stand(n: u64, b: u64, c: u64, a: &[u64], clock: u64, word: u64) -> bool
    ensures { result ≡ numbers_stand (parameters_of n b c a.now) clock word }
{
    parameters_stand(n, b, c, a) && clock <= LAST && word <= n
}
