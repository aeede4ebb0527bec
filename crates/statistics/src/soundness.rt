// Which summaries stand beside a clock. Differences are taken and no sum, so that nothing overflows whatever the summary holds.
ghost use Rattle.std.specs.Prelude.{◌≡◌};
ghost use Rattle.model.specs.Summaries.{counts_sound, waited_sound};
ghost use Rattle.statistics.specs.Countings.{fault_by};

use model::{Counts, Refusal};
use values::bits_of;

// [5.40] [5.60] of acts and of microseconds
const MOST: u64 = 1000000000000;

// [5.40] [5.50] All but the waits so far.
fn counts_stand(counts: Counts) -> bool
    ensures { result ≡ counts_sound counts }
{
    counts.accepted <= MOST
        && counts.refused <= MOST - counts.accepted
        && counts.entries <= counts.accepted
        && counts.exits <= counts.accepted - counts.entries
        && counts.longest <= MOST
}

// [5.40] The waits so far. Unless one is more than half of the clock, it is past all their bits together, and none is looked at alone.
pub fn waits_stand(waited: &[u64], clock: u64) -> bool
    ensures { result ≡ waited_sound clock waited.now }
{
    bits_of(waited) <= clock || waited.iter().all(|wait| *wait <= clock)
}

// [4.2] [4.3] [5.60] The refusal 2 or 3; none where an act can be counted. `stand` tells whether the waits so far stand.
pub fn fault_by(counts: Counts, stand: bool) -> Option<Refusal>
    ensures { result ≡ fault_by counts stand }
{
    if !counts_stand(counts) || !stand {
        return Some(Refusal::NoSummary);
    }
    if MOST - counts.accepted == counts.refused {
        return Some(Refusal::SummaryFull);
    }
    None
}
