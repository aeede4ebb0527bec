// Summaries as rows of numbers.
// A summary is two rows, since arrays of different lengths cannot share one.
ghost use Rattle.std.specs.Prelude.{◌≡◌};
ghost use Rattle.model.specs.Summaries.{counts_numbers};
ghost use Rattle.history.specs.Lists.{summary_of};

use model::{Counts, Statistics};

// [8.152]
// kept: (d) From impls for a summary would need a type of this crate for its two rows, which `run` is lent apart: two functions are shorter
pub fn summary_in(counts: [u64; 5], waited: [u64; 96]) -> Statistics
    ensures { result ≡ summary_of counts waited }
{
    Statistics {
        counts: Counts {
            accepted: counts[0],
            refused: counts[1],
            entries: counts[2],
            exits: counts[3],
            longest: counts[4],
        },
        waited,
    }
}

// [8.152]
pub fn tuple_of(counts: Counts) -> [u64; 5]
    ensures { result ≡ counts_numbers counts }
{
    [
        counts.accepted,
        counts.refused,
        counts.entries,
        counts.exits,
        counts.longest,
    ]
}
