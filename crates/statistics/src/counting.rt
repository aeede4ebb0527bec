// A summary after one more action: the counts.
// Any counts are taken: those without room may wrap, and a summary that is not full has room.
ghost use Rattle.std.specs.Prelude.{◌≡◌};
ghost use Rattle.statistics.specs.Countings.{refused_after, accepted_after};

use model::Counts;
use rules::actions::{CRIT, EXIT};

// [5.100]
pub fn with_refused(counts: Counts) -> Counts
    ensures { result ≡ refused_after counts }
{
    Counts {
        refused: counts.refused.wrapping_add(1),
        ..counts
    }
}

// [5.70] [5.90] The counts after an accepted action, which ends a wait if it is a crit.
pub fn counts_after(counts: Counts, action: u64, wait: u64) -> Counts
    ensures { result ≡ accepted_after counts action wait }
{
    let accepted = counts.accepted.wrapping_add(1);
    match action {
        CRIT => Counts {
            accepted,
            entries: counts.entries.wrapping_add(1),
            longest: counts.longest.max(wait),
            ..counts
        },
        EXIT => Counts {
            accepted,
            exits: counts.exits.wrapping_add(1),
            ..counts
        },
        _ => Counts { accepted, ..counts },
    }
}
