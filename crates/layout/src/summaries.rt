// A summary in lent numbers: accepted, refused, entries, exits, the longest wait, and then the 96 waits so far.
ghost use Rattle.std.specs.Prelude.{◌≡◌, ◌<◌, slice_index, slice_set};
ghost use Rattle.model.specs.Summaries.{new_statistics};
ghost use Rattle.layout.specs.Encodings.{summary_counts, refused_place, waited_place, statistics_numbers};
ghost use Rattle.layout.specs.Places.{counts_put};

use model::Counts;

// [9.30] where the counts stand
const ACCEPTED: usize = 0;

const REFUSED: usize = 1;

const ENTRIES: usize = 2;

const EXITS: usize = 3;

const LONGEST: usize = 4;

// [9.30] the numbers before the waits so far
pub(crate) const COUNTS: usize = 5;

// [9.30] the numbers of a summary
pub(crate) const SUMMARY: usize = COUNTS + 96;

// Reading

// [9.30]
pub(crate) fn counts_in(summary: &[u64; SUMMARY]) -> Counts
    ensures { result ≡ summary_counts summary.now }
{
    Counts {
        accepted: summary[ACCEPTED],
        refused: summary[REFUSED],
        entries: summary[ENTRIES],
        exits: summary[EXITS],
        longest: summary[LONGEST],
    }
}

// [9.30] What the process of an entry has waited so far.
pub(crate) fn waited_in(summary: &[u64; SUMMARY], i: usize) -> u64
    requires { i < 96 }
    ensures { result ≡ slice_index summary.now (waited_place i) }
{
    summary[COUNTS + i]
}

// Writing

// [9.30]
pub(crate) fn put_counts(summary: &mut [u64; SUMMARY], counts: Counts)
    ensures { summary.new ≡ counts_put summary.old counts }
{
    summary[ACCEPTED] = counts.accepted;
    summary[REFUSED] = counts.refused;
    summary[ENTRIES] = counts.entries;
    summary[EXITS] = counts.exits;
    summary[LONGEST] = counts.longest;
}

// [9.30] The count of refused acts alone.
pub(crate) fn put_refused(summary: &mut [u64; SUMMARY], refused: u64)
    ensures { summary.new ≡ slice_set summary.old refused_place refused }
{
    summary[REFUSED] = refused;
}

// [9.30] What the process of an entry has waited so far.
pub(crate) fn put_waited(summary: &mut [u64; SUMMARY], i: usize, waited: u64)
    requires { i < 96 }
    ensures { summary.new ≡ slice_set summary.old (waited_place i) waited }
{
    summary[COUNTS + i] = waited;
}

// [9.30] [5.20] A new summary.
pub(crate) fn clear(summary: &mut [u64; SUMMARY])
    ensures { summary.new ≡ statistics_numbers new_statistics }
{
    *summary = [0; SUMMARY];
}
