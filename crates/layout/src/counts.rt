// A lent summary: whether an act can be counted in it, and counting one. Of a refused act the one count is written that it changes.
ghost use Rattle.std.specs.Prelude.{◌≡◌, ℕ, ◌+◌, ◌^◌, ◌<◌, true, length, drop, slice_index};
ghost use Rattle.layout.specs.Encodings.{state_in, is_sound_table, table_length, counts_length};
ghost use Rattle.layout.specs.Countings.{fault_in, wait_in, waited_put, accepted_in, refused_in};

use crate::summaries::{
    COUNTS, SUMMARY, counts_in, put_counts, put_refused, put_waited, waited_in,
};
use crate::tables::{N, TABLE, stage_in};
use model::Refusal;
use rules::answers::slot_of;
use rules::stages::REMAINDER;
use statistics::counting::{counts_after, with_refused};
use statistics::soundness::{fault_by, waits_stand};
use statistics::waiting::{Stages, does_clear, wait_on};

// [4.2] [4.3] The refusal 2 or 3; none where an act can be counted.
pub(crate) fn fault_of(summary: &[u64; SUMMARY], clock: u64) -> Option<Refusal>
    ensures { result ≡ fault_in summary.now clock }
{
    let stand = waits_stand(&summary[COUNTS..], clock);
    fault_by(counts_in(summary), stand)
}

// [9.10] A sound table: it has nobody but in the remainder past its n processes.
#[derive(Clone, Copy)]
struct SoundTable<'a> {
    table: &'a [u64; TABLE],
    ghost long: { length table.now ≡ table_length },
    ghost sound: { is_sound_table table.now ≡ true },
}

impl<'a> Stages for SoundTable<'a> {
    ghost entries = { λ s. (state_in s.table.now).processes };

    fn count(&self) -> usize {
        self.table[N] as usize
    }

    fn stage(&self, i: usize) -> u64 {
        if 96 <= i {
            return REMAINDER;
        }
        stage_in(self.table, i)
    }
}

// [5.80] The waits so far of all processes once those who are trying have waited for `unused` more, beside a sound table.
fn wait_beside(summary: &mut [u64; SUMMARY], table: &[u64; TABLE], unused: u64)
    requires sound { is_sound_table table.now ≡ true }
    requires fits { (i : ℕ) → slice_index (drop counts_length summary.old) i + unused < 2 ^ 64 }
    ensures { summary.new ≡ waited_put summary.old (state_in table.now).processes unused }
{
    if let Some(waited) = summary.last_chunk_mut() {
        wait_on(waited, unused, &SoundTable { table });
    }
}

// [5.70] [5.80] [5.90] Counts an accepted act; `table` is the one after it. Gives back the wait that it ends, if it is a crit.
pub(crate) fn count_accepted(
    summary: &mut [u64; SUMMARY],
    table: &[u64; TABLE],
    action: u64,
    process: u64,
    unused: u64,
) -> u64
    requires sound { is_sound_table table.now ≡ true }
    requires fits { (i : ℕ) → slice_index (drop counts_length summary.old) i + unused < 2 ^ 64 }
    ensures value { result ≡ wait_in summary.old process unused }
    ensures summary_after { summary.new
        ≡ accepted_in summary.old (state_in table.now).processes action process unused }
{
    let slot = slot_of(process);
    let wait = waited_in(summary, slot).wrapping_add(unused);
    put_counts(summary, counts_after(counts_in(summary), action, wait));
    if unused != 0 {
        wait_beside(summary, table, unused);
    }
    if does_clear(action) {
        put_waited(summary, slot, 0);
    }
    wait
}

// [5.100] Counts a refused act.
pub(crate) fn count_refused(summary: &mut [u64; SUMMARY])
    ensures { summary.new ≡ refused_in summary.old }
{
    let counts = with_refused(counts_in(summary));
    put_refused(summary, counts.refused);
}
