// A deadline table in lent numbers: n, b, c, clock, word and the values of a stand as in a table of `layout`, and after them of each entry its
// stage, its first time and its last.
ghost use Rattle.std.specs.Prelude.{◌≡◌, ◌<◌, ◌≤◌};
ghost use Rattle.deadline_layout.specs.Encodings.{stage_place_with, state_numbers_with};
ghost use Rattle.deadline_layout.specs.Places.{entry_in, placed_with};

use deadlines::locations::period_of;
use deadlines::{Deadlines, Period};
use layout::tables::{HEADER, put_header};
use model::{Location, State};
use rules::stages::stage_of;

// [12.110] the numbers of an entry
pub(crate) const STRIDE: usize = 3;

// [12.110] where its stage stands among them, and its two times
pub(crate) const STAGE: usize = 0;

pub(crate) const FIRST: usize = 1;

pub(crate) const LAST: usize = 2;

// [12.110] the numbers of a deadline table
pub(crate) const TABLE: usize = HEADER + STRIDE * 96;

// [12.110] Where the numbers of an entry start.
fn place_of(i: usize) -> usize
    requires { i < 96 }
    ensures { result ≡ stage_place_with i }
{
    HEADER + STRIDE * i
}

// [12.110] The numbers of an entry.
pub(crate) fn entry_in(table: &[u64; TABLE], i: usize) -> [u64; STRIDE]
    requires { i < 96 }
    ensures { result ≡ entry_in table.now i }
{
    let at = place_of(i);
    [table[at], table[at + FIRST], table[at + LAST]]
}

// [12.110] The entry of a process that has come to a location.
pub(crate) fn put_entry(table: &mut [u64; TABLE], i: usize, location: Location<Period>)
    requires { i < 96 }
    ensures { table.new ≡ placed_with table.old i location }
{
    let at = place_of(i);
    let period = period_of(location);
    table[at] = stage_of(location);
    table[at + FIRST] = period.first;
    table[at + LAST] = period.last;
}

// [12.110] A whole deadline table.
pub(crate) fn put_table(table: &mut [u64; TABLE], state: State<Deadlines>)
    ensures { table.new ≡ state_numbers_with state }
{
    put_header(table, state.parameters, state.clock, state.word);
    for (i, entry) in state.processes.iter().enumerate() {
        put_entry(table, i, entry.location);
    }
}
