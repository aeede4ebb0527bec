// A table in lent numbers: n, b, c, clock, word, the values of a, and then of each entry its stage and its arrival.
ghost use Rattle.std.specs.Prelude.{◌≡◌, ◌<◌, ◌≤◌};
ghost use Rattle.layout.specs.Encodings.{stage_place, state_numbers, header_put};
ghost use Rattle.layout.specs.Places.{entry_in, location_in, placed_at};

use model::{Arrivals, Location, Parameters, State};
use rules::stages::{location_at, since_of, stage_of};

// [9.10] where n, b and c stand
pub const N: usize = 0;

pub const B: usize = 1;

pub const C: usize = 2;

// [9.10] where the clock stands
pub const CLOCK: usize = 3;

// [9.10] where the word stands
pub const WORD: usize = 4;

// [9.10] where the values of a start
pub const LIMITS: usize = 5;

// [9.10] the numbers before the entries
pub const HEADER: usize = LIMITS + 96;

// [9.10] the numbers of an entry
pub const STRIDE: usize = 2;

// [9.10] the numbers of a table
pub const TABLE: usize = HEADER + STRIDE * 96;

// Reading

// [9.10] Where the numbers of an entry start, or where those of all entries end.
pub(crate) fn place_of(i: usize) -> usize
    requires { i ≤ 96 }
    ensures { result ≡ stage_place i }
{
    HEADER + STRIDE * i
}

// [9.10] Of an entry.
pub(crate) fn stage_in(table: &[u64; TABLE], i: usize) -> u64
    requires { i < 96 }
    ensures { result ≡ (entry_in table.now i).stage }
{
    table[place_of(i)]
}

// [9.10]
pub(crate) fn since_in(table: &[u64; TABLE], i: usize) -> u64
    requires { i < 96 }
    ensures { result ≡ (entry_in table.now i).since }
{
    table[place_of(i) + 1]
}

// [9.10] [9.20] The location that an entry tells. A stage past leaving is taken for leaving: the survey refuses it.
pub(crate) fn location_in(table: &[u64; TABLE], i: usize) -> Location<u64>
    requires { i < 96 }
    ensures { result ≡ location_in table.now i }
{
    location_at(stage_in(table, i), since_in(table, i))
}

// Writing

// [9.10] The entry of a process that has come to a location.
pub(crate) fn put_entry(table: &mut [u64; TABLE], i: usize, location: Location<u64>)
    requires { i < 96 }
    ensures { table.new ≡ placed_at table.old i location }
{
    let at = place_of(i);
    table[at] = stage_of(location);
    table[at + 1] = since_of(location);
}

// [9.10] [12.110] What stands before the entries, in a table and in a deadline table alike. A list that has no room for it stays.
pub fn put_header(table: &mut [u64], parameters: Parameters, clock: u64, word: u64)
    ensures { table.new ≡ header_put table.old parameters clock word }
{
    if let Some(header) = table.first_chunk_mut::<HEADER>() {
        header[N] = parameters.n;
        header[B] = parameters.b;
        header[C] = parameters.c;
        header[CLOCK] = clock;
        header[WORD] = word;
        header[LIMITS..].copy_from_slice(&parameters.a);
    }
}

// [9.10] A whole table.
pub(crate) fn put_table(table: &mut [u64; TABLE], state: &State<Arrivals>)
    ensures { table.new ≡ state_numbers state.now }
{
    put_header(table, state.parameters, state.clock, state.word);
    for (i, entry) in state.processes.iter().enumerate() {
        put_entry(table, i, entry.location);
    }
}
