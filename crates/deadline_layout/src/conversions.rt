// From a table of `layout` to the deadline table that matches it, and back. What stands before the entries is the same in both: it is copied, with
// as many numbers after it as there is room for, and over these the entries are written one by one. Of a copy of its 101 numbers alone the compiler
// writes each out. No state is made of the numbers.
ghost use Rattle.std.specs.Prelude.{◌≡◌, true, ◌<◌};
ghost use Rattle.layout.specs.Encodings.{b_in, state_numbers, state_in};
ghost use Rattle.model.specs.States.{sound_of};
ghost use Rattle.deadlines.specs.Matching.{matched, arrived};
ghost use Rattle.deadline_layout.specs.Encodings.{state_numbers_with, state_with_in};
ghost use Rattle.deadline_layout.specs.Places.{entries_told, arrived_in};

use crate::arrivals;
use crate::tables::{FIRST, STAGE, TABLE, entry_in, put_entry};
use deadlines::locations::dated;
use layout::tables::{B, C, LIMITS};
use model::Location;
use rules::stages::{CHECKING, location_at};
use values::copy;

// [12.140] The deadline table that matches a sound table: of one that is not sound a sum might wrap.
pub(crate) fn put_dated(out: &mut [u64; TABLE], table: &[u64; arrivals::TABLE])
    requires { sound_of (state_in table.now) ≡ true }
    ensures { out.new ≡ state_numbers_with (matched (state_in table.now)) }
{
    copy(&mut out[..arrivals::TABLE], table);
    for i in 0..96 {
        let location = arrivals::location_in(table, i);
        put_entry(
            out,
            i,
            dated(table[B], table[C], table[LIMITS + i], location),
        );
    }
}

// [12.100] The location of an entry, with the arrival that its first time tells.
fn arrived_in(deadlines: &[u64; TABLE], i: usize) -> Location<u64>
    requires { i < 96 }
    ensures { result ≡ arrived_in deadlines.now i (b_in deadlines.now) }
{
    let entry = entry_in(deadlines, i);
    let stage = entry[STAGE];
    let first = entry[FIRST];
    if stage == CHECKING {
        return location_at(stage, first.saturating_sub(deadlines[B]));
    }
    location_at(stage, first)
}

// [12.140] The table that matches a deadline table, each entry of which tells a location.
pub(crate) fn put_arrived(out: &mut [u64; arrivals::TABLE], deadlines: &[u64; TABLE])
    requires { entries_told deadlines.now ≡ true }
    ensures { out.new ≡ state_numbers (arrived (state_with_in deadlines.now)) }
{
    copy(out, &deadlines[..arrivals::TABLE]);
    for i in 0..96 {
        let location = arrived_in(deadlines, i);
        arrivals::put_entry(out, i, location);
    }
}
