// The entries of a table of the first engine, which is turned into a deadline table or out of one: their places are those of `layout`.
ghost use Rattle.std.specs.Prelude.{◌≡◌, ◌<◌};
ghost use Rattle.layout.specs.Places.{location_in, placed_at};

pub(crate) use layout::tables::TABLE;
use layout::tables::{HEADER, STRIDE};
use model::Location;
use rules::stages::{location_at, since_of, stage_of};

// [9.10] The location that an entry tells.
// kept: (a) this and the next are those of `layout::tables`, which are no public functions there: they ask for a place, and [4.120] rules that out
pub(crate) fn location_in(table: &[u64; TABLE], i: usize) -> Location<u64>
    requires { i < 96 }
    ensures { result ≡ location_in table.now i }
{
    let at = HEADER + STRIDE * i;
    location_at(table[at], table[at + 1])
}

// [9.10] The entry of a process that has come to a location.
pub(crate) fn put_entry(table: &mut [u64; TABLE], i: usize, location: Location<u64>)
    requires { i < 96 }
    ensures { table.new ≡ placed_at table.old i location }
{
    let at = HEADER + STRIDE * i;
    table[at] = stage_of(location);
    table[at + 1] = since_of(location);
}
