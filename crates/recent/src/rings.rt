// The entries that a board keeps, as a ring of places in the lent numbers. One pass over them tells whether the board is sound, which of them
// count at a time, and their longest wait; the places do not move when entries expire.
ghost use Rattle.std.specs.Prelude.{◌≡◌, ◌+◌, ◌-◌, ◌≤◌, ◌<◌, length};
ghost use Rattle.recent.specs.Boards.{entry_with, most_kept, width_stands};
ghost use Rattle.recent.specs.Encodings.{wrapped, ring_from, headed, placed, emptied};
ghost use Rattle.recent.specs.Looking.{rows_of, entries_in, Rests, Passes, HeaderStands, Looks};

// [10.110] where the numbers of the header stand
const WIDTH: usize = 0;

pub(crate) const LAST: usize = 1;

const FIRST: usize = 2;

const COUNT: usize = 3;

// [10.110] the numbers before the places
const HEADER: usize = 4;

// [10.110] the numbers of an entry: its time, its process and its wait
const STRIDE: usize = 3;

// [10.30] [10.110]
pub(crate) const PLACES: usize = 1024;

// [10.110] the numbers of a board
pub(crate) const BOARD: usize = HEADER + STRIDE * PLACES;

// [10.20]
const MOST_WIDTH: u64 = 1000000000;

// [10.20]
pub(crate) fn width_stands(width: u64) -> bool
    ensures { result ≡ width_stands width }
{
    (1..=MOST_WIDTH).contains(&width)
}

// [10.115]
pub(crate) fn wrapped_place(place: usize) -> usize
    ensures { result ≡ wrapped place }
{
    if place < PLACES {
        place
    } else {
        place - PLACES
    }
}

// [10.40] The first time that counts at a clock. Nothing is added to a time, so that no sum wraps.
fn since_at(width: u64, clock: u64) -> u64
    requires { 1 ≤ width }
    ensures { result ≡ clock + 1 - width }
{
    clock.saturating_sub(width - 1)
}

// [10.110] The places, each with the numbers of its entry.
fn places(board: &[u64; BOARD]) -> &[[u64; STRIDE]]
    ensures rows { result.now ≡ rows_of board.now }
    ensures count { length result.now ≡ most_kept }
{
    let (places, _) = board[HEADER..].as_chunks::<STRIDE>();
    places
}

// What is left of a ring once the entries before some time are gone: the first place and how many; `time` is that of the last that is gone.
#[derive(Clone, Copy)]
struct Rest {
    first: usize,
    count: usize,
    time: u64,
}

// [10.55] Those before `since` stand first, as times do not fall; an accepted call drops them. Nothing where one of them is before the one ahead of
// it.
fn rest_from(board: &[u64; BOARD], first: usize, count: usize, since: u64) -> Option<Rest>
    requires first_lt_most_kept { first < most_kept }
    requires count_le_most_kept { count ≤ most_kept }
    ensures { Rests board.now first count since result }
{
    let places = places(board);
    let mut place = first;
    let mut time = 0;
    for gone in 0..count {
        let [entered, _, _] = places[place];
        if since <= entered {
            return Some(Rest {
                first: place,
                count: count - gone,
                time,
            });
        }
        if entered < time {
            return None;
        }
        time = entered;
        place = wrapped_place(place + 1);
    }
    Some(Rest {
        first: place,
        count: 0,
        time,
    })
}

// What a pass over entries has come to: the time of the last one, and the longest wait.
#[derive(Clone, Copy)]
struct Pass {
    time: u64,
    longest: u64,
}

// Entries after those of a pass. Nothing where the time of one falls.
fn longest_in(entries: &[[u64; STRIDE]], pass: Pass) -> Option<Pass>
    ensures { Passes (entries_in entries.now) pass result }
{
    let mut time = pass.time;
    let mut longest = pass.longest;
    for entry in entries {
        let [entered, _, wait] = *entry;
        if entered < time {
            return None;
        }
        time = entered;
        longest = longest.max(wait);
    }
    Some(Pass { time, longest })
}

// The entries from a place on, around the end of the places.
fn longest_around(board: &[u64; BOARD], first: usize, count: usize, pass: Pass) -> Option<Pass>
    requires first_lt_most_kept { first < most_kept }
    requires count_le_most_kept { count ≤ most_kept }
    ensures { Passes (ring_from board.now first count) pass result }
{
    let places = places(board);
    let end = first + count;
    if end <= PLACES {
        return longest_in(&places[first..end], pass);
    }
    let before = longest_in(&places[first..], pass)?;
    longest_in(&places[..end - PLACES], before)
}

// What a sound board comes to at a time: the entries that count then, from the place `first` on, and their longest wait.
#[derive(Clone, Copy)]
pub(crate) struct Look {
    pub(crate) first: usize,
    pub(crate) count: usize,
    pub(crate) longest: u64,
}

// [10.30] [10.55] The passes over the entries of a board whose header stands.
fn look_kept(board: &[u64; BOARD], time: u64) -> Option<Look>
    requires { HeaderStands board.now }
    ensures { Looks board.now time result }
{
    let first = board[FIRST] as usize;
    let count = board[COUNT] as usize;
    let rest = rest_from(board, first, count, since_at(board[WIDTH], time))?;
    let start = Pass {
        time: rest.time,
        longest: 0,
    };
    let pass = longest_around(board, rest.first, rest.count, start)?;
    if board[LAST] < pass.time {
        return None;
    }
    Some(Look {
        first: rest.first,
        count: rest.count,
        longest: pass.longest,
    })
}

// [10.30] [10.55] [10.120] Nothing of a board that is not sound.
pub(crate) fn look_in(board: &[u64; BOARD], time: u64) -> Option<Look>
    ensures { Looks board.now time result }
{
    if !width_stands(board[WIDTH]) {
        return None;
    }
    if (PLACES as u64) <= board[FIRST] || (PLACES as u64) < board[COUNT] {
        return None;
    }
    // saves 10 of 80 instructions
    if board[COUNT] == 0 {
        return Some(Look {
            first: board[FIRST] as usize,
            count: 0,
            longest: 0,
        });
    }
    look_kept(board, time)
}

// [10.130] An empty board.
pub(crate) fn empty(board: &mut [u64; BOARD], width: u64)
    ensures { board.new ≡ emptied width board.old }
{
    board[WIDTH] = width;
    board[LAST] = 0;
    board[FIRST] = 0;
    board[COUNT] = 0;
}

// [10.140]
pub(crate) fn put_header(board: &mut [u64; BOARD], time: u64, first: usize, count: usize)
    ensures { board.new ≡ headed board.old time first count }
{
    board[LAST] = time;
    board[FIRST] = first as u64;
    board[COUNT] = count as u64;
}

// [10.140]
pub(crate) fn put_entry(board: &mut [u64; BOARD], place: usize, time: u64, process: u64, wait: u64)
    requires { place < most_kept }
    ensures { board.new ≡ placed board.old place (entry_with time process wait) }
{
    let at = HEADER + STRIDE * place;
    board[at] = time;
    board[at + 1] = process;
    board[at + 2] = wait;
}
