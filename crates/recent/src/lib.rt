// The board of recent entries, in numbers that are lent and changed in place: `set_up`, `add` and `show` take any numbers at all and give back
// what their definitions say.
#![tactic(auto)]

mod rings;

ghost use Rattle.std.specs.Prelude.{◌≡◌};
ghost use Rattle.recent.specs.Boards.{is_process};
ghost use Rattle.recent.specs.Encodings.{board_gave, lent_set_up, lent_add, lent_show};
ghost use Rattle.recent.specs.Looking.{untimely_of};

use crate::rings::{
    BOARD, LAST, PLACES, empty, look_in, put_entry, put_header, width_stands, wrapped_place,
};
use model::{Answer, Refusal};

// [2.40] the clock's end
const END: u64 = 1000000000000;

// [10.60] [10.65] [10.130] [21.110] An empty board of a width.
pub fn set_up(width: u64, board: &mut [u64]) -> Answer
    ensures { board_gave result board.new ≡ lent_set_up width board.old }
{
    let Some(board) = board.first_chunk_mut::<BOARD>() else {
        return if width_stands(width) {
            Answer::from(Refusal::ShortOutput)
        } else {
            Answer::from(Refusal::BadWidth)
        };
    };
    if !width_stands(width) {
        empty(board, 0);
        return Answer::from(Refusal::BadWidth);
    }
    empty(board, width);
    Answer::accepted(0, 0)
}

// [4.4] [4.5] The refusal of a time that a sound board is told, if it is refused.
fn untimely(last: u64, time: u64) -> Option<Answer>
    ensures { result ≡ untimely_of last time }
{
    if time < last {
        return Some(Answer::refused(Refusal::Backward, 0, last));
    }
    if END < time {
        return Some(Answer::from(Refusal::EndOfClock));
    }
    None
}

// [4.7]
fn is_process(process: u64) -> bool
    ensures { result ≡ is_process process }
{
    (1..=96).contains(&process)
}

// [10.70] [10.90] [10.140] [21.110] An entry more, at its time.
pub fn add(board: &mut [u64], time: u64, process: u64, wait: u64) -> Answer
    ensures { board_gave result board.new ≡ lent_add board.old time process wait }
{
    let Some(board) = board.first_chunk_mut::<BOARD>() else {
        return Answer::from(Refusal::NoSummary);
    };
    let Some(seen) = look_in(board, time) else {
        return Answer::from(Refusal::NoSummary);
    };
    if let Some(refused) = untimely(board[LAST], time) {
        return refused;
    }
    if !is_process(process) {
        return Answer::from(Refusal::NoProcess);
    }
    if seen.count == PLACES {
        return Answer::from(Refusal::BoardFull);
    }
    put_header(board, time, seen.first, seen.count + 1);
    put_entry(
        board,
        wrapped_place(seen.first + seen.count),
        time,
        process,
        wait,
    );
    Answer::accepted((seen.count + 1) as u64, seen.longest.max(wait))
}

// [10.80] [10.90] [10.140] [21.110] The figures at a clock.
pub fn show(board: &mut [u64], clock: u64) -> Answer
    ensures { board_gave result board.new ≡ lent_show board.old clock }
{
    let Some(board) = board.first_chunk_mut::<BOARD>() else {
        return Answer::from(Refusal::NoSummary);
    };
    let Some(seen) = look_in(board, clock) else {
        return Answer::from(Refusal::NoSummary);
    };
    if let Some(refused) = untimely(board[LAST], clock) {
        return refused;
    }
    put_header(board, clock, seen.first, seen.count);
    Answer::accepted(seen.count as u64, seen.longest)
}
