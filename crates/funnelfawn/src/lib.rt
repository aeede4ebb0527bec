// The box for callers that hold numbers: each function takes numbers and lists of numbers, any at all, and gives back what its definition
// says, the lent numbers included. `funnelfawn_c` exports them, and include/funnelfawn.h says the same in C.

#![tactic(auto)]

ghost use Rattle.std.specs.Prelude.{◌≡◌};
ghost use Rattle.model.specs.States.{parameters_of, limits_in};
ghost use Rattle.model.specs.Readings.{lent, lists};
ghost use Rattle.model.specs.Writings.{events_of, write_gave, write_of};
ghost use Rattle.model.specs.Reports.{report_of};
ghost use Rattle.trace.specs.ReadingTo.{read_to_gave, read_to_of};
ghost use Rattle.intervals.specs.Intervals.{write_intervals_of};
ghost use Rattle.local_log.specs.Comparisons.{entries_of, Compared};
ghost use Rattle.local_log.specs.Formulas.{compared_of};
ghost use Rattle.accepted_log.specs.AcceptedLogs.{log_gave, read_accepted_of};
ghost use Rattle.layout.specs.Layouts.{layout_number};
ghost use Rattle.layout.specs.Interface.{lent_gave, lent_fresh, lent_step, record_gave, lent_record, summary_gave, lent_summary};
ghost use Rattle.deadline_layout.specs.Interface.{lent_fresh_with, lent_step_with, lent_to_deadlines, lent_to_arrivals};
ghost use Rattle.recent.specs.Encodings.{board_gave, lent_set_up, lent_add, lent_show};
ghost use Rattle.recent.specs.Tellings.{told_gave, lent_tell};

use accepted_log::read_accepted;
use intervals::write_intervals;
use local_log::{Comparison, compare};
use model::{Answer, Parameters};
use report::report;
use rules::actions::CRIT;
use trace::ReadingTo;
use values::limits::limits_in;

// [9.15] [21.110] The layout of what is lent, as one number.
pub fn funnelfawn_layout() -> u64
    ensures { result ≡ layout_number }
{
    layout::number()
}

// [9.45] The parameters that a call is handed as numbers and a list of values of a.
fn parameters_with(n: u64, b: u64, c: u64, a: &[u64]) -> Parameters
    ensures { result ≡ parameters_of n b c (limits_in a.now) }
{
    Parameters {
        n,
        b,
        c,
        a: limits_in(a),
    }
}

// [9.45] [9.50] [21.110] A fresh table, in the lent numbers.
pub fn funnelfawn_fresh(n: u64, b: u64, c: u64, a: &[u64], table: &mut [u64]) -> Answer
    ensures { lent_gave result table.new ≡ lent_fresh (parameters_of n b c (limits_in a.now)) table.old }
{
    layout::fresh(parameters_with(n, b, c, a), table)
}

// [9.60] [21.110] One act, in the lent table.
pub fn funnelfawn_step(table: &mut [u64], action: u64, process: u64, time: u64) -> Answer
    ensures { lent_gave result table.new ≡ lent_step table.old action process time }
{
    layout::step(table, action, process, time)
}

// [9.70] [21.110] A new summary, in the lent numbers.
pub fn funnelfawn_new_summary(summary: &mut [u64]) -> Answer
    ensures { summary_gave result summary.new ≡ lent_summary summary.old }
{
    layout::new_summary(summary)
}

// [9.80] [21.110] One act, in the lent table, counted in the lent summary.
pub fn funnelfawn_record(
    table: &mut [u64],
    summary: &mut [u64],
    action: u64,
    process: u64,
    time: u64,
) -> Answer
    ensures { record_gave result table.new summary.new
        ≡ lent_record table.old summary.old action process time }
{
    layout::record(table, summary, action, process, time)
}

// [9.90] [21.110] Reads a recording: its values of a go to a list, and its steps to three.
pub fn funnelfawn_read(
    text: &[u8],
    a: &mut [u64],
    times: &mut [u64],
    processes: &mut [u64],
    actions: &mut [u64],
) -> ReadingTo
    ensures { read_to_gave result a.new (lists times.new processes.new actions.new)
        ≡ read_to_of text.now a.old (lists times.old processes.old actions.old) }
{
    trace::read_to(text, a, times, processes, actions)
}

// [9.45] [9.100] [21.110] Writes a recording of the steps in the three lists.
pub fn funnelfawn_write(
    n: u64,
    b: u64,
    c: u64,
    a: &[u64],
    times: &[u64],
    processes: &[u64],
    actions: &[u64],
    out: &mut [u8],
) -> Answer
    ensures { write_gave result out.new
        ≡ write_of (parameters_of n b c (limits_in a.now)) (events_of (lent times.entry processes.entry actions.entry))
        out.old }
{
    let parameters = parameters_with(n, b, c, a);
    trace::write(parameters, times, processes, actions, out)
}

// [9.110] [21.110] Writes what `replay` prints for a recording.
pub fn funnelfawn_replay(text: &[u8], out: &mut [u8]) -> Answer
    ensures { write_gave result out.new ≡ report_of text.now out.old }
{
    report(text, out)
}

// [9.112] [21.110] Writes the spans of selling of a recording.
pub fn funnelfawn_spans(text: &[u8], out: &mut [u8]) -> Answer
    ensures { write_gave result out.new ≡ write_intervals_of text.now out.old }
{
    write_intervals(text, out)
}

// [13.120] [13.148] [21.110] The accepted acts of a window in a recording: their times and acts go to two lists.
pub fn funnelfawn_accepted_acts(
    text: &[u8],
    process: u64,
    times: &mut [u64],
    actions: &mut [u64],
) -> Answer
    ensures { log_gave result times.new actions.new
        ≡ read_accepted_of text.now process times.old actions.old }
{
    read_accepted(text, process, times, actions)
}

// [13.90] [13.148] [21.110] A till's notebook, its stamps and claims, held against a list of accepted acts.
pub fn funnelfawn_compare_logs(
    stamps: &[u64],
    claims: &[u64],
    times: &[u64],
    actions: &[u64],
    d: u64,
    e: u64,
) -> Comparison
    ensures means { Compared d e (entries_of stamps.now claims.now)
        (entries_of times.now actions.now) result }
    ensures equals { result ≡ compared_of d e (entries_of stamps.now claims.now)
        (entries_of times.now actions.now) }
{
    compare(stamps, claims, times, actions, d, e)
}

// [10.60] [10.130] [21.110] An empty board of a width, in the lent numbers.
pub fn funnelfawn_set_up_board(width: u64, board: &mut [u64]) -> Answer
    ensures { board_gave result board.new ≡ lent_set_up width board.old }
{
    recent::set_up(width, board)
}

// [10.70] [10.140] [21.110] An entry more, in the lent board.
pub fn funnelfawn_add_to_board(board: &mut [u64], time: u64, process: u64, wait: u64) -> Answer
    ensures { board_gave result board.new ≡ lent_add board.old time process wait }
{
    recent::add(board, time, process, wait)
}

// [10.80] [10.140] [21.110] The figures of the lent board at a clock.
pub fn funnelfawn_show_board(board: &mut [u64], clock: u64) -> Answer
    ensures { board_gave result board.new ≡ lent_show board.old clock }
{
    recent::show(board, clock)
}

// [10.200] The answer of a recorded step, and what the board answered.
#[repr(C)]
#[derive(Clone, Copy)]
pub struct Told {
    pub answer: Answer,
    pub told: Answer,
}

// [10.200] [10.205] [21.110] One act, in the lent table, counted in the lent summary; the lent board is told of an accepted crit, with
// the wait that the recorded step hands on.
pub fn funnelfawn_record_and_tell(
    table: &mut [u64],
    summary: &mut [u64],
    board: &mut [u64],
    action: u64,
    process: u64,
    time: u64,
) -> Told
    ensures { told_gave (record_gave result.answer table.new summary.new) (board_gave result.told board.new)
        ≡ lent_tell table.old summary.old board.old action process time }
{
    let entered = layout::record_entry(table, summary, action, process, time);
    let answer = entered.answer;
    if answer.code != 0 || action != CRIT {
        // the board is told nothing
        return Told {
            answer,
            told: Answer::accepted(0, 0),
        };
    }
    let told = recent::add(board, time, process, entered.wait);
    Told { answer, told }
}

// The second engine

// [9.45] [12.120] [21.110] A fresh deadline table, in the lent numbers.
pub fn funnelfawn_fresh_deadlines(
    n: u64,
    b: u64,
    c: u64,
    a: &[u64],
    deadlines: &mut [u64],
) -> Answer
    ensures { lent_gave result deadlines.new
        ≡ lent_fresh_with (parameters_of n b c (limits_in a.now)) deadlines.old }
{
    deadline_layout::fresh(parameters_with(n, b, c, a), deadlines)
}

// [12.130] [21.110] One act, in the lent deadline table.
pub fn funnelfawn_step_deadlines(
    deadlines: &mut [u64],
    action: u64,
    process: u64,
    time: u64,
) -> Answer
    ensures { lent_gave result deadlines.new ≡ lent_step_with deadlines.old action process time }
{
    deadline_layout::step(deadlines, action, process, time)
}

// [12.140] [21.110] From a table to the deadline table that matches it.
pub fn funnelfawn_to_deadlines(table: &[u64], deadlines: &mut [u64]) -> Answer
    ensures { lent_gave result deadlines.new ≡ lent_to_deadlines table.now deadlines.old }
{
    deadline_layout::to_deadlines(table, deadlines)
}

// [12.140] [21.110] From a deadline table to the table that matches it.
pub fn funnelfawn_to_arrivals(deadlines: &[u64], table: &mut [u64]) -> Answer
    ensures { lent_gave result table.new ≡ lent_to_arrivals deadlines.now table.old }
{
    deadline_layout::to_arrivals(deadlines, table)
}
