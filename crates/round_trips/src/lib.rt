// Reading a recording and writing it again, and writing steps and reading them again: the calls of `read` and `write` that
// the theorems of `grammar` speak of, each round trip as the contract of one function.
#![tactic(auto)]

ghost use Rattle.std.specs.Prelude.{◌≡◌};
ghost use Rattle.model.specs.Readings.{lent, lists, read_gave, read_of};
ghost use Rattle.model.specs.Writings.{events_of, write_gave, write_of};
ghost use Rattle.round_trips.specs.Trips.{rewrite_of, reread_of, ComesBack, ReadsAlike, StepsComeBack};

use model::{Answer, Parameters, Reading};
use trace::{read, write};

// [6.200] [6.202] [6.205] [21.110] Reads a recording into three lists, and writes what was read. A refused reading is the answer, and `out` stays.
pub fn rewrite(
    text: &[u8],
    times: &mut [u64],
    processes: &mut [u64],
    actions: &mut [u64],
    out: &mut [u8],
) -> Answer
    ensures kept { lists times.new processes.new actions.new
        ≡ (read_of text.now (lists times.old processes.old actions.old)).kept }
    ensures written { write_gave result out.new
        ≡ rewrite_of (read_of text.now (lists times.old processes.old actions.old)) out.old }
    ensures trip { ComesBack text.now (lists times.old processes.old actions.old)
        out.old out.new }
    ensures alike { ReadsAlike text.now (lists times.old processes.old actions.old) (write_gave result out.new) }
{
    let reading = match read(text, times, processes, actions) {
        Ok(reading) => reading,
        Err(answer) => {
            return answer;
        }
    };
    let count = reading.steps;
    write(
        reading.parameters,
        &times[..count],
        &processes[..count],
        &actions[..count],
        out,
    )
}

// [6.210] [6.215] [21.110] Writes the steps in three lists into `out`, and reads what was written into three other lists. A refused writing is
// the answer, and these lists stay.
pub fn reread(
    parameters: Parameters,
    times: &[u64],
    processes: &[u64],
    actions: &[u64],
    out: &mut [u8],
    times2: &mut [u64],
    processes2: &mut [u64],
    actions2: &mut [u64],
) -> Result<Reading, Answer>
    ensures out { out.new
        ≡ (write_of parameters (events_of (lent times.entry processes.entry actions.entry)) out.old).out }
    ensures read { read_gave result (lists times2.new processes2.new actions2.new)
        ≡ reread_of (write_of parameters (events_of (lent times.entry processes.entry actions.entry)) out.old)
        (lists times2.old processes2.old actions2.old) }
    ensures trip { StepsComeBack parameters (events_of (lent times.entry processes.entry actions.entry)) out.old
        (lists times2.old processes2.old actions2.old)
        (read_gave result (lists times2.new processes2.new actions2.new)) }
{
    let answer = write(parameters, times, processes, actions, out);
    if answer.code != 0 {
        return Err(answer);
    }
    let size = answer.time as usize;
    read(&out[..size], times2, processes2, actions2)
}
