// The calls of a list, read from its lines.
ghost use Rattle.std.specs.Prelude.{◌≤◌, length};

use crate::lines::fields;
use model::Parameters;

// A call as `history` takes it, a row of its kind, action, process and time; and the summary that it is lent, five counts and the waits so
// far.
#[derive(Clone, Copy)]
pub(crate) struct Call {
    pub row: [u64; 4],
    pub counts: [u64; 5],
    pub waited: [u64; 96],
}

impl Call {
    pub(crate) const NONE: Call = Call {
        row: [0; 4],
        counts: [0; 5],
        waited: [0; 96],
    };

    // That of a line, which has them all one after the other.
    fn read(line: &[u8]) -> Call {
        Call {
            row: fields(line, 0),
            counts: fields(line, 4),
            waited: fields(line, 9),
        }
    }

    // Its action, process and time.
    pub(crate) fn act(&self) -> [u64; 3] {
        let [_, action, process, time] = self.row;
        [action, process, time]
    }
}

fn is_line_end(byte: &u8) -> bool {
    *byte == b'\n'
}

// n, b, c and the values of a are the first line.
pub(crate) fn read_parameters(text: &[u8]) -> Parameters {
    let line = text.split_inclusive(is_line_end).next().unwrap_or(&[]);
    let [n, b, c]: [u64; 3] = fields(line, 0);
    Parameters {
        n,
        b,
        c,
        a: fields(line, 3),
    }
}

// The calls of the lines that follow, as many as there are and have room. Answers how many these are.
pub(crate) fn read_calls(text: &[u8], calls: &mut [Call]) -> usize
    ensures { result ≤ length calls.new }
{
    let mut lines = text.split_inclusive(is_line_end).skip(1);
    for i in 0..calls.len() {
        let Some(line) = lines.next() else {
            return i;
        };
        calls[i] = Call::read(line);
    }
    calls.len()
}
